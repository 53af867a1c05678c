//! The auditor of a transcript.

ghost use Rattle.std.specs.Prelude.{◌≡◌, ◌≤◌, ◌++◌, ◌⊎◌, ℕ, List, [], Option, Some, IsSome, IfOk, IfErr, IfSome, OnOk, OnErr, Ok, Err};
ghost use Rattle.std.specs.Option.{option_map};
ghost use Rattle.hc_transcript.specs.declared.format.Format.{Format};
ghost use Rattle.hc_transcript.specs.Limits.{longest_unfinished};
ghost use Rattle.hc_history.specs.declared.settings.Settings.{Settings};
ghost use Rattle.hc_history.specs.declared.verdicts.Verdict.{Verdict};
ghost use Rattle.hc_history.specs.Seen.{IsSeenAs};
ghost use Rattle.hc_history.specs.Verdicts.{IsVerdict};
ghost use Rattle.hc_audit.specs.Standing.{MayChange, Stands};

use crate::fault::AuditFault;
use crate::judge::Judge;
use hc_history::{Settings, Verdict};
use hc_index::Index;
use std::alloc::Global;

/// How far an audit has come.
#[derive(Drop)]
enum AuditStage<I> {
    /// Every reply so far is right.
    Open(Judge<I>),
    /// The verdict holds however the octets go on.
    Settled(Verdict),
    /// Memory was refused.
    Failed,
}

/// Audits a transcript that comes in pieces. It judges each record once it is whole, so that
/// only the octets of a record that isn't whole yet wait.
#[derive(Drop)]
pub struct Auditor<I> {
    stage: AuditStage<I>,
}

impl<I: Index + Drop> Auditor<I> {
    ghost use Rattle.hc_audit.specs.Agreement.{Agrees, HasFailed, settled, rest};

    /// An auditor that was fed nothing. `index` is to know of nothing yet.
    pub fn new(alloc: Global, index: I, settings: Settings) -> Self
        ensures { ((format : Format) → IsSeenAs format (I.seen index) []) → Agrees I.seen result settings [] }
    {
        Auditor {
            stage: AuditStage::Open(Judge::new(alloc, index, settings)),
        }
    }

    /// Takes the next piece of the transcript, and judges the records that are whole then. Once a verdict
    /// stands, nothing behind it is read. After an `Err` it returns `Failed` for ever.
    pub fn feed(&mut self, piece: &[u8]) -> Result<(), AuditFault>
        ensures ok { (settings : Settings) (octets : List ℕ) → Agrees I.seen self.old settings octets
            → OnOk result (Agrees I.seen self.new settings (octets ++ piece.now)) }
        // What waits is less than a record.
        ensures rest { rest self.new ≤ longest_unfinished }
        ensures settled { IsSome (settled self.old) → (result ≡ Ok tt) × (self.new ≡ self.old) }
        ensures err { IfErr result (λ fault. HasFailed self.new × ((fault ≡ AuditFault.Memory) ⊎ HasFailed self.old)) }
        ensures failed { HasFailed self.old → (result ≡ Err AuditFault.Failed) × (self.new ≡ self.old) }
    {
        let judge = match &mut self.stage {
            AuditStage::Open(judge) => judge,
            AuditStage::Settled(_) => return Ok(()),
            AuditStage::Failed => return Err(AuditFault::Failed),
        };
        match judge.feed(piece) {
            Ok(None) => Ok(()),
            Ok(Some(verdict)) => {
                self.stage = AuditStage::Settled(verdict);
                Ok(())
            }
            Err(_) => {
                self.stage = AuditStage::Failed;
                Err(AuditFault::Memory)
            }
        }
    }

    /// How many octets wait to be judged, 0 where a verdict stands or a fault was returned.
    pub fn rest(&self) -> usize
        ensures { result ≡ rest self.now }
    {
        match &self.stage {
            AuditStage::Open(judge) => judge.rest(),
            AuditStage::Settled(_) | AuditStage::Failed => 0,
        }
    }

    /// The verdict that holds however the octets go on, if there is one yet: a No, or a Malformed by any
    /// fault but Torn.
    pub fn settled(&self) -> Option<&Verdict>
        ensures value { option_map (λ verdict. verdict.now) result ≡ settled self.now }
        ensures stands { (settings : Settings) (octets : List ℕ) → Agrees I.seen self.now settings octets
            → IfSome result (λ verdict. Stands verdict.now settings octets) }
        // Where there is none, the verdict on the octets so far is a Yes or Torn.
        ensures open { (settings : Settings) (octets : List ℕ) (verdict : Verdict) → Agrees I.seen self.now settings octets
            → result ≡ None → IsVerdict octets settings verdict → MayChange verdict }
        ensures failed { HasFailed self.now → result ≡ None }
    {
        match &self.stage {
            AuditStage::Settled(verdict) => Some(verdict),
            AuditStage::Open(_) => None,
            AuditStage::Failed => None,
        }
    }

    /// The verdict on all octets that were fed.
    pub fn finish(self) -> Result<Verdict, AuditFault>
        ensures verdict { (settings : Settings) (octets : List ℕ) → Agrees I.seen self settings octets
            → IfOk result (IsVerdict octets settings) }
        ensures ok { OnErr result (HasFailed self) }
        ensures failed { HasFailed self → result ≡ Err AuditFault.Failed }
    {
        match self.stage {
            AuditStage::Open(judge) => Ok(judge.finish()),
            AuditStage::Settled(verdict) => Ok(verdict),
            AuditStage::Failed => Err(AuditFault::Failed),
        }
    }
}
