//! Replaying scripts.

ghost use Rattle.std.specs.Prelude.{◌≡◌, ◌≢◌, [], ◌++◌, List, ℕ, codes, IfErr, IfOk};
ghost use Rattle.hc_history.specs.declared.settings.Settings.{Settings};
ghost use Rattle.hc_history.specs.Verdicts.{IsVerdict};
ghost use Rattle.hc_audit.specs.Agreement.{Agrees};
ghost use Rattle.hc_service.specs.Runs.{strict};
ghost use Rattle.hc_scripts.specs.declared.fault.ScriptFault.TheVariants as fault;
ghost use Rattle.hc_scripts.specs.Replays.{Replays, StopsReplay};

use crate::fault::ScriptFault;
use crate::script::read_script;
use hc_audit::{
    Allowed, AuditFault, Auditor, FieldNames, Index, Settings, UnmarkedReplies, Verdict,
};
use hc_core::run;
use hc_fields::Octets;
use hc_index::MapIndex;
use std::alloc::Global;

/// Hands the events of the script to a new cache of its settings, and returns the transcript that it
/// records, and the verdict on that, by the strictest audit.
pub fn replay(alloc: Global, script: &[u8]) -> Result<(Octets, Verdict), ScriptFault>
    // All events were handed to the cache, and the verdict is a Yes, as far as records can be numbered.
    ensures ok { IfOk result (λ answer. Replays script.now answer.0 answer.1) }
    ensures err { IfErr result (λ f. f ≢ fault.Memory → StopsReplay script.now f) }
{
    let script = read_script(alloc, script)?;
    let run = run(alloc, script.settings(alloc)?, script.events)?;
    if run.is_cut_off() {
        return Err(ScriptFault::Memory);
    }
    let verdict = verdict_on(alloc, run.transcript.as_slice())?;
    Ok((run.transcript, verdict))
}

/// An audit that lets nothing pass.
fn strict(alloc: Global) -> Settings
    ensures { result ≡ strict }
{
    Settings {
        slack: 0,
        ignored: FieldNames::new(alloc),
        unmarked: UnmarkedReplies::ErrorsOnly,
        allowed: Allowed::nothing(alloc),
    }
}

/// The verdict of the strictest audit on the octets.
fn verdict_on(alloc: Global, octets: &[u8]) -> Result<Verdict, AuditFault>
    ensures { IfOk result (IsVerdict octets.now strict) }
{
    audited(
        Auditor::new(alloc, MapIndex::new(alloc), strict(alloc)),
        octets,
    )
}

/// The verdict of the auditor on the octets.
fn audited<I: Index + Drop>(mut auditor: Auditor<I>, octets: &[u8]) -> Result<Verdict, AuditFault>
    ensures { (settings : Settings) → Agrees I.seen auditor settings [] → IfOk result (IsVerdict octets.now settings) }
{
    auditor.feed(octets)?;
    auditor.finish()
}
