//! Which part a record goes into.

ghost use Rattle.std.specs.Prelude.{◌≡◌, ◌≢◌, ℕ, List, [], IfErr, IfOk, Err, None, Some, false, true};
ghost use Rattle.std.specs.BTreeMap.{get};
ghost use Rattle.std.specs.Ordering.{nat_cmp};
ghost use Rattle.hc_transcript.specs.Items.{Item};
ghost use Rattle.hc_parts.specs.Orderly.{IsInTurn};
ghost use Rattle.hc_parts.specs.Parts.{KeepsCause};
ghost use Rattle.hc_split.specs.Parting.{part_by};
ghost use Rattle.hc_split.specs.Routing.{ClosesRoute, IsRouted, OpensRoute, RoutesAs, joins_by};

use crate::parts::Parts;
use hc_head::Target;
use hc_transcript::{MeaningView, RecordView};
use std::alloc::Global;
use std::collections::BTreeMap;

/// Why a record can't go into a part.
#[derive(Clone, Copy)]
pub enum RouteFault {
    /// It is a forward whose part isn't that of the exchange that it was made for.
    Apart,
    /// It answers what isn't open.
    NothingOpen,
    /// Memory was refused.
    Memory,
}

/// The part of each open exchange and of each open forward, by number.
pub struct Routes {
    exchanges: BTreeMap<u64, usize>,
    forwards: BTreeMap<u64, usize>,
}

impl Drop for Routes {
    fn drop(self) {
        let Routes {
            exchanges,
            forwards,
        } = self;
        drop(exchanges);
        drop(forwards);
    }
}

impl Routes {
    /// Where nothing is open.
    pub fn new(alloc: Global) -> Self
        ensures { (parts : Parts) → RoutesAs (part_by parts) result [] }
    {
        Routes {
            exchanges: BTreeMap::new(alloc),
            forwards: BTreeMap::new(alloc),
        }
    }

    /// The part that the next record goes into. A forward that is told to be made for an exchange has to go where that
    /// exchange went.
    pub fn route(&mut self, parts: &Parts, item: &RecordView<'_>) -> Result<usize, RouteFault>
        ensures ok { (h : List Item) → RoutesAs (part_by parts.now) self.old h
            → IfOk result (IsRouted (part_by parts.now) self.new h item.now) }
        ensures apart { (h : List Item) → RoutesAs (part_by parts.now) self.old h
            → result ≡ Err RouteFault.Apart → ¬ (KeepsCause (part_by parts.now) h item.now) }
        ensures unopened { (h : List Item) → RoutesAs (part_by parts.now) self.old h
            → result ≡ Err RouteFault.NothingOpen → ¬ (IsInTurn h item.now) }
    {
        let number = item.number;
        match &item.of {
            MeaningView::ClientRequest { target, .. } => self.open_exchange(parts, number, target),
            MeaningView::OriginRequest { target, cause, .. } => {
                self.open_forward(parts, number, target, *cause)
            }
            MeaningView::OriginResponse(_) => closed(&mut self.forwards, number),
            MeaningView::OriginFailure => closed(&mut self.forwards, number),
            MeaningView::ClientReply(_) => closed(&mut self.exchanges, number),
        }
    }

    fn open_exchange(
        &mut self,
        parts: &Parts,
        number: u64,
        target: &Target,
    ) -> Result<usize, RouteFault>
        ensures ok { IfOk result (λ k. (k ≡ part_by parts.now target.now) × OpensRoute number k self.old.exchanges self.new.exchanges) }
        ensures others { self.new.forwards ≡ self.old.forwards }
        ensures err { IfErr result (λ fault. fault ≡ RouteFault.Memory) }
    {
        let part = parts.part_of(target);
        match self.exchanges.insert(number, part) {
            Ok(_) => Ok(part),
            Err(_) => Err(RouteFault::Memory),
        }
    }

    fn open_forward(
        &mut self,
        parts: &Parts,
        number: u64,
        target: &Target,
        cause: Option<u64>,
    ) -> Result<usize, RouteFault>
        ensures ok { IfOk result (λ k. (k ≡ part_by parts.now target.now) × (joins_by self.old.exchanges cause k ≡ true)
            × OpensRoute number k self.old.forwards self.new.forwards) }
        ensures others { self.new.exchanges ≡ self.old.exchanges }
        ensures apart { result ≡ Err RouteFault.Apart → joins_by self.old.exchanges cause (part_by parts.now target.now) ≡ false }
        ensures unopened { result ≢ Err RouteFault.NothingOpen }
    {
        let part = parts.part_of(target);
        if !self.joins(cause, part) {
            return Err(RouteFault::Apart);
        }
        match self.forwards.insert(number, part) {
            Ok(_) => Ok(part),
            Err(_) => Err(RouteFault::Memory),
        }
    }

    // Whether the exchange, if one of that number is open, went into that part.
    fn joins(&self, cause: Option<u64>, part: usize) -> bool
        ensures { result ≡ joins_by self.now.exchanges cause part }
    {
        let Some(number) = cause else {
            return true;
        };
        match self.exchanges.get(&number) {
            Some(other) => *other == part,
            None => true,
        }
    }
}

// The part of what is closed.
fn closed(kept: &mut BTreeMap<u64, usize>, number: u64) -> Result<usize, RouteFault>
    ensures ok { IfOk result (λ k. (get nat_cmp kept.old number ≡ Some k) × ClosesRoute number kept.old kept.new) }
    ensures err { IfErr result (λ fault. (fault ≡ RouteFault.NothingOpen) × (get nat_cmp kept.old number ≡ None)) }
{
    match kept.remove(&number) {
        Some(part) => Ok(part),
        None => Err(RouteFault::NothingOpen),
    }
}
