//! What is open after the records so far, and the last moment and numbers.

ghost use Rattle.std.specs.Prelude.{◌≡◌, ℕ, ◌+◌, ◌*◌, ◌<◌, ◌≤◌, List, [], ◌∷◌, OnOk, OnErr, IsSome, is_some, is_ok, if◌then◌else◌};
ghost use Rattle.std.specs.Ordering.{nat_cmp};
ghost use Rattle.std.specs.BTreeMap.{get, btree_map_len};
ghost use Rattle.hc_transcript.specs.Limits.{greatest_number};
ghost use Rattle.hc_transcript.specs.Items.{Item};
ghost use Rattle.hc_transcript.specs.Checks.{has_right_length, has_right_number, has_right_cause, answers_open};
ghost use Rattle.hc_transcript.specs.Transcript.{is_to_head};

use crate::fault::RecordFault;
use crate::limits::{GREATEST_MOMENT, GREATEST_NUMBER, LONGEST_MESSAGE};
use crate::line::{Kind, Line, ToldCause};
use crate::view::{MeaningView, RecordView};
use std::alloc::{AllocError, Global};
use std::collections::BTreeMap;

/// What a beginning of a transcript leaves for the records after it. The maps tell of each open
/// number whether its request is HEAD.
#[derive(Drop)]
pub(crate) struct Standing {
    records: u64,
    moment: u64,
    exchange: u64,
    forward: u64,
    exchanges: BTreeMap<u64, bool>,
    forwards: BTreeMap<u64, bool>,
    ghost exchange_in_range: { exchange ≤ greatest_number },
    ghost forward_in_range: { forward ≤ greatest_number },
    // Each record opens a number or closes one, so records can't overflow.
    ghost few: { records + (btree_map_len exchanges + btree_map_len forwards) ≤ 2 * (exchange + forward) },
}

fn has_right_length(kind: Kind, size: u64) -> bool
    ensures { result ≡ has_right_length kind size }
{
    match kind {
        Kind::OriginFailure => size == 0,
        _ => true,
    }
}

fn has_right_number(kind: Kind, exchange: u64, forward: u64, number: u64) -> bool
    ensures { result ≡ has_right_number kind exchange forward number }
{
    let last = match kind {
        Kind::ClientRequest => exchange,
        Kind::OriginRequest => forward,
        _ => 0,
    };
    last < number && number <= GREATEST_NUMBER
}

/// Whether an exchange that is told as a cause is open and in range; true where none is told.
fn has_right_cause(cause: ToldCause, is_open: bool) -> bool
    ensures { result ≡ has_right_cause cause is_open }
{
    match cause {
        ToldCause::Exchange(number) => is_open && number <= GREATEST_NUMBER,
        ToldCause::Untold | ToldCause::NoExchange => true,
    }
}

impl Standing {
    ghost use Rattle.hc_transcript.specs.Standing.{StandsAs, standing_cause_is_open, standing_fault, CanFollow, OpensExchange, OpensForward, ClosesExchange, ClosesForward};

    pub(crate) fn new(alloc: Global) -> Self
        ensures { StandsAs result [] }
    {
        Standing {
            records: 0,
            moment: 0,
            exchange: 0,
            forward: 0,
            exchanges: BTreeMap::new(alloc),
            forwards: BTreeMap::new(alloc),
        }
    }

    /// How many records there were.
    pub(crate) fn records(&self) -> u64
        ensures value { result ≡ self.now.records }
        ensures few { result ≤ 4000000000000 }
    {
        self.records
    }

    /// Whether the exchange that is told as a cause is open; true where none is told.
    fn standing_cause_is_open(&self, cause: ToldCause) -> bool
        ensures { result ≡ standing_cause_is_open self.now cause }
    {
        match cause {
            ToldCause::Exchange(number) => self.exchanges.contains_key(&number),
            ToldCause::Untold | ToldCause::NoExchange => true,
        }
    }

    /// Whether that number is open, where what a record of that kind tells answers one.
    fn answers_open(&self, kind: Kind, number: u64) -> bool
        ensures { result ≡ answers_open kind (is_some (get nat_cmp self.now.exchanges number))
            (is_some (get nat_cmp self.now.forwards number)) }
    {
        match kind {
            Kind::ClientRequest | Kind::OriginRequest => true,
            Kind::OriginResponse | Kind::OriginFailure => self.forwards.contains_key(&number),
            Kind::ClientReply => self.exchanges.contains_key(&number),
        }
    }

    /// The first check that a line fails.
    pub(crate) fn fault(&self, line: &Line) -> Option<RecordFault>
        ensures { result ≡ standing_fault self.now line.now }
    {
        if line.moment > GREATEST_MOMENT || !has_right_length(line.kind, line.size) {
            Some(RecordFault::Line)
        } else if line.size > LONGEST_MESSAGE {
            Some(RecordFault::TooLong)
        } else if line.moment < self.moment {
            Some(RecordFault::MomentBack)
        } else if !has_right_number(line.kind, self.exchange, self.forward, line.number) {
            Some(RecordFault::Number)
        } else if !has_right_cause(line.cause, self.standing_cause_is_open(line.cause)) {
            Some(RecordFault::Cause)
        } else if !self.answers_open(line.kind, line.number) {
            Some(RecordFault::NothingOpen)
        } else {
            None
        }
    }

    /// Whether what a record of that kind bears answers HEAD.
    pub(crate) fn is_to_head(&self, kind: Kind, number: u64) -> bool
        ensures { (h : List Item) → StandsAs self.now h → result ≡ is_to_head kind number h }
    {
        match kind {
            Kind::OriginResponse => self.forwards.get(&number).copied().unwrap_or(false),
            Kind::ClientReply => self.exchanges.get(&number).copied().unwrap_or(false),
            _ => false,
        }
    }

    /// Notes the next record. After an `Err` it counts as many records as before.
    pub(crate) fn note(&mut self, view: &RecordView<'_>) -> Result<(), AllocError>
        requires { CanFollow self.old view.now }
        ensures ok { (h : List Item) → StandsAs self.old h → OnOk result (StandsAs self.new (view.now ∷ h)) }
        ensures records { self.new.records ≡ (if is_ok result then self.old.records + 1 else self.old.records) }
    {
        let number = view.number;
        let moment = view.moment;
        match &view.of {
            MeaningView::ClientRequest { request, .. } => {
                self.open_exchange(number, moment, request.head.is_head())
            }
            MeaningView::OriginRequest { request, .. } => {
                self.open_forward(number, moment, request.head.is_head())
            }
            MeaningView::OriginResponse(_) => Ok(self.close_forward(number, moment)),
            MeaningView::OriginFailure => Ok(self.close_forward(number, moment)),
            MeaningView::ClientReply(_) => Ok(self.close_exchange(number, moment)),
        }
    }

    fn open_exchange(&mut self, number: u64, moment: u64, is_head: bool) -> Result<(), AllocError>
        requires { (self.old.exchange < number) × (number ≤ greatest_number) }
        ensures ok { OnOk result (OpensExchange self.old self.new number moment is_head) }
        ensures err { OnErr result (self.new.records ≡ self.old.records) }
    {
        self.exchanges.insert(number, is_head)?;
        self.exchange = number;
        self.moment = moment;
        self.records += 1;
        Ok(())
    }

    fn open_forward(&mut self, number: u64, moment: u64, is_head: bool) -> Result<(), AllocError>
        requires { (self.old.forward < number) × (number ≤ greatest_number) }
        ensures ok { OnOk result (OpensForward self.old self.new number moment is_head) }
        ensures err { OnErr result (self.new.records ≡ self.old.records) }
    {
        self.forwards.insert(number, is_head)?;
        self.forward = number;
        self.moment = moment;
        self.records += 1;
        Ok(())
    }

    fn close_exchange(&mut self, number: u64, moment: u64)
        requires { IsSome (get nat_cmp self.old.exchanges number) }
        ensures { ClosesExchange self.old self.new number moment }
    {
        let _ = self.exchanges.remove(&number);
        self.moment = moment;
        self.records += 1;
    }

    fn close_forward(&mut self, number: u64, moment: u64)
        requires { IsSome (get nat_cmp self.old.forwards number) }
        ensures { ClosesForward self.old self.new number moment }
    {
        let _ = self.forwards.remove(&number);
        self.moment = moment;
        self.records += 1;
    }
}
