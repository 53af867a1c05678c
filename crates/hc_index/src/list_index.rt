//! An index that keeps plain lists.

ghost use Rattle.std.specs.Prelude.{◌≡◌, ◌<◌, ◌&&◌, ℕ, [], OnOk, Some, if◌then◌else◌};
ghost use Rattle.std.specs.BTreeMap.{get};
ghost use Rattle.hc_fields.specs.Numbers.{end_of_moments};
ghost use Rattle.hc_head.specs.declared.head.Target.{Target};
ghost use Rattle.hc_head.specs.Targets.{same_target};
ghost use Rattle.hc_transcript.specs.Items.{Item, ClientRequest, OriginRequest, OriginResponse, OriginFailure, ClientReply};
ghost use Rattle.hc_head.specs.Statuses.{is_error_status};
ghost use Rattle.hc_transcript.specs.declared.format.Format.{Format};
ghost use Rattle.hc_history.specs.Seen.{IsSeenAs};
ghost use Rattle.hc_history.specs.Noting.{Notes};
ghost use Rattle.hc_index.specs.Lists.{by_target, position_in, seen_in};

use crate::exchanges::{add_to_windows, close_exchange, find_exchange, open_exchange};
use crate::forwards::OpenForwards;
use crate::index::Index;
use crate::keeping::Keeping;
use crate::kept::{LiveResponse, RecordedExchange, RecordedForward, WatchedExchange};
use crate::lives::{answer_lives, begin_live};
use crate::noting::Noting;
use crate::opened::Opened;
use hc_framing::Message;
use hc_head::{RequestHead, ResponseHead, Target, is_error_status};
use hc_transcript::{Format, ToldCause};
use std::alloc::{AllocError, Global};
use std::collections::{BTreeMap, VecDeque};

/// An index that keeps lists and walks them: the time for a reply grows with the number of live responses,
/// and that for a response with the number of live responses and open exchanges.
pub struct ListIndex {
    alloc: Global,
    /// The live responses, by rising position.
    lives: Vec<LiveResponse>,
    exchanges: Vec<WatchedExchange>,
    forwards: OpenForwards,
    /// The position of the latest error of a forward of each target.
    errors: BTreeMap<Target, u64>,
    /// The position of the latest failure of a forward of each target.
    failures: BTreeMap<Target, u64>,
}

impl Drop for ListIndex {
    fn drop(self) {
        let ListIndex {
            alloc: _,
            lives,
            exchanges,
            forwards,
            errors,
            failures,
        } = self;
        drop(lives);
        drop(exchanges);
        drop(forwards);
        drop(errors);
        drop(failures);
    }
}

/// The position that is kept of a target.
fn position_of(positions: &BTreeMap<Target, u64>, target: &Target) -> u64
    ensures { result ≡ position_in target.now positions.now }
{
    positions.get(target).copied().unwrap_or(0)
}

/// Keeps the position for that target.
fn keep_position(
    positions: &mut BTreeMap<Target, u64>,
    target: Target,
    position: u64,
) -> Result<(), AllocError>
    ensures { OnOk result ((other : Target) → get by_target positions.new other
        ≡ (if same_target target other then Some position else get by_target positions.old other)) }
{
    positions.insert(target, position)?;
    Ok(())
}

/// Keeps the position for the target of the forward, if the response is an error.
fn keep_error(
    alloc: Global,
    positions: &mut BTreeMap<Target, u64>,
    forward: &RecordedForward,
    response: &Message<ResponseHead>,
    position: u64,
) -> Result<(), AllocError>
    ensures { OnOk result ((target : Target) → position_in target positions.new
        ≡ (if is_error_status response.now.head.status && same_target forward.now.target target then position else position_in target positions.old)) }
{
    if !is_error_status(response.head.status) {
        return Ok(());
    }
    keep_position(positions, forward.target.copy(alloc)?, position)
}

impl ListIndex {
    /// An index that has noted nothing.
    pub fn new(alloc: Global) -> Self
        ensures { (format : Format) → IsSeenAs format (⟦<ListIndex as Index>⟧.seen result) [] }
    {
        ListIndex {
            alloc,
            lives: Vec::new(alloc),
            exchanges: Vec::new(alloc),
            forwards: OpenForwards::new(alloc),
            errors: BTreeMap::new(alloc),
            failures: BTreeMap::new(alloc),
        }
    }
}

impl Noting for ListIndex {
    ghost knows = { λ index. seen_in index };

    fn open_exchange(
        &mut self,
        number: u64,
        position: u64,
        request: RequestHead,
        target: Target,
    ) -> Result<(), AllocError> {
        let watched = WatchedExchange {
            exchange: RecordedExchange::new(number, position, request, target),
            window: VecDeque::new(self.alloc),
        };
        self.forwards.begin_anew(number);
        open_exchange(&mut self.exchanges, watched)
    }

    fn close_exchange(&mut self, number: u64) {
        self.forwards.begin_anew(number);
        close_exchange(&mut self.exchanges, number);
    }

    fn open_forward(
        &mut self,
        number: u64,
        moment: u64,
        request: RequestHead,
        target: Target,
        cause: Option<u64>,
    ) -> Result<(), AllocError> {
        let forward = RecordedForward::new(moment, request, target, cause);
        self.forwards.open(number, forward)
    }

    fn fail_forward(&mut self, number: u64, position: u64) -> Result<(), AllocError> {
        let Some(forward) = self.forwards.take(number) else {
            return Ok(());
        };
        keep_position(&mut self.failures, forward.target, position)
    }

    fn answer_forward(
        &mut self,
        number: u64,
        position: u64,
        moment: u64,
        response: Message<ResponseHead>,
        format: Format,
    ) -> Result<(), AllocError> {
        let alloc = self.alloc;
        let Some(forward) = self.forwards.take(number) else {
            return Ok(());
        };
        keep_error(alloc, &mut self.errors, &forward, &response, position)?;
        let cause = ToldCause::told_in(format, forward.cause);
        add_to_windows(&forward, cause, &response, &mut self.exchanges)?;
        let lives = &mut self.lives;
        answer_lives(alloc, &forward, position, moment, &response, lives)?;
        begin_live(alloc, forward, position, moment, response, lives)
    }
}

impl Keeping for ListIndex {
    fn alloc(&self) -> Global {
        self.alloc
    }

    fn forwards(&self) -> &OpenForwards {
        &self.forwards
    }

    fn lives(&self, _target: &Target) -> &[LiveResponse] {
        self.lives.as_slice()
    }

    fn opened(&self, number: u64, _surely: bool) -> Option<Opened<'_>> {
        let Some(watched) = find_exchange(self.exchanges.as_slice(), number) else {
            return None;
        };
        let exchange = &watched.exchange;
        Some(Opened {
            exchange,
            error: position_of(&self.errors, &exchange.target),
            failure: position_of(&self.failures, &exchange.target),
            lives: self.lives.as_slice(),
            answers: &watched.window,
            before: 0,
        })
    }
}
