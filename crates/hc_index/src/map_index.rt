//! An index that keeps maps by target and by number.

ghost use Rattle.std.specs.Prelude.{◌≡◌, ◌<◌, ℕ, [], OnOk};
ghost use Rattle.hc_fields.specs.Numbers.{end_of_moments};
ghost use Rattle.hc_transcript.specs.Items.{ClientRequest, OriginRequest, OriginResponse, OriginFailure, ClientReply};
ghost use Rattle.hc_transcript.specs.declared.format.Format.{Format};
ghost use Rattle.hc_history.specs.Seen.{IsSeenAs};
ghost use Rattle.hc_history.specs.Noting.{Notes};
ghost use Rattle.hc_index.specs.Maps.{seen_in};

use crate::at_target::AtTarget;
use crate::forwards::OpenForwards;
use crate::index::Index;
use crate::keeping::Keeping;
use crate::kept::{LiveResponse, PooledExchange, RecordedExchange, RecordedForward};
use crate::noting::Noting;
use crate::opened::Opened;
use crate::targets::{answer_at, close_at, fail_at, open_at};
use hc_framing::Message;
use hc_head::{RequestHead, ResponseHead, Target};
use hc_transcript::{Format, ToldCause};
use std::alloc::{AllocError, Global};
use std::collections::BTreeMap;

/// An index that looks at one target alone: the time for a record doesn't grow with the records of other
/// targets, and a hit that the newest response passes is found at once.
pub struct MapIndex {
    alloc: Global,
    targets: BTreeMap<Target, AtTarget>,
    exchanges: BTreeMap<u64, PooledExchange>,
    forwards: OpenForwards,
}

impl Drop for MapIndex {
    fn drop(self) {
        let MapIndex {
            alloc: _,
            targets,
            exchanges,
            forwards,
        } = self;
        drop(targets);
        drop(exchanges);
        drop(forwards);
    }
}

impl MapIndex {
    /// An index that has noted nothing.
    pub fn new(alloc: Global) -> Self
        ensures { (format : Format) → IsSeenAs format (⟦<MapIndex as Index>⟧.seen result) [] }
    {
        MapIndex {
            alloc,
            targets: BTreeMap::new(alloc),
            exchanges: BTreeMap::new(alloc),
            forwards: OpenForwards::new(alloc),
        }
    }
}

impl Noting for MapIndex {
    ghost knows = { λ index. seen_in index };

    fn open_exchange(
        &mut self,
        number: u64,
        position: u64,
        request: RequestHead,
        target: Target,
    ) -> Result<(), AllocError> {
        self.forwards.begin_anew(number);
        let behind = open_at(self.alloc, &mut self.targets, &target, number)?;
        let pooled = PooledExchange {
            exchange: RecordedExchange::new(number, position, request, target),
            behind,
        };
        self.exchanges.insert(number, pooled)?;
        Ok(())
    }

    fn close_exchange(&mut self, number: u64) {
        self.forwards.begin_anew(number);
        if let Some(pooled) = self.exchanges.remove(&number) {
            let target = &pooled.exchange.target;
            close_at(&mut self.targets, target, pooled.behind, number);
        }
    }

    fn open_forward(
        &mut self,
        number: u64,
        moment: u64,
        request: RequestHead,
        target: Target,
        cause: Option<u64>,
    ) -> Result<(), AllocError> {
        let forward = RecordedForward::new(moment, request, target, cause);
        self.forwards.open(number, forward)
    }

    fn fail_forward(&mut self, number: u64, position: u64) -> Result<(), AllocError> {
        let Some(forward) = self.forwards.take(number) else {
            return Ok(());
        };
        fail_at(self.alloc, &mut self.targets, forward.target, position)
    }

    fn answer_forward(
        &mut self,
        number: u64,
        position: u64,
        moment: u64,
        response: Message<ResponseHead>,
        format: Format,
    ) -> Result<(), AllocError> {
        let Some(forward) = self.forwards.take(number) else {
            return Ok(());
        };
        let cause = ToldCause::told_in(format, forward.cause);
        answer_at(
            &mut self.targets,
            forward,
            cause,
            position,
            moment,
            response,
        )
    }
}

impl Keeping for MapIndex {
    fn alloc(&self) -> Global {
        self.alloc
    }

    fn forwards(&self) -> &OpenForwards {
        &self.forwards
    }

    fn lives(&self, target: &Target) -> &[LiveResponse] {
        match self.targets.get(target) {
            Some(here) => here.lives.as_slice(),
            None => &[],
        }
    }

    fn opened(&self, number: u64, surely: bool) -> Option<Opened<'_>> {
        let Some(pooled) = self.exchanges.get(&number) else {
            return None;
        };
        let Some(here) = self.targets.get(&pooled.exchange.target) else {
            return None;
        };
        if !here.pool.may_be_open(pooled.behind, number, surely) {
            return None;
        }
        Some(Opened {
            exchange: &pooled.exchange,
            error: here.error,
            failure: here.failure,
            lives: here.lives.as_slice(),
            answers: &here.pool.answers,
            before: pooled.behind.saturating_sub(here.pool.dropped),
        })
    }
}
