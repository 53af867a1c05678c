//! What every index answers, by what it lends of what it keeps.

ghost use Rattle.std.specs.Prelude.{◌≡◌};
ghost use Rattle.hc_index.specs.Lists.{live_in};
ghost use Rattle.hc_index.specs.Forwards.{AreForwardsOf};
ghost use Rattle.hc_index.specs.Opened.{IsLent};

use crate::candidates::{candidates_among, response_among};
use crate::finding::{claim_of, found_by, is_carried};
use crate::forwards::OpenForwards;
use crate::index::Index;
use crate::kept::{LiveResponse, RecordedForward};
use crate::noting::{Noting, note_record};
use crate::opened::Opened;
use hc_head::Target;
use hc_history::{Candidate, Finding, MarkedReply, ReplyClaim, Settings};
use hc_transcript::{Format, RecordView};
use hc_update::Stored;
use std::alloc::{AllocError, Global};

/// What notes each kind of record, and lends what it keeps.
pub(crate) trait Keeping: Noting {
    /// Where it takes its memory from.
    fn alloc(&self) -> Global;

    /// The open forwards.
    fn forwards(&self) -> &OpenForwards
        ensures { AreForwardsOf (Self.knows self.now) result.now };

    /// Live responses, by rising position: all those of the target are among them.
    fn lives(&self, target: &Target) -> &[LiveResponse]
        ensures { live_in target.now result.now ≡ (Self.knows self.now).live target.now };

    /// The exchange of that number, if it is open. Where it needn't be sure of that, it may lend one that
    /// isn't.
    fn opened(&self, number: u64, surely: bool) -> Option<Opened<'_>>
        ensures { IsLent surely (Self.knows self.now) number result };
}

impl<K: Keeping> Index for K {
    ghost seen = { K.knows };

    fn note(
        &mut self,
        position: u64,
        view: &RecordView<'_>,
        format: Format,
    ) -> Result<(), AllocError> {
        note_record(self.alloc(), self, position, view, format)
    }

    fn find(
        &self,
        exchange: u64,
        reply: &MarkedReply<'_>,
        moment: u64,
        settings: &Settings,
        format: Format,
    ) -> Result<Finding, AllocError> {
        let Some(opened) = self.opened(exchange, false) else {
            return Ok(Finding::Right);
        };
        let has_forward = self.forwards().is_made_for(exchange);
        let claim = claim_of(&opened, has_forward, moment, reply, settings, format);
        let mark = reply.mark_by(format, &settings.allowed, has_forward);
        let carried = is_carried(mark, &claim, &opened);
        found_by(self.alloc(), mark, &claim, opened.lives, carried)
    }

    fn candidates(
        &self,
        exchange: u64,
        reply: &MarkedReply<'_>,
        moment: u64,
        settings: &Settings,
        format: Format,
    ) -> Result<Vec<Candidate>, AllocError> {
        let Some(claim) = self.claim(exchange, reply, moment, settings, format) else {
            return Ok(Vec::new(self.alloc()));
        };
        candidates_among(self.alloc(), &claim, self.lives(claim.target))
    }

    fn has_forward(&self, exchange: u64) -> bool {
        self.forwards().is_made_for(exchange)
    }

    fn claim<'a>(
        &'a self,
        exchange: u64,
        reply: &MarkedReply<'a>,
        moment: u64,
        settings: &'a Settings,
        format: Format,
    ) -> Option<ReplyClaim<'a>> {
        let Some(opened) = self.opened(exchange, true) else {
            return None;
        };
        let has_forward = self.forwards().is_made_for(exchange);
        Some(claim_of(&opened, has_forward, moment, reply, settings, format))
    }

    fn response(&self, target: &Target, position: u64) -> Option<&Stored> {
        response_among(self.lives(target), target, position)
    }

    fn forward(&self, number: u64) -> Option<&RecordedForward> {
        self.forwards().get(number)
    }
}
