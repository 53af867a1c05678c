//! What every index promises.

ghost use Rattle.std.specs.Prelude.{◌≡◌, List, ◌∷◌, option_copied, OnOk, IfOk};
ghost use Rattle.std.specs.Option.{option_map};
ghost use Rattle.hc_transcript.specs.Items.{Item};
ghost use Rattle.hc_transcript.specs.History.{next_position, exchange_of, forward_of, cause_of};
ghost use Rattle.hc_history.specs.Claims.{claim_of};
ghost use Rattle.hc_history.specs.Seen.{Seen, IsSeenAs, has_forward_in, live_of};
ghost use Rattle.hc_history.specs.Right.{IsFinding};
ghost use Rattle.hc_history.specs.Candidates.{AreCandidatesOf};
ghost use Rattle.hc_index.specs.Lists.{cause_seen, forward_seen, state_in};

use crate::kept::RecordedForward;
use hc_head::Target;
use hc_history::{Candidate, Finding, MarkedReply, ReplyClaim, Settings};
use hc_transcript::{Format, RecordView};
use hc_update::Stored;
use std::alloc::AllocError;

/// The records so far, as far as the next reply needs them.
pub trait Index {
    /// What it knows, however that is kept.
    ghost seen: { Self → Seen };

    /// Takes in the next record of a transcript of that format, which stands at that position: an index
    /// that is seen as the history before it is then seen as the history with it. After an error nothing
    /// is said of what the index knows, and it is to be asked no more.
    fn note(
        &mut self,
        position: u64,
        view: &RecordView<'_>,
        format: Format,
    ) -> Result<(), AllocError>
        ensures { (h : List Item) → position ≡ next_position h → IsSeenAs format (seen self.old) h
            → OnOk result (IsSeenAs format (seen self.new) (view.now ∷ h)) };

    /// What is found of a reply to the open exchange of that number, which comes next in a transcript of
    /// that format, at that moment: that it is right, or the least reason why it is wrong. Where no
    /// exchange of that number is open, the result says nothing. It fails only where memory is refused.
    fn find(
        &self,
        exchange: u64,
        reply: &MarkedReply<'_>,
        moment: u64,
        settings: &Settings,
        format: Format,
    ) -> Result<Finding, AllocError>
        ensures { (h : List Item) → IsSeenAs format (seen self.now) h
            → IfOk result (IsFinding format settings.now (exchange_of exchange h) moment reply.now h) };

    /// How far the responses get that a reply to the open exchange of that number may carry, which comes next
    /// in a transcript of that format, at that moment: all earlier responses of its target that may be stored,
    /// invalidated ones too, each with its position and the number of filters that it passes one after another;
    /// the furthest first, and of equals the newest first. Where no exchange of that number is open, there are
    /// none. It fails only where memory is refused.
    fn candidates(
        &self,
        exchange: u64,
        reply: &MarkedReply<'_>,
        moment: u64,
        settings: &Settings,
        format: Format,
    ) -> Result<Vec<Candidate>, AllocError>
        ensures { (h : List Item) → IsSeenAs format (seen self.now) h
            → IfOk result (λ candidates. AreCandidatesOf format settings.now (exchange_of exchange h) moment reply.now h candidates.items) };

    /// Whether a forward was made for the open exchange of that number, as the second format tells it.
    fn has_forward(&self, exchange: u64) -> bool
        ensures { (format : Format) (h : List Item) → IsSeenAs format (seen self.now) h → result ≡ has_forward_in exchange h };

    /// What a reply to the open exchange of that number claims, which comes next in a transcript of that
    /// format, at that moment. None where no exchange of that number is open.
    fn claim<'a>(
        &'a self,
        exchange: u64,
        reply: &MarkedReply<'a>,
        moment: u64,
        settings: &'a Settings,
        format: Format,
    ) -> Option<ReplyClaim<'a>>
        ensures { (h : List Item) → IsSeenAs format (seen self.now) h
            → result ≡ option_map (λ opened. claim_of format settings.now opened moment reply.now h) (exchange_of exchange h) };

    /// What is left of the response of that target at that position, which may be stored: its state, as the
    /// records behind it have left it, or what remains of an invalidated one that nothing freshens any more.
    /// None where no such response stands there.
    fn response(&self, target: &Target, position: u64) -> Option<&Stored>
        ensures { (format : Format) (h : List Item) → IsSeenAs format (seen self.now) h
            → option_copied result ≡ state_in position (live_of target.now h) };

    /// The open forward of that number. None where none is open.
    fn forward(&self, number: u64) -> Option<&RecordedForward>
        ensures asked { (format : Format) (h : List Item) → IsSeenAs format (seen self.now) h
            → option_map forward_seen (option_copied result) ≡ forward_of number h }
        ensures cause { (format : Format) (h : List Item) → IsSeenAs format (seen self.now) h
            → cause_seen (option_copied result) ≡ cause_of number h };
}
