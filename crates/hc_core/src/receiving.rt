//! What comes from the origin on an open forward.

ghost use Rattle.std.specs.Prelude.{◌≡◌, ◌⊎◌};

use crate::desk::Desk;
use hc_incoming::{Ended, ResponseHeard};
use hc_open::Link;
use hc_service::Action;
use std::alloc::AllocError;
use std::hash::BuildHasher;

/// What has become of a forward on which octets came.
pub(crate) enum ForwardStage {
    /// It is open still.
    IsOpen,
    /// It has ended, and that connection may be read on, if there is one.
    HasEnded {
        /// The number of the connection.
        client: Option<u64>,
    },
}

impl<S: BuildHasher> Desk<S> {
    ghost use Rattle.std.specs.Prelude.{true, IfOk, Some};
    ghost use Rattle.std.specs.FinMap.{get};
    ghost use Rattle.hc_service.specs.declared.settings.CoreSettings.{CoreSettings};
    ghost use Rattle.hc_service.specs.State.{Awaited, State};
    ghost use Rattle.hc_service.specs.Serves.Turn.{Answering, Failing};
    ghost use Rattle.hc_service.specs.Turns.Failure.{IsCutOff, IsLost};
    ghost use Rattle.hc_core.specs.Standing.{CanServe, GivesEnding, GivesReceiving, DeskStandsFor, from_state, at_desk};

    /// Octets come from the origin on an open forward.
    pub(crate) fn receive_origin(
        &mut self,
        f: u64,
        octets: &[u8],
        actions: &mut Vec<Action>,
    ) -> Result<ForwardStage, AllocError>
        requires { CanServe self.old }
        ensures { (settings : CoreSettings) (s : State) (awaited : Awaited) → DeskStandsFor settings self.old s
            → get s.forwards f ≡ Some awaited
            → IfOk result (λ progress. GivesReceiving (from_state settings s actions.old.items) f octets.now progress
            (at_desk actions.new.items self.new)) }
    {
        let Some(link) = self.links.by_number.remove(&f) else {
            return Ok(ForwardStage::IsOpen);
        };
        let Link {
            forward,
            mut reader,
        } = link;
        let heard = reader.hear(octets)?;
        match heard {
            ResponseHeard::More => {
                self.links.by_number.insert(f, Link { forward, reader })?;
                Ok(ForwardStage::IsOpen)
            }
            ResponseHeard::Response(response) => {
                self.links.forget(f, &forward);
                let client = self.answer(f, forward, response, actions)?;
                Ok(ForwardStage::HasEnded { client })
            }
            ResponseHeard::Failed(trouble) => {
                self.incidents
                    .note_failure(self.alloc, f, &forward.target, trouble)?;
                self.links.forget(f, &forward);
                let client = self.break_off(f, forward, true, actions)?;
                Ok(ForwardStage::HasEnded { client })
            }
        }
    }

    /// The origin sends no more on an open forward. Returns the connection that may be read on.
    pub(crate) fn end_origin(
        &mut self,
        f: u64,
        actions: &mut Vec<Action>,
    ) -> Result<Option<u64>, AllocError>
        requires { CanServe self.old }
        ensures { (settings : CoreSettings) (s : State) (awaited : Awaited) → DeskStandsFor settings self.old s
            → get s.forwards f ≡ Some awaited
            → IfOk result (λ client. GivesEnding (from_state settings s actions.old.items) (Answering f true) f client
            (at_desk actions.new.items self.new)
            ⊎ GivesEnding (from_state settings s actions.old.items) (Failing f IsCutOff) f client
            (at_desk actions.new.items self.new)) }
    {
        let Some(link) = self.links.take(f) else {
            return Ok(None);
        };
        let Link {
            forward,
            mut reader,
        } = link;
        let ended = reader.end()?;
        match ended {
            Ended::Response(response) => self.answer(f, forward, response, actions),
            Ended::Failed(trouble) => {
                self.incidents
                    .note_failure(self.alloc, f, &forward.target, trouble)?;
                self.break_off(f, forward, true, actions)
            }
        }
    }

    /// An open forward is lost. Returns the connection that may be read on.
    pub(crate) fn lose(
        &mut self,
        f: u64,
        actions: &mut Vec<Action>,
    ) -> Result<Option<u64>, AllocError>
        requires { CanServe self.old }
        ensures { (settings : CoreSettings) (s : State) (awaited : Awaited) → DeskStandsFor settings self.old s
            → get s.forwards f ≡ Some awaited
            → IfOk result (λ client. GivesEnding (from_state settings s actions.old.items) (Failing f IsLost) f client
            (at_desk actions.new.items self.new)) }
    {
        match self.links.take(f) {
            None => Ok(None),
            Some(link) => self.break_off(f, link.forward, false, actions),
        }
    }
}
