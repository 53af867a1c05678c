//! How a forward ends: with a response, or by a failure.

ghost use Rattle.std.specs.Prelude.{◌≡◌};
ghost use Rattle.hc_head.specs.Methods.{is_head};

use crate::answering::take_exchange;
use crate::desk::Desk;
use hc_framing::Message;
use hc_head::{ResponseHead, is_head};
use hc_reactions::{AnsweredForward, record_failure, record_response, renew, store_behind};
use hc_service::{Action, OpenForward, Purpose};
use std::alloc::AllocError;
use std::hash::BuildHasher;

impl<S: BuildHasher> Desk<S> {
    ghost use Rattle.std.specs.Prelude.{Bool, IfOk, Some, ◌<◌};
    ghost use Rattle.std.specs.FinMap.{get};
    ghost use Rattle.hc_fields.specs.Numbers.{end_of_moments};
    ghost use Rattle.hc_service.specs.declared.settings.CoreSettings.{CoreSettings};
    ghost use Rattle.hc_service.specs.State.{Awaited, State};
    ghost use Rattle.hc_service.specs.Serves.Turn.{Answering, Failing};
    ghost use Rattle.hc_service.specs.Turns.{Failure, HasFailure, IsAnswer, is_closed};
    ghost use Rattle.hc_core.specs.Standing.{GivesEnding, DeskStandsFor, without_forward, from_state, at_desk};

    /// A whole response has come on a forward, which was taken out. Returns the connection that may be
    /// read on.
    pub(crate) fn answer(
        &mut self,
        f: u64,
        forward: OpenForward,
        response: Message<ResponseHead>,
        actions: &mut Vec<Action>,
    ) -> Result<Option<u64>, AllocError>
        requires { self.old.numbers.moment < end_of_moments }
        ensures { (settings : CoreSettings) (s : State) (awaited : Awaited) (ended : Bool)
            → DeskStandsFor settings self.old (without_forward f s)
            → get s.forwards f ≡ Some awaited → awaited.forward ≡ forward
            → IsAnswer ended (is_head forward.request.method) awaited.received response
            → IfOk result (λ client. GivesEnding (from_state settings s actions.old.items) (Answering f ended) f client
            (at_desk actions.new.items self.new)) }
    {
        let to_head = is_head(&forward.request.method);
        record_response(
            self.alloc,
            &mut self.numbers,
            f,
            to_head,
            &response,
            actions,
        )?;
        let moment = self.numbers.moment;
        let position = self.numbers.records;
        renew(&mut self.store, &forward, moment, position, &response.head);
        match forward.purpose {
            Purpose::Background => {
                store_behind(self.alloc, &mut self.store, forward, moment, &response)?;
                Ok(None)
            }
            Purpose::Reply {
                exchange,
                cause,
                kind,
            } => {
                let Some(held) = take_exchange(&mut self.exchanges, &mut self.clients, exchange)
                else {
                    return Ok(None);
                };
                let client = held.exchange.connection;
                let answered = AnsweredForward {
                    sent: forward,
                    cause,
                    kind,
                };
                self.respond(held, answered, response, actions)?;
                Ok(Some(client))
            }
        }
    }

    /// A forward fails, which was taken out; `closes` tells whether it is still to be closed. Returns the
    /// connection that may be read on.
    pub(crate) fn break_off(
        &mut self,
        f: u64,
        forward: OpenForward,
        closes: bool,
        actions: &mut Vec<Action>,
    ) -> Result<Option<u64>, AllocError>
        requires { self.old.numbers.moment < end_of_moments }
        ensures { (settings : CoreSettings) (s : State) (awaited : Awaited) (how : Failure)
            → DeskStandsFor settings self.old (without_forward f s)
            → get s.forwards f ≡ Some awaited → awaited.forward ≡ forward → is_closed how ≡ closes
            → HasFailure how (is_head forward.request.method) awaited.received
            → IfOk result (λ client. GivesEnding (from_state settings s actions.old.items) (Failing f how) f client
            (at_desk actions.new.items self.new)) }
    {
        record_failure(&mut self.numbers, f, closes, actions)?;
        match forward.purpose {
            Purpose::Background => Ok(None),
            Purpose::Reply {
                exchange,
                cause,
                ..
            } => {
                let Some(held) = take_exchange(&mut self.exchanges, &mut self.clients, exchange)
                else {
                    return Ok(None);
                };
                let client = held.exchange.connection;
                self.fail(held, &forward, cause, actions)?;
                Ok(Some(client))
            }
        }
    }
}
