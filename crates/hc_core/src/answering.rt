//! An exchange that awaits its reply, once the forward has ended that was sent for it.

ghost use Rattle.std.specs.Prelude.{◌≡◌, OnOk};
ghost use Rattle.std.specs.FinMap.{insert};
ghost use Rattle.hc_service.specs.declared.open.OpenExchange.{OpenExchange};
ghost use Rattle.hc_service.specs.State.{Connection, Table};
ghost use Rattle.hc_core.specs.Ending.{TakesExchange, addressee_of};
ghost use Rattle.hc_open.specs.Links.{AreClients, AreExchanges, IsClient};

use crate::desk::Desk;
use crate::moving::{reply_on, send_forward};
use crate::reading::closes_behind;
use hc_framing::Message;
use hc_head::{RequestHead, ResponseHead, is_head};
use hc_open::{Client, OpenExchanges};
use hc_reactions::{Addressee, AnsweredForward, Outcome, fail, forward_anew, respond};
use hc_service::{Action, Cause, ForwardKind, OpenExchange, OpenForward, Purpose, WantedReply};
use std::alloc::{AllocError, Global};
use std::collections::BTreeMap;
use std::hash::BuildHasher;

/// An exchange that awaits its reply, taken out with its connection.
#[derive(Drop)]
pub(crate) struct HeldExchange {
    /// The number of its exchange.
    pub(crate) number: u64,
    /// What is open for it.
    pub(crate) exchange: OpenExchange,
    /// The connection on which it came.
    pub(crate) client: Client,
}

/// Takes out the exchange of that number, with its connection.
pub(crate) fn take_exchange(
    exchanges: &mut OpenExchanges,
    clients: &mut BTreeMap<u64, Client>,
    number: u64,
) -> Option<HeldExchange>
    ensures { (table : Table OpenExchange) (connections : Table Connection) → AreExchanges exchanges.old table
        → AreClients clients.old connections → TakesExchange number result table connections exchanges.new clients.new }
{
    let exchange = exchanges.take(number)?;
    let client = clients.remove(&exchange.connection)?;
    Some(HeldExchange {
        number,
        exchange,
        client,
    })
}

/// Puts back what was taken out.
fn put_exchange(
    alloc: Global,
    exchanges: &mut OpenExchanges,
    clients: &mut BTreeMap<u64, Client>,
    held: HeldExchange,
) -> Result<(), AllocError>
    ensures exchanges { (table : Table OpenExchange) → AreExchanges exchanges.old table
        → OnOk result (AreExchanges exchanges.new (insert table held.number held.exchange)) }
    ensures clients { (connections : Table Connection) (k : Connection) → AreClients clients.old connections
        → IsClient held.client k → OnOk result (AreClients clients.new (insert connections held.exchange.connection k)) }
{
    let connection = held.exchange.connection;
    exchanges.put(alloc, held.number, held.exchange)?;
    clients.insert(connection, held.client)?;
    Ok(())
}

/// To whom the reply of an exchange goes.
pub(crate) fn addressee(held: &HeldExchange, closes: bool) -> Addressee
    ensures { result ≡ addressee_of held.now closes }
{
    Addressee {
        exchange: held.number,
        to_head: is_head(&held.exchange.request.method),
        connection: held.exchange.connection,
        closes,
    }
}

impl<S: BuildHasher> Desk<S> {
    ghost use Rattle.std.specs.Prelude.{OnOk, ◌<◌};
    ghost use Rattle.hc_fields.specs.Numbers.{end_of_moments};
    ghost use Rattle.hc_service.specs.declared.open.Purpose.TheVariants as purpose;
    ghost use Rattle.hc_service.specs.State.{is_conditional};
    ghost use Rattle.hc_service.specs.Answers.{Fails, Responds, rule_of};
    ghost use Rattle.hc_service.specs.Answers.Outcome.{Replies};
    ghost use Rattle.hc_core.specs.Ending.{GivesOutcome, GivesReply, SendsAnew, SendsFor, wanted_of};
    ghost use Rattle.hc_core.specs.Reading.{SendsReply};
    ghost use Rattle.hc_core.specs.Standing.{at_desk};

    /// A response has come for an exchange that was taken out; the last record is that of the response.
    pub(crate) fn respond(
        &mut self,
        held: HeldExchange,
        forward: AnsweredForward,
        response: Message<ResponseHead>,
        actions: &mut Vec<Action>,
    ) -> Result<(), AllocError>
        requires { self.old.numbers.moment < end_of_moments }
        ensures { OnOk result (GivesOutcome held forward.cause
            (λ outcome old new. Responds
            (rule_of forward.cause (is_conditional forward.kind) forward.sent.request response.head)
            (record {
              wanted = wanted_of self.old held;
              forward = forward.sent;
              cause = forward.cause;
              response = response;
            })
            self.old.numbers.records old outcome new)
            (at_desk actions.old.items self.old) (at_desk actions.new.items self.new)) }
    {
        let closes = closes_behind(
            &held.exchange.request,
            held.client.leaves,
            self.numbers.closing,
        );
        let wanted = WantedReply {
            name: &self.name,
            moment: self.numbers.moment,
            asked: &held.exchange.request,
            closes,
        };
        let cause = forward.cause;
        let outcome = respond(
            &mut self.store,
            &wanted,
            forward,
            self.numbers.records,
            response,
        )?;
        match outcome {
            Outcome::Replies(reply) => self.reply_to(held, closes, &reply, actions),
            Outcome::GoesAnew => self.go_anew(held, cause, actions),
        }
    }

    /// The request of an exchange that was taken out goes to the origin anew, for the same cause, and the exchange
    /// stays open.
    fn go_anew(
        &mut self,
        held: HeldExchange,
        cause: Cause,
        actions: &mut Vec<Action>,
    ) -> Result<(), AllocError>
        ensures { OnOk result (SendsAnew held cause (at_desk actions.old.items self.old) (at_desk actions.new.items self.new)) }
    {
        let name = self.name.as_slice();
        let request = forward_anew(
            self.alloc,
            name,
            &held.exchange.target,
            &held.exchange.request,
        )?;
        self.send_for(held, request, cause, ForwardKind::Plain, actions)
    }

    /// A request goes to the origin for an exchange that was taken out, and the exchange stays open.
    pub(crate) fn send_for(
        &mut self,
        held: HeldExchange,
        request: Message<RequestHead>,
        cause: Cause,
        kind: ForwardKind,
        actions: &mut Vec<Action>,
    ) -> Result<(), AllocError>
        ensures { OnOk result (SendsFor held request (purpose.Reply held.number cause kind) (at_desk actions.old.items self.old) (at_desk actions.new.items self.new)) }
    {
        let target = held.exchange.target.copy(self.alloc)?;
        let purpose = Purpose::Reply {
            exchange: held.number,
            cause,
            kind,
        };
        send_forward(
            &mut self.numbers,
            &mut self.links,
            request,
            target,
            purpose,
            actions,
        )?;
        put_exchange(self.alloc, &mut self.exchanges, &mut self.clients, held)
    }

    /// A forward failed that was for an exchange that was taken out.
    pub(crate) fn fail(
        &mut self,
        held: HeldExchange,
        forward: &OpenForward,
        cause: Cause,
        actions: &mut Vec<Action>,
    ) -> Result<(), AllocError>
        requires { self.old.numbers.moment < end_of_moments }
        ensures { OnOk result (GivesReply held
            (λ reply old new. Fails (wanted_of self.old held) forward.now.target cause old (Replies reply) new)
            (at_desk actions.old.items self.old) (at_desk actions.new.items self.new)) }
    {
        let closes = closes_behind(
            &held.exchange.request,
            held.client.leaves,
            self.numbers.closing,
        );
        let wanted = WantedReply {
            name: &self.name,
            moment: self.numbers.moment,
            asked: &held.exchange.request,
            closes,
        };
        let reply = fail(self.alloc, &mut self.store, &wanted, forward, cause)?;
        self.reply_to(held, closes, &reply, actions)
    }

    /// Sends the reply of an exchange, whose connection goes on unless it closes.
    pub(crate) fn reply_to(
        &mut self,
        held: HeldExchange,
        closes: bool,
        reply: &Message<ResponseHead>,
        actions: &mut Vec<Action>,
    ) -> Result<(), AllocError>
        ensures { OnOk result (SendsReply held closes reply.now (at_desk actions.old.items self.old) (at_desk actions.new.items self.new)) }
    {
        let to = addressee(&held, closes);
        reply_on(
            &mut self.numbers,
            &mut self.clients,
            to,
            held.client,
            reply,
            actions,
        )
    }
}
