//! Reading what came on a client's connection as far as can be.

ghost use Rattle.std.specs.Prelude.{◌≡◌, ◌||◌};
ghost use Rattle.hc_service.specs.Asking.{ends_connection};

use crate::answering::{HeldExchange, addressee};
use crate::desk::Desk;
use crate::incidents::refuse_client;
use crate::moving::{await_reply, reply_on, send_forward};
use hc_framing::Message;
use hc_head::{RequestHead, ResponseHead, Target};
use hc_incoming::{RequestArrival, Trouble};
use hc_open::Client;
use hc_reactions::{Reaction, Underway, react, record_request};
use hc_service::{Action, OpenExchange, Purpose, WantedReply, ends_connection};
use std::alloc::AllocError;
use std::hash::BuildHasher;

/// Whether a connection closes behind the reply, of which nothing more may be read, of a cache whose replies all
/// close theirs, or don't.
pub(crate) fn closes_behind(asked: &RequestHead, leaves: bool, closing: bool) -> bool
    ensures { result ≡ (ends_connection asked.now || (leaves || closing)) }
{
    ends_connection(asked) || leaves || closing
}

impl<S: BuildHasher> Desk<S> {
    ghost use Rattle.std.specs.Prelude.{ℕ, List, OnOk, IfOk, Some, None, ◌<◌, ◌≤◌, true, false, length};
    ghost use Rattle.std.specs.BTreeMap.{get as kept_at};
    ghost use Rattle.std.specs.Ordering.{nat_cmp};
    ghost use Rattle.std.specs.FinMap.{get};
    ghost use Rattle.hc_fields.specs.Numbers.{end_of_moments};
    ghost use Rattle.hc_service.specs.declared.action.Action.{Action};
    ghost use Rattle.hc_service.specs.declared.settings.CoreSettings.{CoreSettings};
    ghost use Rattle.hc_service.specs.State.{Connection, State};
    ghost use Rattle.hc_service.specs.Serves.Turn.{Asking};
    ghost use Rattle.hc_incoming.specs.RequestReading.{CanRead, unread};
    ghost use Rattle.hc_open.specs.Links.{IsClient};
    ghost use Rattle.hc_core.specs.Reading.{JoinsForward, SendsForward, SendsReplies, SendsReply, IsAsked, SendsBehind, unread_at};
    ghost use Rattle.hc_core.specs.Standing.{CanServe, GivesReading, GivesTurn, DeskStandsFor, without_connection, from_state, at_desk};

    /// Reads a connection until nothing more can be read.
    pub(crate) fn read_on(&mut self, c: u64, actions: &mut Vec<Action>) -> Result<(), AllocError>
        requires { CanServe self.old }
        ensures { (settings : CoreSettings) (s : State) → DeskStandsFor settings self.old s
            → OnOk result (GivesReading (from_state settings s actions.old.items) c false (at_desk actions.new.items self.new)) }
    {
        loop {
            if !self.read_one(c, actions)? {
                return Ok(());
            }
        }
    }

    /// Reads a request, if one is there, and tells whether more may be read.
    fn read_one(&mut self, c: u64, actions: &mut Vec<Action>) -> Result<bool, AllocError>
        requires { CanServe self.old }
        ensures reading { (settings : CoreSettings) (s : State) → DeskStandsFor settings self.old s
            → IfOk result (λ more. GivesReading (from_state settings s actions.old.items) c more (at_desk actions.new.items self.new)) }
        ensures fewer { IfOk result (λ more. more ≡ true → unread_at c self.new.clients < unread_at c self.old.clients) }
    {
        let Some(client) = self.clients.remove(&c) else {
            return Ok(false);
        };
        match client.exchange {
            Some(_) => {
                self.trim(c, client)?;
                Ok(false)
            }
            None => self.read_idle(c, client, actions),
        }
    }

    /// An exchange awaits its reply on a connection, which was taken out: of the octets behind it no
    /// more stay unread than may.
    fn trim(&mut self, c: u64, mut client: Client) -> Result<(), AllocError>
        ensures { (settings : CoreSettings) (s : State) (k : Connection) (exchange : ℕ) (items : List Action)
            → DeskStandsFor settings self.old (without_connection c s)
            → get s.connections c ≡ Some k → IsClient client k → k.exchange ≡ Some exchange
            → OnOk result (GivesReading (from_state settings s items) c false (at_desk items self.new)) }
    {
        client.trim();
        self.clients.insert(c, client)?;
        Ok(())
    }

    /// Reads a request of a connection, which was taken out, and on which no exchange awaits its reply.
    fn read_idle(
        &mut self,
        c: u64,
        mut client: Client,
        actions: &mut Vec<Action>,
    ) -> Result<bool, AllocError>
        requires in_time { self.old.numbers.moment < end_of_moments }
        requires can { CanRead client.reader }
        ensures reading { (settings : CoreSettings) (s : State) (k : Connection)
            → DeskStandsFor settings self.old (without_connection c s)
            → get s.connections c ≡ Some k → IsClient client k → k.exchange ≡ None
            → IfOk result (λ more. GivesReading (from_state settings s actions.old.items) c more (at_desk actions.new.items self.new)) }
        ensures fewer { kept_at nat_cmp self.old.clients c ≡ None
            → IfOk result (λ more. more ≡ true → unread_at c self.new.clients < length (unread client.reader)) }
    {
        match client.reader.next()? {
            RequestArrival::More => {
                self.clients.insert(c, client)?;
                Ok(false)
            }
            RequestArrival::Refused(trouble) => {
                refuse_client(
                    self.alloc,
                    &mut self.incidents,
                    self.numbers.moment,
                    c,
                    trouble,
                    actions,
                )?;
                Ok(false)
            }
            RequestArrival::Request(request, target) => {
                self.ask(c, client, request, target, actions)?;
                Ok(true)
            }
        }
    }

    /// A whole request was read of a connection, which was taken out.
    fn ask(
        &mut self,
        c: u64,
        client: Client,
        request: Message<RequestHead>,
        target: Target,
        actions: &mut Vec<Action>,
    ) -> Result<(), AllocError>
        requires { self.old.numbers.moment < end_of_moments }
        ensures turn { (settings : CoreSettings) (s : State) (k : Connection) (size : ℕ)
            → DeskStandsFor settings self.old (without_connection c s)
            → get s.connections c ≡ Some k → IsAsked client k request target size
            → OnOk result (GivesTurn (from_state settings s actions.old.items) (Asking c) (at_desk actions.new.items self.new)) }
        ensures unread { kept_at nat_cmp self.old.clients c ≡ None
            → OnOk result (unread_at c self.new.clients ≤ length (unread client.reader)) }
    {
        let closes = closes_behind(&request.head, client.leaves, self.numbers.closing);
        let number = record_request(self.alloc, &mut self.numbers, &request, actions)?;
        let wanted = WantedReply {
            name: &self.name,
            moment: self.numbers.moment,
            asked: &request.head,
            closes,
        };
        let underway = Underway {
            behind: self.links.open_behind(&target),
            least_joinable: self.links.least_joinable(&self.exchanges, &target),
        };
        let reaction = react(
            self.alloc,
            &mut self.store,
            &wanted,
            &target,
            &request,
            underway,
        )?;
        let held = HeldExchange {
            number,
            exchange: OpenExchange {
                connection: c,
                request: request.head,
                target,
                waits_for: None,
            },
            client,
        };
        match reaction {
            Reaction::Replies { reply, behind } => {
                self.reply_and_validate(held, closes, &reply, behind, actions)
            }
            Reaction::Declines { reply } => {
                self.incidents.note_refusal(c, Trouble::NotStored)?;
                self.reply_and_validate(held, closes, &reply, None, actions)
            }
            Reaction::Sends {
                request: forward,
                cause,
                kind,
            } => {
                let purpose = Purpose::Reply {
                    exchange: number,
                    cause,
                    kind,
                };
                self.go_forward(held, forward, purpose, actions)
            }
            Reaction::Waits { forward } => self.join(held, forward),
        }
    }

    /// A request that was read of a connection, which was taken out, gets its reply, and behind it a request
    /// may go to the origin for the store alone.
    fn reply_and_validate(
        &mut self,
        held: HeldExchange,
        closes: bool,
        reply: &Message<ResponseHead>,
        behind: Option<Message<RequestHead>>,
        actions: &mut Vec<Action>,
    ) -> Result<(), AllocError>
        ensures replies { OnOk result (SendsReplies held closes reply.now behind
            (at_desk actions.old.items self.old) (at_desk actions.new.items self.new)) }
        ensures unread { kept_at nat_cmp self.old.clients held.exchange.connection ≡ None
            → OnOk result
            (unread_at held.exchange.connection self.new.clients ≤ length (unread held.client.reader)) }
    {
        let target = self.reply_at_once(held, closes, reply, actions)?;
        match behind {
            None => Ok(()),
            Some(validation) => self.send_behind(target, validation, actions),
        }
    }

    /// A request goes to the origin for the store alone; no such one may be open for the target.
    fn send_behind(
        &mut self,
        target: Target,
        validation: Message<RequestHead>,
        actions: &mut Vec<Action>,
    ) -> Result<(), AllocError>
        ensures sends { OnOk result (SendsBehind target validation (at_desk actions.old.items self.old) (at_desk actions.new.items self.new)) }
        ensures clients { self.new.clients ≡ self.old.clients }
    {
        send_forward(
            &mut self.numbers,
            &mut self.links,
            validation,
            target,
            Purpose::Background,
            actions,
        )
    }

    /// A request that was read of a connection, which was taken out, gets its reply. Returns what it asks
    /// for.
    fn reply_at_once(
        &mut self,
        held: HeldExchange,
        closes: bool,
        reply: &Message<ResponseHead>,
        actions: &mut Vec<Action>,
    ) -> Result<Target, AllocError>
        ensures replies { OnOk result (SendsReply held closes reply.now (at_desk actions.old.items self.old)
            (at_desk actions.new.items self.new)) }
        ensures unread { kept_at nat_cmp self.old.clients held.exchange.connection ≡ None
            → OnOk result
            (unread_at held.exchange.connection self.new.clients ≤ length (unread held.client.reader)) }
        ensures target { IfOk result (λ target. target ≡ held.exchange.target) }
    {
        let to = addressee(&held, closes);
        let HeldExchange {
            number: _,
            exchange,
            client,
        } = held;
        reply_on(
            &mut self.numbers,
            &mut self.clients,
            to,
            client,
            reply,
            actions,
        )?;
        Ok(exchange.into_target())
    }

    /// A request that was read of a connection, which was taken out, goes to the origin, and awaits
    /// its reply.
    fn go_forward(
        &mut self,
        held: HeldExchange,
        forward: Message<RequestHead>,
        purpose: Purpose,
        actions: &mut Vec<Action>,
    ) -> Result<(), AllocError>
        ensures goes { OnOk result (SendsForward held forward purpose (at_desk actions.old.items self.old)
            (at_desk actions.new.items self.new)) }
        ensures unread { OnOk result
            (unread_at held.exchange.connection self.new.clients ≤ length (unread held.client.reader)) }
    {
        let target = held.exchange.target.copy(self.alloc)?;
        send_forward(
            &mut self.numbers,
            &mut self.links,
            forward,
            target,
            purpose,
            actions,
        )?;
        await_reply(self.alloc, &mut self.exchanges, &mut self.clients, held)
    }

    /// A request that was read of a connection, which was taken out, waits for the forward of another one, and
    /// awaits its reply.
    fn join(&mut self, mut held: HeldExchange, forward: u64) -> Result<(), AllocError>
        ensures joins { OnOk result (JoinsForward held forward self.old self.new) }
        ensures unread { OnOk result
            (unread_at held.exchange.connection self.new.clients ≤ length (unread held.client.reader)) }
    {
        held.exchange.waits_for = Some(forward);
        await_reply(self.alloc, &mut self.exchanges, &mut self.clients, held)
    }
}
