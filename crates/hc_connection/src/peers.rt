//! The client of a connection, and the forwards that are open for it.

ghost use Rattle.std.specs.Prelude.{◌≡◌, ◌<◌, true, List, ◌∷◌, length, IfOk, IsSome, None, Ok};

use crate::client_side::ClientSide;
use crate::forwards::Forwards;
use hc_framing::MessageText;
use hc_links::{Came, Happened, Link, Origins};
use hc_order::{Reason, Receiver};
use hc_service::Happening;
use std::alloc::{AllocError, Global};
use std::collections::VecDeque;

/// What the cache may have to be told, in its turn.
#[derive(Clone, Copy)]
enum Waiting {
    /// That the client sends no more, since its link failed as a reply was sent.
    Leaving,
    /// That the forward of that number failed, since no link could be made, or that one failed as octets were sent.
    Losing(u64),
}

/// The client of a connection, and the forwards that are open for it. The forward of the least number is read, or,
/// where none is open, the client.
#[derive(Drop)]
pub(crate) struct Peers<'a, C: Link, O: Origins> {
    alloc: Global,
    client: ClientSide<C>,
    forwards: Forwards<'a, O>,
    waiting: VecDeque<Waiting>,
}

impl<'a, C: Link, O: Origins> Peers<'a, C, O> {
    ghost use Rattle.hc_connection.specs.Forwards.{AreKept, IsLeastOpen, KeepsIfOk, KeepsPerhaps, NoneOpen};
    ghost use Rattle.hc_connection.specs.Moves.{most_reads};
    ghost use Rattle.hc_order.specs.Log.{Move};
    ghost use Rattle.hc_order.specs.Log.Move.{Closed};
    ghost use Rattle.hc_connection.specs.Sides.{Tells, TellsSparing, is_heard_out};
    ghost use Rattle.hc_links.specs.Telling.{TellsIfOk, TellsPerhaps};
    ghost use Rattle.hc_links.specs.Telling.{TellsSent};
    ghost use Rattle.hc_order.specs.declared.receiver.Receiver.TheVariants.{Client, Origin};

    /// A client who has just connected. No forward is open.
    pub(crate) fn new(alloc: Global, client: ClientSide<C>, origins: &'a O) -> Self
        ensures client { result.client ≡ client }
        ensures kept { (log : List Move) → NoneOpen log → AreKept O.Link.has_given O.Link.has_got result.forwards.links log }
    {
        Peers {
            alloc,
            client,
            forwards: Forwards::new(alloc, origins),
            waiting: VecDeque::new(alloc),
        }
    }

    /// The client's side.
    pub(crate) fn client(&self) -> &ClientSide<C>
        ensures { result.now ≡ self.now.client }
    {
        &self.client
    }

    /// The client's side, once the connection is served.
    pub(crate) fn into_client(self) -> ClientSide<C>
        ensures { result ≡ self.entry.client }
    {
        self.client
    }

    /// The first of what waits that is still to be told.
    fn waited(&mut self) -> Option<Happened>
        ensures tells { self.old.client.reads < most_reads → (log : List Move) → Tells C.has_given C.has_got C.was_read C.count self.old.client log
            → TellsPerhaps (Tells C.has_given C.has_got C.was_read C.count self.new.client) result log }
        ensures number { self.new.client.number ≡ self.old.client.number }
        ensures kept { (log : List Move) → AreKept O.Link.has_given O.Link.has_got self.old.forwards.links log
            → KeepsPerhaps (AreKept O.Link.has_given O.Link.has_got self.new.forwards.links) result log }
    {
        'waiting: while let Some(waiting) = self.waiting.pop_front() {
            let told = self.told(waiting);
            if told.is_some() {
                return told;
            }
        }
        None
    }

    /// The same, as long as links may be read. Behind that nothing that waits is told, since all that is open fails in the
    /// order of numbers.
    fn waited_in_time(&mut self) -> Option<Happened>
        ensures tells { (log : List Move) → Tells C.has_given C.has_got C.was_read C.count self.old.client log
            → TellsPerhaps (Tells C.has_given C.has_got C.was_read C.count self.new.client) result log }
        ensures number { self.new.client.number ≡ self.old.client.number }
        ensures kept { (log : List Move) → AreKept O.Link.has_given O.Link.has_got self.old.forwards.links log
            → KeepsPerhaps (AreKept O.Link.has_given O.Link.has_got self.new.forwards.links) result log }
    {
        if self.client.is_spent() {
            return None;
        }
        self.waited()
    }

    /// What is told of what waited, if it is still to be told.
    fn told(&mut self, waiting: Waiting) -> Option<Happened>
        ensures tells { self.old.client.reads < most_reads → (log : List Move) → Tells C.has_given C.has_got C.was_read C.count self.old.client log
            → TellsPerhaps (Tells C.has_given C.has_got C.was_read C.count self.new.client) result log }
        ensures number { self.new.client.number ≡ self.old.client.number }
        ensures kept { (log : List Move) → AreKept O.Link.has_given O.Link.has_got self.old.forwards.links log
            → KeepsPerhaps (AreKept O.Link.has_given O.Link.has_got self.new.forwards.links) result log }
        ensures reads { self.new.client.reads ≡ self.old.client.reads }
        ensures waiting { self.new.waiting ≡ self.old.waiting }
    {
        match waiting {
            Waiting::Leaving => self.client.leave(),
            Waiting::Losing(forward) => self.lost(forward),
        }
    }

    /// That the forward failed, if it was open.
    fn lost(&mut self, forward: u64) -> Option<Happened>
        ensures client { self.new.client ≡ self.old.client }
        ensures tells { self.old.client.reads < most_reads → (log : List Move) → Tells C.has_given C.has_got C.was_read C.count self.old.client log
            → TellsPerhaps (Tells C.has_given C.has_got C.was_read C.count self.new.client) result log }
        ensures kept { (log : List Move) → AreKept O.Link.has_given O.Link.has_got self.old.forwards.links log
            → KeepsPerhaps (AreKept O.Link.has_given O.Link.has_got self.new.forwards.links) result log }
        ensures waiting { self.new.waiting ≡ self.old.waiting }
    {
        if self.forwards.forget(forward) {
            return Some(Happened {
                of: Happening::OriginFailed(forward),
                reason: Reason::Peer,
            });
        }
        None
    }

    /// What comes of the forward of the least number, if one is open.
    fn hear_origin(&mut self) -> Result<Option<Happened>, AllocError>
        ensures tells { (log : List Move) → Tells C.has_given C.has_got C.was_read C.count self.old.client log
            → TellsIfOk (Tells C.has_given C.has_got C.was_read C.count self.new.client) result log }
        ensures number { self.new.client.number ≡ self.old.client.number }
        ensures kept { (log : List Move) → AreKept O.Link.has_given O.Link.has_got self.old.forwards.links log
            → KeepsIfOk (AreKept O.Link.has_given O.Link.has_got self.new.forwards.links) result log }
        ensures none { result ≡ Ok None → length self.new.forwards.links.entries ≡ 0 }
        ensures none_open { result ≡ Ok None → (log : List Move) → AreKept O.Link.has_given O.Link.has_got self.old.forwards.links log → NoneOpen log }
    {
        let Some(forward) = self.forwards.least() else {
            return Ok(None);
        };
        if !self.client.may_read() {
            self.forwards.forget(forward);
            return Ok(Some(Happened {
                of: Happening::OriginFailed(forward),
                reason: Reason::Reads,
            }));
        }
        self.hear_forward(forward)
    }

    /// What comes of that forward.
    fn hear_forward(&mut self, forward: u64) -> Result<Option<Happened>, AllocError>
        ensures tells { (log : List Move) → TellsSparing C.has_given C.has_got C.was_read C.count 1 self.old.client log
            → TellsIfOk (Tells C.has_given C.has_got C.was_read C.count self.new.client) result log }
        ensures number { self.new.client.number ≡ self.old.client.number }
        ensures kept { (log : List Move) → IsLeastOpen forward log → AreKept O.Link.has_given O.Link.has_got self.old.forwards.links log
            → KeepsIfOk (AreKept O.Link.has_given O.Link.has_got self.new.forwards.links) result log }
        ensures some { IfOk result IsSome }
    {
        match self.forwards.hear(forward)? {
            Came::Octets(octets) => Ok(Some(Happened {
                of: Happening::OriginBytes(forward, octets),
                reason: Reason::Peer,
            })),
            Came::End => {
                self.forwards.forget(forward);
                Ok(Some(Happened {
                    of: Happening::OriginEnd(forward),
                    reason: Reason::Peer,
                }))
            }
            Came::Failure => {
                self.forwards.forget(forward);
                Ok(Some(Happened {
                    of: Happening::OriginFailed(forward),
                    reason: Reason::Peer,
                }))
            }
        }
    }

    /// What happens next.
    pub(crate) fn happening(&mut self) -> Result<Option<Happened>, AllocError>
        ensures tells { (log : List Move) → Tells C.has_given C.has_got C.was_read C.count self.old.client log
            → TellsIfOk (Tells C.has_given C.has_got C.was_read C.count self.new.client) result log }
        ensures number { self.new.client.number ≡ self.old.client.number }
        ensures kept { (log : List Move) → AreKept O.Link.has_given O.Link.has_got self.old.forwards.links log
            → KeepsIfOk (AreKept O.Link.has_given O.Link.has_got self.new.forwards.links) result log }
        ensures rests { result ≡ Ok None
            → (length self.new.forwards.links.entries ≡ 0) × (is_heard_out self.new.client ≡ true) }
    {
        if let Some(happened) = self.client.leave_in_time() {
            return Ok(Some(happened));
        }
        if let Some(happened) = self.waited_in_time() {
            return Ok(Some(happened));
        }
        if let Some(happened) = self.hear_origin()? {
            return Ok(Some(happened));
        }
        self.client.hear(self.alloc)
    }

    /// Opens a forward. Where memory is refused, nothing is sent.
    fn open(&mut self, forward: u64, text: &MessageText) -> Result<(), AllocError>
        ensures client { self.new.client ≡ self.old.client }
        ensures kept { (log : List Move) → AreKept O.Link.has_given O.Link.has_got self.old.forwards.links log
            → TellsSent (AreKept O.Link.has_given O.Link.has_got self.new.forwards.links) result (Origin forward) text.now log }
    {
        // What may be told has its place before octets are sent.
        self.waiting.push_back(Waiting::Losing(forward))?;
        if self.forwards.open(forward, text)? {
            self.waiting.pop_back();
        }
        Ok(())
    }

    /// Sends octets to a client, which is this one's or another's, for which there is no link. Where memory is refused,
    /// nothing is sent.
    fn reply(&mut self, number: u64, text: &MessageText) -> Result<(), AllocError>
        ensures tells { (log : List Move) → Tells C.has_given C.has_got C.was_read C.count self.old.client log
            → TellsSent (Tells C.has_given C.has_got C.was_read C.count self.new.client) result (Client number) text.now log }
        ensures number { self.new.client.number ≡ self.old.client.number }
        ensures forwards { self.new.forwards ≡ self.old.forwards }
    {
        if number != self.client.number() {
            return Ok(());
        }
        // What may be told has its place before octets are sent.
        self.waiting.push_back(Waiting::Leaving)?;
        if !self.client.reply(text) {
            self.waiting.pop_back();
        }
        Ok(())
    }

    /// Sends octets to a client, or opens a forward. Where memory is refused, nothing is sent.
    pub(crate) fn send(&mut self, to: Receiver, octets: &MessageText) -> Result<(), AllocError>
        ensures tells { (log : List Move) → Tells C.has_given C.has_got C.was_read C.count self.old.client log
            → TellsSent (Tells C.has_given C.has_got C.was_read C.count self.new.client) result to octets.now log }
        ensures number { self.new.client.number ≡ self.old.client.number }
        ensures kept { (log : List Move) → AreKept O.Link.has_given O.Link.has_got self.old.forwards.links log
            → TellsSent (AreKept O.Link.has_given O.Link.has_got self.new.forwards.links) result to octets.now log }
    {
        match to {
            Receiver::Origin(forward) => self.open(forward, octets),
            Receiver::Client(number) => self.reply(number, octets),
        }
    }

    /// Closes the connection of a client, which is this one's or another's, for which there is no link.
    fn close_client(&mut self, number: u64)
        ensures tells { (log : List Move) → Tells C.has_given C.has_got C.was_read C.count self.old.client log
            → Tells C.has_given C.has_got C.was_read C.count self.new.client (Closed (Client number) ∷ log) }
        ensures number { self.new.client.number ≡ self.old.client.number }
        ensures forwards { self.new.forwards ≡ self.old.forwards }
    {
        if number == self.client.number() {
            self.client.close();
        }
    }

    /// Closes the connection of a client, or a forward.
    pub(crate) fn close(&mut self, link: Receiver)
        ensures tells { (log : List Move) → Tells C.has_given C.has_got C.was_read C.count self.old.client log
            → Tells C.has_given C.has_got C.was_read C.count self.new.client (Closed link ∷ log) }
        ensures number { self.new.client.number ≡ self.old.client.number }
        ensures kept { (log : List Move) → AreKept O.Link.has_given O.Link.has_got self.old.forwards.links log
            → AreKept O.Link.has_given O.Link.has_got self.new.forwards.links (Closed link ∷ log) }
    {
        match link {
            Receiver::Client(number) => self.close_client(number),
            Receiver::Origin(forward) => {
                self.forwards.forget(forward);
            }
        }
    }
}
