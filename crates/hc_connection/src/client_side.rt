//! The client's side of a connection.

ghost use Rattle.std.specs.Prelude.{◌≡◌, ◌<◌, ◌≤◌, false, true, ℕ, List, [], ◌∷◌, Option, None, Ok, IfOk, IfSome};

use hc_framing::MessageText;
use hc_links::{Came, Happened, Link, LinkFailure, read_some, send_text};
use hc_order::Reason;
use hc_service::Happening;
use std::alloc::{AllocError, Global};

/// So many replies, and the client is read no more.
const MOST_REPLIES: u32 = 100;

/// The most reads for one connection, of its client and of origins together.
const MOST_READS: u32 = 1_000_000;

/// The client's side of a connection.
#[derive(Drop)]
pub(crate) struct ClientSide<C: Link> {
    /// The number of the connection.
    number: u64,
    link: C,
    /// Whether the link has failed.
    failed: bool,
    /// Whether the cache was told that the client sends no more.
    ended: bool,
    /// Whether the cache has closed the connection.
    closed: bool,
    /// How many reads there were, of this link and of origins.
    reads: u32,
    /// How many replies were sent.
    replies: u32,
}

impl<C: Link> ClientSide<C> {
    ghost use Rattle.hc_order.specs.declared.receiver.Receiver.TheVariants.{Client};
    ghost use Rattle.hc_service.specs.declared.event.Happening.TheVariants.{ClientEnd};
    ghost use Rattle.hc_connection.specs.Forwards.{IsOfClient};
    ghost use Rattle.hc_connection.specs.Moves.{most_reads, most_replies};
    ghost use Rattle.hc_order.specs.Log.{Move};
    ghost use Rattle.hc_order.specs.Log.Move.{Before, Closed, Sent};
    ghost use Rattle.hc_connection.specs.Sides.{MayEndFor, Tells, TellsSparing, is_heard_out};
    ghost use Rattle.hc_links.specs.Telling.{TellsIfOk, TellsPerhaps};

    /// That of a client who has just connected.
    pub(crate) fn new(number: u64, link: C) -> Self
        ensures tells { (last : Option ℕ) (given got : List ℕ) (reads : ℕ) → C.has_given link given → C.has_got link got → C.was_read link reads
            → Tells C.has_given C.has_got C.was_read C.count result (Before (record {
              last = last;
              number = number;
              given = given;
              got = got;
              reads = reads;
              failures = C.count link;
            }) ∷ []) }
        ensures number { result.number ≡ number }
    {
        ClientSide {
            number,
            link,
            failed: false,
            ended: false,
            closed: false,
            reads: 0,
            replies: 0,
        }
    }

    pub(crate) fn link(&self) -> &C
        ensures { result.now ≡ self.now.link }
    {
        &self.link
    }

    pub(crate) fn into_link(self) -> C
        ensures { result ≡ self.link }
    {
        self.link
    }

    pub(crate) fn number(&self) -> u64
        ensures { result ≡ self.now.number }
    {
        self.number
    }

    pub(crate) fn has_failed(&self) -> bool
        ensures { result ≡ self.now.failed }
    {
        self.failed
    }

    /// The cache has closed the connection: nothing more is written to the client, nor read of it.
    pub(crate) fn close(&mut self)
        ensures tells { (log : List Move) → Tells C.has_given C.has_got C.was_read C.count self.old log
            → Tells C.has_given C.has_got C.was_read C.count self.new (Closed (Client self.old.number) ∷ log) }
        ensures number { self.new.number ≡ self.old.number }
    {
        self.closed = true;
        if !self.failed {
            self.link.end();
        }
    }

    /// Counts a read, if there may be one more.
    pub(crate) fn may_read(&mut self) -> bool
        ensures tells { (log : List Move) → Tells C.has_given C.has_got C.was_read C.count self.old log
            → Tells C.has_given C.has_got C.was_read C.count self.new log }
        ensures may { (log : List Move) → Tells C.has_given C.has_got C.was_read C.count self.old log
            → result ≡ true → TellsSparing C.has_given C.has_got C.was_read C.count 1 self.new log }
        ensures spent { result ≡ false → most_reads ≤ self.new.reads }
        ensures same { (self.new.link ≡ self.old.link) × (self.new.failed ≡ self.old.failed) × (self.new.replies ≡ self.old.replies)
            × (self.new.closed ≡ self.old.closed) × (self.new.ended ≡ self.old.ended) }
        ensures number { self.new.number ≡ self.old.number }
    {
        if self.reads >= MOST_READS {
            return false;
        }
        self.reads += 1;
        true
    }

    /// Whether there may be no more reads.
    pub(crate) fn is_spent(&self) -> bool
        ensures spent { result ≡ true → most_reads ≤ self.now.reads }
        ensures unspent { result ≡ false → self.now.reads < most_reads }
    {
        self.reads >= MOST_READS
    }

    /// Whether the client is read no more, though its link works.
    fn is_left(&self) -> bool
        ensures { result ≡ false → self.now.replies < most_replies }
    {
        self.replies >= MOST_REPLIES || self.is_spent()
    }

    /// Whether nothing more is heard of the client.
    fn is_heard_out(&self) -> bool
        ensures { result ≡ is_heard_out self.now }
    {
        self.ended || self.closed
    }

    /// Why the client is read no more.
    fn reason(&self) -> Reason
        ensures { (log : List Move) → Tells C.has_given C.has_got C.was_read C.count self.now log → MayEndFor self.now result log }
    {
        if self.replies >= MOST_REPLIES {
            return Reason::Replies;
        }
        if self.is_spent() {
            return Reason::Reads;
        }
        Reason::Peer
    }

    /// That the client sends no more, told for that reason, unless it was told, or the connection has closed.
    fn leave_for(&mut self, reason: Reason) -> Option<Happened>
        ensures tells { (log : List Move) → Tells C.has_given C.has_got C.was_read C.count self.old log → MayEndFor self.old reason log
            → TellsPerhaps (Tells C.has_given C.has_got C.was_read C.count self.new) result log }
        ensures number { self.new.number ≡ self.old.number }
        ensures reads { self.new.reads ≡ self.old.reads }
        ensures rests { result ≡ None → is_heard_out self.new ≡ true }
        ensures its { IfSome result (λ happened. happened.of ≡ ClientEnd self.old.number) }
    {
        if self.ended {
            return None;
        }
        if self.closed {
            return None;
        }
        self.ended = true;
        Some(Happened {
            of: Happening::ClientEnd(self.number),
            reason,
        })
    }

    /// The same, told for the reason for which the client is read no more.
    pub(crate) fn leave(&mut self) -> Option<Happened>
        ensures tells { (log : List Move) → Tells C.has_given C.has_got C.was_read C.count self.old log
            → TellsPerhaps (Tells C.has_given C.has_got C.was_read C.count self.new) result log }
        ensures number { self.new.number ≡ self.old.number }
        ensures reads { self.new.reads ≡ self.old.reads }
        ensures rests { result ≡ None → is_heard_out self.new ≡ true }
        ensures its { IfSome result (λ happened. happened.of ≡ ClientEnd self.old.number) }
    {
        let reason = self.reason();
        self.leave_for(reason)
    }

    /// The same, where the client is read no more, though its link works.
    pub(crate) fn leave_in_time(&mut self) -> Option<Happened>
        ensures tells { (log : List Move) → Tells C.has_given C.has_got C.was_read C.count self.old log
            → TellsPerhaps (Tells C.has_given C.has_got C.was_read C.count self.new) result log }
        ensures number { self.new.number ≡ self.old.number }
        ensures its { IfSome result (λ happened. happened.of ≡ ClientEnd self.old.number) }
    {
        if !self.is_left() {
            return None;
        }
        self.leave()
    }

    /// What comes of the client next, if something may.
    pub(crate) fn hear(&mut self, alloc: Global) -> Result<Option<Happened>, AllocError>
        ensures tells { (log : List Move) → Tells C.has_given C.has_got C.was_read C.count self.old log
            → TellsIfOk (Tells C.has_given C.has_got C.was_read C.count self.new) result log }
        ensures number { self.new.number ≡ self.old.number }
        ensures rests { result ≡ Ok None → is_heard_out self.new ≡ true }
        ensures its { IfOk result (λ perhaps. IfSome perhaps (λ happened. IsOfClient happened.of)) }
    {
        if self.is_heard_out() {
            return Ok(None);
        }
        if self.failed {
            return Ok(self.leave());
        }
        if self.is_left() {
            return Ok(self.leave());
        }
        if !self.may_read() {
            return Ok(self.leave());
        }
        match read_some(alloc, &mut self.link)? {
            Came::Octets(octets) => Ok(Some(Happened {
                of: Happening::ClientBytes(self.number, octets),
                reason: Reason::Peer,
            })),
            Came::End => Ok(self.leave_for(Reason::Peer)),
            Came::Failure => {
                self.failed = true;
                Ok(self.leave_for(Reason::Peer))
            }
        }
    }

    /// Sends octets to the client, and returns whether the link failed at that. One that has failed before
    /// loses them.
    pub(crate) fn reply(&mut self, text: &MessageText) -> bool
        ensures tells { (log : List Move) → Tells C.has_given C.has_got C.was_read C.count self.old log
            → Tells C.has_given C.has_got C.was_read C.count self.new (Sent (Client self.old.number) text.now ∷ log) }
        ensures number { self.new.number ≡ self.old.number }
    {
        self.replies = self.replies.saturating_add(1);
        if self.failed {
            return false;
        }
        match send_text(&mut self.link, text) {
            Ok(()) => false,
            Err(LinkFailure) => {
                self.failed = true;
                true
            }
        }
    }
}
