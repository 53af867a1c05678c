//! Messages that come in pieces.

ghost use Rattle.std.specs.Prelude.{◌≡◌, take};

use crate::body::{BodyReader, has_octets};
use crate::fault::FrameFault;
use crate::framing::Framing;
use crate::head::{MessageHead, head_fault};
use crate::kind::Kind;
use crate::message::Message;
use crate::progress::Progress;
use hc_fields::Octets;
use hc_head::{Room, Search, Step, find_empty_line};
use std::alloc::{AllocError, Global};

/// What a reader waits for.
#[derive(Clone, Copy, PartialEq, Eq)]
enum MessageStage {
    /// The end of the head.
    Head,
    /// The end of the body.
    Body,
    /// Nothing: the message is whole.
    End,
    /// Nothing: a fault was returned.
    Failed,
}

/// Reads a message that comes in pieces. Each octet of its body is kept once, and stays where it is
/// when the message is whole.
pub struct MessageReader<H> {
    alloc: Global,
    kind: Kind,
    room: Room,
    stage: MessageStage,
    /// The octets of the head, while it isn't whole.
    start: Octets,
    /// How far they lead to the empty line that ends the head.
    search: Search,
    /// How many of them there were when they were last tried as a head.
    tried: usize,
    head: Option<H>,
    body: BodyReader,
}

impl<H: Drop> Drop for MessageReader<H> {
    fn drop(self) {
        let MessageReader {
            alloc: _,
            kind: _,
            room: _,
            stage: _,
            start,
            search: _,
            tried: _,
            head,
            body,
        } = self;
        drop(start);
        drop(head);
        drop(body);
    }
}

/// The first octets, at most so many.
fn front_of(piece: &[u8], most: usize) -> &[u8]
    ensures { result.now ≡ take most piece.now }
{
    if piece.len() < most {
        piece
    } else {
        let (front, _) = piece.split_at(most);
        front
    }
}

impl<H: MessageHead> MessageReader<H> {
    ghost use Rattle.std.specs.Prelude.{◌≡◌, ◌≢◌, ℕ, ◌<◌, ◌≤◌, List, [], ◌++◌, length, take, None, OnOk, OnErr, IfOk, IfErr};
    ghost use Rattle.std.specs.Option.{IsSome, option_copied};
    ghost use Rattle.hc_head.specs.declared.head.Room.{Room};
    ghost use Rattle.hc_framing.specs.declared.kind.Kind.{Kind};
    ghost use Rattle.hc_framing.specs.declared.message.Message.{Message};
    ghost use Rattle.hc_framing.specs.BodyReading.{IsReading};
    ghost use Rattle.hc_framing.specs.Reader.{HasFailed, Holds, HasMessage, Agrees, IsAgreeing, CanFeed, HasNoMessage, BeginsIn, FeedGives, FeedFinds, IsInTime, EndGives, OnWhole, ShowsHeadAfter};
    ghost use Rattle.hc_framing.specs.ReaderParts.{is_due, ReadsHead, BeginsBodyGives, FeedsBody, IsClosed, IsFrozen};
    ghost use Rattle.hc_framing.specs.Faults.{StandsAtEnd};

    /// A reader of a message of that kind, whose head has to keep to the room.
    pub fn new(alloc: Global, kind: Kind, room: Room) -> Self
        ensures agrees { Agrees H.form kind room result [] }
        ensures can { CanFeed H.form result }
        ensures head { result.head ≡ None }
    {
        MessageReader {
            alloc,
            kind,
            room,
            stage: MessageStage::Head,
            start: Octets::new(alloc),
            search: Search::Blank,
            tried: 0,
            head: None,
            body: BodyReader::new(alloc, Framing::Nothing),
        }
    }

    /// The head without the fields that frame the body, once it has come. It stays after a fault of the
    /// body.
    pub fn head(&self) -> Option<&H>
        ensures { option_copied result ≡ self.now.head }
    {
        self.head.as_ref()
    }

    /// The message that was found.
    pub fn take(self) -> Message<H>
        requires { HasMessage self }
        ensures { (message : Message H) → Holds self message → result ≡ message }
    {
        let MessageReader {
            alloc: _,
            kind: _,
            room: _,
            stage: _,
            start,
            search: _,
            tried: _,
            head,
            body,
        } = self;
        drop(start);
        Message {
            head: head.unwrap(),
            body: body.into_whole(),
        }
    }

    /// Takes the next piece. Octets of it that follow the message are not taken.
    pub fn feed(&mut self, piece: &[u8]) -> Result<Progress, FrameFault>
        requires { CanFeed H.form self.old }
        // Each result stands only where it says so, whatever the pieces before were.
        ensures gives { (kind : Kind) (room : Room) (octets : List ℕ)
            → Agrees H.form kind room self.old octets
            → FeedGives H.form result kind room self.new octets piece.now }
        // More is wanted only where no front of the octets is a message.
        ensures unfinished { result ≡ Ok Progress.More → (kind : Kind) (room : Room) (octets : List ℕ)
            → Agrees H.form kind room self.old octets
            → HasNoMessage H.form kind (octets ++ piece.now) }
        // A message that is there is found, unless memory runs out.
        ensures found { (kind : Kind) (room : Room) (octets : List ℕ) (message : Message H) (len : ℕ)
            → Agrees H.form kind room self.old octets
            → BeginsIn H.form kind (octets ++ piece.now) room message len
            → FeedFinds result self.new octets message len }
        // A fault of the framing comes with the head, and one of the body with the line or the octet that breaks it.
        ensures in_time { result ≡ Ok Progress.More → (kind : Kind) (room : Room) (octets : List ℕ)
            → Agrees H.form kind room self.old octets
            → IsInTime H.form kind room (octets ++ piece.now) }
        // The head is shown once it has come and frames the body.
        ensures head { (kind : Kind) (room : Room) (octets : List ℕ)
            → Agrees H.form kind room self.old octets
            → ShowsHeadAfter H.form result kind room (octets ++ piece.now) self.new.head }
        // A head that is there stays, whatever the result.
        ensures keeps { IsSome self.old.head → self.new.head ≡ self.old.head }
        // It takes pieces until it has returned `Whole`.
        ensures can { result ≡ Ok Progress.More
            → CanFeed H.form self.new }
        ensures has { OnWhole result (HasMessage self.new) }
        // After a fault the reader returns `Failed` for ever.
        ensures fails { OnErr result (HasFailed self.new) }
        ensures failed { HasFailed self.old → result ≡ Err FrameFault.Failed }
        ensures stays { HasFailed self.old → self.new.head ≡ self.old.head }
    {
        match self.advance(piece) {
            Ok(progress) => Ok(progress),
            Err(fault) => {
                self.stage = MessageStage::Failed;
                Err(fault)
            }
        }
    }

    fn advance(&mut self, piece: &[u8]) -> Result<Progress, FrameFault>
        requires { CanFeed H.form self.old }
        ensures gives { (kind : Kind) (room : Room) (octets : List ℕ)
            → Agrees H.form kind room self.old octets
            → FeedGives H.form result kind room self.new octets piece.now }
        ensures head { IfErr result (λ fault. (kind : Kind) (room : Room) (octets : List ℕ)
            → Agrees H.form kind room self.old octets
            → ShowsHeadAfter H.form result kind room (octets ++ piece.now) self.new.head) }
        ensures keeps { IsSome self.old.head → self.new.head ≡ self.old.head }
        ensures failed { HasFailed self.old → result ≡ Err FrameFault.Failed }
        ensures stays { HasFailed self.old → self.new.head ≡ self.old.head }
    {
        match self.stage {
            MessageStage::Head => self.feed_head(piece),
            MessageStage::Body => self.feed_body(piece),
            MessageStage::Failed => Err(FrameFault::Failed),
            MessageStage::End => unreachable!(),
        }
    }

    /// Takes what the piece has of the head, and then of the body.
    fn feed_head(&mut self, piece: &[u8]) -> Result<Progress, FrameFault>
        requires stage { self.old.stage ≡ MessageStage.Head }
        requires agrees { IsAgreeing H.form self.old }
        ensures gives { (kind : Kind) (room : Room) (octets : List ℕ)
            → Agrees H.form kind room self.old octets
            → FeedGives H.form result kind room self.new octets piece.now }
        ensures head { IfErr result (λ fault. (kind : Kind) (room : Room) (octets : List ℕ)
            → Agrees H.form kind room self.old octets
            → ShowsHeadAfter H.form result kind room (octets ++ piece.now) self.new.head) }
        ensures keeps { IsSome self.old.head → self.new.head ≡ self.old.head }
    {
        let near = front_of(piece, self.room.octets.saturating_sub(self.start.len()));
        let (search, used) = find_empty_line(self.search, near);
        let (front, rest) = piece.split_at(used);
        self.start.extend_from_slice(front)?;
        self.search = search;
        if !self.is_due() {
            return Ok(Progress::More);
        }
        match self.read_head() {
            Err(fault) => Err(fault),
            Ok(None) => Ok(Progress::More),
            Ok(Some(framing)) => match self.begin_body(framing, rest) {
                Err(fault) => Err(fault),
                Ok(Progress::More) => Ok(Progress::More),
                Ok(Progress::Whole(taken)) => Ok(Progress::Whole(used + taken)),
            },
        }
    }

    /// Whether the octets are to be tried as a head: its end has come, there is no more room, or they
    /// have doubled since they were last tried, so that one that can't become a head is refused soon.
    fn is_due(&self) -> bool
        ensures { result ≡ is_due self.now }
    {
        self.search == Search::Found
            || self.start.len() >= self.room.octets
            || self.start.len() / 2 > self.tried
    }

    /// Reads the head, if it is whole, and tells how the body behind it is framed.
    fn read_head(&mut self) -> Result<Option<Framing>, FrameFault>
        ensures { ReadsHead H.form result self.old self.new }
    {
        self.tried = self.start.len();
        match H::read(self.alloc, self.start.as_slice(), self.room) {
            Err(fault) => Err(head_fault(fault)),
            Ok(Step::More) => Ok(None),
            Ok(Step::Whole(head, _)) => {
                let framing = match head.framing(self.kind) {
                    Err(fault) => return Err(fault),
                    Ok(framing) => framing,
                };
                self.head = Some(head.into_bare());
                Ok(Some(framing))
            }
        }
    }

    /// Takes what the piece has of the body that is framed so.
    fn begin_body(&mut self, framing: Framing, piece: &[u8]) -> Result<Progress, FrameFault>
        ensures { BeginsBodyGives framing result self.old self.new piece.now }
    {
        self.start = Octets::new(self.alloc);
        self.body = BodyReader::new(self.alloc, framing);
        if !has_octets(framing) {
            self.stage = MessageStage::End;
            return Ok(Progress::Whole(0));
        }
        self.stage = MessageStage::Body;
        self.feed_body(piece)
    }

    fn feed_body(&mut self, piece: &[u8]) -> Result<Progress, FrameFault>
        requires stage { self.old.stage ≡ MessageStage.Body }
        requires reads { IsReading self.old.body }
        ensures gives { FeedsBody result self.old self.new piece.now }
    {
        match self.body.feed(piece) {
            Err(fault) => Err(fault),
            Ok(Progress::More) => Ok(Progress::More),
            Ok(Progress::Whole(used)) => {
                self.stage = MessageStage::End;
                Ok(Progress::Whole(used))
            }
        }
    }

    /// Says that no more octets come. A message that lasts until the close is whole then.
    pub fn end(&mut self) -> Result<Progress, FrameFault>
        requires { CanFeed H.form self.old }
        // Each result stands only where it says so.
        ensures gives { (kind : Kind) (room : Room) (octets : List ℕ)
            → Agrees H.form kind room self.old octets
            → EndGives H.form result kind room self.new octets }
        ensures has { OnOk result (HasMessage self.new) }
        ensures fails { OnErr result (HasFailed self.new) }
        ensures failed { HasFailed self.old → result ≡ Err FrameFault.Failed }
        ensures stays { self.new.head ≡ self.old.head }
    {
        match self.close() {
            Ok(()) => {
                self.stage = MessageStage::End;
                Ok(Progress::Whole(0))
            }
            Err(fault) => {
                self.stage = MessageStage::Failed;
                Err(fault)
            }
        }
    }

    /// Makes the message whole, if it lasts until the close.
    fn close(&mut self) -> Result<(), FrameFault>
        requires { CanFeed H.form self.old }
        ensures ok { OnOk result (IsClosed self.old × IsFrozen self.old self.new) }
        ensures err { IfErr result (λ fault. (kind : Kind) (room : Room) (octets : List ℕ)
            → Agrees H.form kind room self.old octets
            → StandsAtEnd H.form kind fault octets room) }
        ensures failed { HasFailed self.old → result ≡ Err FrameFault.Failed }
        ensures stays { self.new.head ≡ self.old.head }
    {
        match self.closed() {
            Ok(()) => {
                self.body.freeze()?;
                Ok(())
            }
            Err(fault) => Err(fault),
        }
    }

    /// Whether the message is whole where no more octets come.
    fn closed(&self) -> Result<(), FrameFault>
        requires { CanFeed H.form self.now }
        ensures ok { OnOk result (IsClosed self.now) }
        ensures err { IfErr result (λ fault. (kind : Kind) (room : Room) (octets : List ℕ)
            → Agrees H.form kind room self.now octets
            → StandsAtEnd H.form kind fault octets room) }
        ensures failed { HasFailed self.now → result ≡ Err FrameFault.Failed }
    {
        match self.stage {
            MessageStage::Head => match H::read(self.alloc, self.start.as_slice(), self.room) {
                Err(fault) => Err(head_fault(fault)),
                Ok(Step::More) => Err(FrameFault::Truncated),
                Ok(Step::Whole(_, _)) => unreachable!(),
            },
            MessageStage::Body => {
                if self.body.ends_with_close() {
                    Ok(())
                } else {
                    Err(FrameFault::Truncated)
                }
            }
            MessageStage::Failed => Err(FrameFault::Failed),
            MessageStage::End => unreachable!(),
        }
    }
}
