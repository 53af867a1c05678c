//! The response to a forward.

ghost use Rattle.std.specs.Prelude.{◌≡◌};

use crate::arrival::{Ended, ResponseHeard};
use crate::heads::unless_memory;
use crate::troubles::{Trouble, trouble_of};
use hc_framing::{Kind, Message, MessageReader, Progress};
use hc_head::{ResponseHead, Room, StatusCode, is_interim};
use std::alloc::{AllocError, Global};
use std::mem;

/// The most interim responses before the final one.
const MOST_INTERIM: u8 = 16;

/// What one response of a piece is.
#[derive(Drop)]
enum Part {
    /// An interim one, which takes so many octets of the piece.
    Interim(usize),
    /// The last that is read.
    Last(ResponseHeard),
}

fn status_of(head: &ResponseHead) -> StatusCode
    ensures { result ≡ head.now.status }
{
    head.status
}

/// Reads the response to a forward. Interim responses before it are dropped, at most 16; 101, which
/// changes the protocol, is none of them. Heads are read in the room `RECEIVED`.
pub struct ResponseReader {
    alloc: Global,
    /// Whether the forward's method is HEAD.
    to_head: bool,
    /// How many interim responses have come.
    interim: u8,
    /// How many octets were heard, while nothing was found.
    heard: usize,
    /// The response that has begun.
    reader: MessageReader<ResponseHead>,
}

impl Drop for ResponseReader {
    fn drop(self) {
        let ResponseReader {
            alloc: _,
            to_head: _,
            interim: _,
            heard: _,
            reader,
        } = self;
        drop(reader);
    }
}

impl ResponseReader {
    ghost use Rattle.std.specs.Prelude.{◌≡◌, ℕ, Bool, List, [], ◌++◌, Ok};
    ghost use Rattle.hc_framing.specs.Reader.{HasMessage, Holds};
    ghost use Rattle.hc_head.specs.declared.head.ResponseHead.{ResponseHead};
    ghost use Rattle.hc_framing.specs.declared.message.Message.{Message};
    ghost use Rattle.hc_incoming.specs.Counts.{count_of};
    ghost use Rattle.hc_incoming.specs.Responses.{IsResponse};
    ghost use Rattle.hc_incoming.specs.ResponseReading.{WasGiven, CanRead, FindsResponse, GivesEnd, GivesHeard, ReadsOn};
    ghost use Rattle.hc_incoming.specs.ResponseParts.{BeginsNext, GivesPart, HasEnded, PartReadsOn, TakesSome, TakesThose};

    /// A reader of a connection that has just opened; `to_head` tells whether the forward's method is
    /// HEAD.
    pub fn new(alloc: Global, to_head: bool) -> Self
        ensures agrees { WasGiven to_head result [] }
        ensures can { CanRead result }
    {
        ResponseReader {
            alloc,
            to_head,
            interim: 0,
            heard: 0,
            reader: MessageReader::new(alloc, Kind::Response { to_head }, Room::RECEIVED),
        }
    }

    /// Takes in the next octets. Those behind a final response are dropped.
    pub fn hear(&mut self, piece: &[u8]) -> Result<ResponseHeard, AllocError>
        requires { CanRead self.old }
        // Each result stands only where it says so, whatever the pieces before were.
        ensures gives { (to_head : Bool) (octets : List ℕ) → WasGiven to_head self.old octets
            → GivesHeard result to_head self.new (octets ++ piece.now) }
        // A response that is there is found, unless memory runs out.
        ensures found { (to_head : Bool) (octets : List ℕ) (message : Message ResponseHead) → WasGiven to_head self.old octets
            → IsResponse to_head (octets ++ piece.now) message → FindsResponse result message }
        // It takes octets until it has found a response or a failure.
        ensures can { ReadsOn result self.new }
    {
        let mut used = 0;
        loop {
            let (_, rest) = piece.split_at(used);
            match self.read(rest)? {
                Part::Interim(taken) => used += taken,
                Part::Last(heard) => return Ok(heard),
            }
        }
    }

    /// How many octets were heard, while neither a response nor a failure was found.
    pub fn heard(&self) -> usize
        ensures { (to_head : Bool) (octets : List ℕ) → WasGiven to_head self.now octets → result ≡ count_of octets }
    {
        self.heard
    }

    /// Reads one response.
    fn read(&mut self, piece: &[u8]) -> Result<Part, AllocError>
        requires { CanRead self.old }
        ensures gives { (to_head : Bool) (octets : List ℕ) → WasGiven to_head self.old octets
            → GivesPart result to_head self.new octets piece.now }
        ensures some { TakesSome result piece.now }
        ensures can { PartReadsOn result self.new }
    {
        match self.reader.feed(piece) {
            Err(fault) => Ok(Part::Last(ResponseHeard::Failed(trouble_of(unless_memory(fault)?)))),
            Ok(Progress::More) => {
                self.heard = self.heard.saturating_add(piece.len());
                Ok(Part::Last(ResponseHeard::More))
            }
            Ok(Progress::Whole(used)) => Ok(self.sort(used)),
        }
    }

    /// Takes out the response that was found, and begins the next.
    fn take_message(&mut self) -> Message<ResponseHead>
        requires { HasMessage self.old.reader }
        ensures taken { (message : Message ResponseHead) → Holds self.old.reader message → result ≡ message }
        ensures begins { BeginsNext self.old self.new }
        ensures can { CanRead self.new }
    {
        let kind = Kind::Response {
            to_head: self.to_head,
        };
        let next = MessageReader::new(self.alloc, kind, Room::RECEIVED);
        mem::replace(&mut self.reader, next).take()
    }

    /// Tells what a response is that ends with so many octets of the piece, and begins the next.
    fn sort(&mut self, used: usize) -> Part
        requires { HasMessage self.old.reader }
        ensures gives { (to_head : Bool) (octets piece : List ℕ) → HasEnded to_head self.old octets piece used
            → GivesPart (Ok result) to_head self.new octets piece }
        ensures taken { TakesThose result used }
        ensures can { PartReadsOn (Ok result) self.new }
    {
        let message = self.take_message();
        let status = status_of(&message.head);
        if !is_interim(status) {
            return Part::Last(ResponseHeard::Response(message));
        }
        if status == StatusCode::SWITCHING_PROTOCOLS {
            return Part::Last(ResponseHeard::Failed(Trouble::SwitchesProtocol));
        }
        if self.interim >= MOST_INTERIM {
            return Part::Last(ResponseHeard::Failed(Trouble::TooManyInterim));
        }
        self.interim += 1;
        self.heard = self.heard.saturating_add(used);
        Part::Interim(used)
    }

    /// Says that no more octets come: the response, which may last until then, or why there is none.
    pub fn end(&mut self) -> Result<Ended, AllocError>
        requires { CanRead self.old }
        // Each result stands only where it says so.
        ensures gives { (to_head : Bool) (octets : List ℕ) → WasGiven to_head self.old octets
            → GivesEnd result to_head octets }
    {
        match self.reader.end() {
            Err(fault) => Ok(Ended::Failed(trouble_of(unless_memory(fault)?))),
            Ok(_) => Ok(Ended::Response(self.take_message())),
        }
    }
}
