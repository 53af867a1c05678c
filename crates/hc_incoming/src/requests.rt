//! The requests of a client connection.

ghost use Rattle.std.specs.Prelude.{◌≡◌};

use crate::arrival::RequestArrival;
use crate::heads::{Tested, test_head, unless_memory};
use crate::troubles::{Trouble, last_trouble, trouble_of};
use hc_fields::Waiting;
use hc_framing::{FrameFault, Kind, MessageReader, Progress};
use hc_head::{RequestHead, Room, Target};
use std::alloc::{AllocError, Global};
use std::mem;

/// Reads the requests of a client connection, one after the other. What is behind a whole request
/// waits until the next is asked for. Heads are read in the room `RECEIVED`.
pub struct RequestReader {
    alloc: Global,
    /// The request that has begun.
    reader: MessageReader<RequestHead>,
    /// What it asks for, once its head has come and passed its tests.
    target: Option<Target>,
    /// The octets that were heard and not yet read.
    waits: Waiting,
    /// How many octets were heard behind the last whole request.
    heard: usize,
}

impl Drop for RequestReader {
    fn drop(self) {
        let RequestReader {
            alloc: _,
            reader,
            target,
            waits,
            heard: _,
        } = self;
        drop(reader);
        drop(target);
        drop(waits);
    }
}

impl RequestReader {
    ghost use Rattle.std.specs.Prelude.{◌≡◌, ℕ, List, [], ◌++◌, ◌<◌, ◌≤◌, length, OnOk, OnErr};
    ghost use Rattle.hc_framing.specs.Reader.{HasMessage};
    ghost use Rattle.hc_head.specs.declared.head.RequestHead.{RequestHead};
    ghost use Rattle.hc_head.specs.declared.head.Target.{Target};
    ghost use Rattle.hc_framing.specs.declared.message.Message.{Message};
    ghost use Rattle.hc_incoming.specs.Counts.{count_of};
    ghost use Rattle.hc_incoming.specs.Requests.{IsRequest, IsUnfinished};
    ghost use Rattle.hc_incoming.specs.RequestReading.{WasGiven, CanRead, FindsRequest, GivesEnd, GivesNext, HasRead, HasUnread, ReadsOn, TakesSome, unread};
    ghost use Rattle.hc_incoming.specs.RequestParts.{GivesTest, HasEnded, HasGoneOn, HasMet};

    /// A reader of a connection that has just opened.
    pub fn new(alloc: Global) -> Self
        ensures unread { HasUnread result [] }
        ensures can { CanRead result }
    {
        RequestReader {
            alloc,
            reader: MessageReader::new(alloc, Kind::Request, Room::RECEIVED),
            target: None,
            waits: Waiting::new(alloc),
            heard: 0,
        }
    }

    /// Takes in the next octets, which wait until they are read.
    pub fn hear(&mut self, piece: &[u8]) -> Result<(), AllocError>
        ensures agrees { (octets : List ℕ) → WasGiven self.old octets
            → OnOk result (WasGiven self.new (octets ++ piece.now)) }
        ensures unread { OnOk result (unread self.new ≡ unread self.old ++ piece.now) }
        ensures can { CanRead self.old → CanRead self.new }
        ensures err { OnErr result (self.new ≡ self.old) }
    {
        self.waits.push(piece)?;
        self.heard = self.heard.saturating_add(piece.len());
        Ok(())
    }

    /// How many octets were heard behind the last whole request, whether they were read or wait.
    pub fn heard(&self) -> usize
        ensures { (octets : List ℕ) → WasGiven self.now octets → result ≡ count_of octets }
    {
        self.heard
    }

    /// How many octets were heard and not yet read.
    pub fn unread(&self) -> usize
        ensures { result ≡ length (unread self.now) }
    {
        self.waits.as_slice().len()
    }

    /// Drops the octets that wait.
    pub fn drop_unread(&mut self)
        ensures agrees { (octets : List ℕ) → HasUnread self.old octets → HasUnread self.new [] }
        ensures unread { unread self.new ≡ [] }
        ensures can { CanRead self.old → CanRead self.new }
    {
        self.waits.clear();
        self.heard = 0;
    }

    /// Reads the next request of the octets that wait. `More` leaves none of them unread; behind a
    /// request the rest waits.
    pub fn next(&mut self) -> Result<RequestArrival, AllocError>
        requires { CanRead self.old }
        // Each result stands only where it says so, whatever the pieces before were.
        ensures gives { (octets : List ℕ) → WasGiven self.old octets → GivesNext result self.new octets }
        // A whole request that is there is found, unless memory runs out.
        ensures found { (octets : List ℕ) (message : Message RequestHead) (target : Target) (len : ℕ)
            → WasGiven self.old octets → IsRequest octets message target len → FindsRequest result message target }
        // A request takes some of the octets that wait.
        ensures shrinks { TakesSome result self.old self.new }
        // It can be asked again, unless it refused the octets or memory ran out.
        ensures can { ReadsOn result self.new }
    {
        match self.reader.feed(self.waits.as_slice()) {
            Err(fault) => self.refuse(fault),
            Ok(Progress::More) => self.go_on(),
            Ok(Progress::Whole(used)) => self.take_request(used),
        }
    }

    /// Tests the head, once it has come: why it is refused, if it fails a test.
    fn test(&mut self) -> Result<Option<Trouble>, AllocError>
        ensures { GivesTest result self.old self.new }
    {
        if self.target.is_some() {
            return Ok(None);
        }
        let Some(head) = self.reader.head() else {
            return Ok(None);
        };
        match test_head(self.alloc, head)? {
            Tested::Refused(trouble) => Ok(Some(trouble)),
            Tested::Served(target) => {
                self.target = Some(target);
                Ok(None)
            }
        }
    }

    /// Refuses the octets for a fault; the tests of the head come before the faults of the body.
    fn refuse(&mut self, fault: FrameFault) -> Result<RequestArrival, AllocError>
        ensures gives { (octets : List ℕ) → HasMet self.old fault octets → GivesNext result self.new octets }
        ensures shrinks { TakesSome result self.old self.new }
        ensures can { ReadsOn result self.new }
    {
        let fault = unless_memory(fault)?;
        match self.test()? {
            Some(trouble) => Ok(RequestArrival::Refused(trouble)),
            None => Ok(RequestArrival::Refused(trouble_of(fault))),
        }
    }

    /// Goes on, unless the head fails a test.
    fn go_on(&mut self) -> Result<RequestArrival, AllocError>
        requires { CanRead self.old }
        ensures gives { (octets : List ℕ) → HasGoneOn self.old octets → GivesNext result self.new octets }
        ensures shrinks { TakesSome result self.old self.new }
        ensures can { ReadsOn result self.new }
    {
        self.waits.clear();
        match self.test()? {
            Some(trouble) => Ok(RequestArrival::Refused(trouble)),
            None => Ok(RequestArrival::More),
        }
    }

    /// Takes out the request that ends with so many of the octets that wait, unless its head fails a
    /// test.
    fn take_request(&mut self, used: usize) -> Result<RequestArrival, AllocError>
        requires has { HasMessage self.old.reader }
        requires some { 0 < used }
        requires within { used ≤ length (unread self.old) }
        ensures gives { (octets : List ℕ) → HasEnded self.old used octets → GivesNext result self.new octets }
        ensures shrinks { TakesSome result self.old self.new }
        ensures can { ReadsOn result self.new }
    {
        match self.test()? {
            Some(trouble) => Ok(RequestArrival::Refused(trouble)),
            None => {
                self.waits.skip(used);
                self.heard = self.unread();
                let target = self.target.take().unwrap();
                let next = MessageReader::new(self.alloc, Kind::Request, Room::RECEIVED);
                let reader = mem::replace(&mut self.reader, next);
                Ok(RequestArrival::Request(reader.take(), target))
            }
        }
    }

    /// Says that the client sends no more: why what came is refused by a last reply, or that there is none. A request
    /// that waits whole is given up.
    pub fn end(&mut self) -> Result<Option<Trouble>, AllocError>
        requires { CanRead self.old }
        // Each result stands only where it says so.
        ensures gives { (octets : List ℕ) → WasGiven self.old octets → GivesEnd result octets }
    {
        let arrival = self.next()?;
        if arrival.is_more() {
            return self.close();
        }
        Ok(arrival.refusal())
    }

    /// Gives up what has begun, or refuses it where no head can come of it.
    fn close(&mut self) -> Result<Option<Trouble>, AllocError>
        requires { CanRead self.old }
        ensures gives { (octets : List ℕ) → IsUnfinished octets → HasRead self.old octets → GivesEnd result octets }
    {
        match self.reader.end() {
            Ok(_) => Ok(None),
            Err(fault) => Ok(last_trouble(unless_memory(fault)?)),
        }
    }
}
