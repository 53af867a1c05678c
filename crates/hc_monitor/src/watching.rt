//! The link of one who watches over a proxy.

use crate::asking::{Wanted, wanted_by};
use crate::board::Board;
use crate::replying::{Body, reply};
use mio::net::TcpStream;
use std::alloc::Global;
use std::io::{ErrorKind, Read, Write};
use std::net::Shutdown;

/// So many octets a request may have.
const MOST_OCTETS: usize = 8_192;

/// So many octets are read at once.
const PIECE: usize = 1_024;

/// So often something is read or written at once.
const TURNS: usize = 1_024;

/// How far one who watches is.
#[derive(Clone, Copy, PartialEq, Eq)]
enum WatchStage {
    /// The request comes.
    Asks,
    /// The numbers are awaited.
    Awaits,
    /// The reply is written.
    Told,
    /// It was: what comes is dropped, until nothing more does.
    Ended,
}

/// What came of reading or writing.
#[derive(Clone, Copy, PartialEq, Eq)]
enum Turn {
    /// Something passed.
    Passed,
    /// Nothing does now.
    Later,
    /// Nothing will.
    Over,
}

/// The link of one who watches over a proxy.
pub struct Watching {
    alloc: Global,
    stream: TcpStream,
    stage: WatchStage,
    /// What came of the request.
    heard: Vec<u8>,
    /// The reply, and how many octets of it were written.
    reply: Vec<u8>,
    sent: usize,
}

impl Drop for Watching {
    fn drop(self) {
        let Watching {
            alloc: _,
            stream,
            stage: _,
            heard,
            reply,
            sent: _,
        } = self;
        drop(stream);
        drop(heard);
        drop(reply);
    }
}

impl Watching {
    /// One who has connected.
    pub fn new(alloc: Global, stream: TcpStream) -> Self {
        Watching {
            alloc,
            stream,
            stage: WatchStage::Asks,
            heard: Vec::new(alloc),
            reply: Vec::new(alloc),
            sent: 0,
        }
    }

    /// Whether the numbers are awaited.
    pub fn awaits(&self) -> bool {
        self.stage == WatchStage::Awaits
    }

    /// Something became ready. Returns whether the link is of use still.
    pub fn go_on(&mut self, board: &Board, serves: bool) -> bool {
        'turns: for _ in 0..TURNS {
            let turn = match self.stage {
                WatchStage::Asks => self.hear(board, serves),
                WatchStage::Awaits => Turn::Later,
                WatchStage::Told => self.write(),
                WatchStage::Ended => self.drop_rest(),
            };
            match turn {
                Turn::Passed => {}
                Turn::Later => return true,
                Turn::Over => return false,
            }
        }
        false
    }

    /// Reads a piece of the request, and answers it once its head is whole.
    fn hear(&mut self, board: &Board, serves: bool) -> Turn {
        let mut piece = [0; PIECE];
        match self.stream.read(&mut piece) {
            Ok(0) => Turn::Over,
            Ok(count) => self.take_in(&piece[..count], board, serves),
            Err(error) if error.kind() == ErrorKind::WouldBlock => Turn::Later,
            Err(_) => Turn::Over,
        }
    }

    /// A piece of the request came.
    fn take_in(&mut self, piece: &[u8], board: &Board, serves: bool) -> Turn {
        if self.heard.extend_from_slice(piece).is_err() {
            return Turn::Over;
        }
        match wanted_by(self.heard.as_slice()) {
            Wanted::More if self.heard.len() < MOST_OCTETS => Turn::Passed,
            Wanted::More => self.tell(Body::Fixed(Wanted::Broken)),
            Wanted::Metrics => {
                self.stage = WatchStage::Awaits;
                board.ask();
                Turn::Later
            }
            Wanted::Health => self.tell(Body::Health(serves)),
            wanted => self.tell(Body::Fixed(wanted)),
        }
    }

    /// That is replied from now on.
    fn tell(&mut self, body: Body<'_>) -> Turn {
        match reply(self.alloc, body) {
            Ok(reply) => {
                self.reply = reply;
                self.stage = WatchStage::Told;
                Turn::Passed
            }
            Err(_) => Turn::Over,
        }
    }

    /// Replies that, where the numbers are awaited.
    pub fn answer_if_awaiting(&mut self, body: Body<'_>) {
        if self.stage != WatchStage::Awaits {
            return;
        }
        match self.tell(body) {
            Turn::Passed => {
                let _ = self.write();
            }
            // The other side waits no longer than it wants to.
            _ => self.stage = WatchStage::Ended,
        }
    }

    /// Writes of the reply what the link takes.
    fn write(&mut self) -> Turn {
        match self
            .stream
            .write(&self.reply[self.sent.min(self.reply.len())..])
        {
            Ok(count) => {
                self.sent = self.sent.saturating_add(count);
                self.end_if_sent();
                Turn::Passed
            }
            Err(error) if error.kind() == ErrorKind::WouldBlock => Turn::Later,
            Err(_) => Turn::Over,
        }
    }

    /// Ends what is written, behind the reply.
    fn end_if_sent(&mut self) {
        if self.sent < self.reply.len() {
            return;
        }
        self.stage = WatchStage::Ended;
        // Where the other side has gone, nobody waits for the end.
        let _ = self.stream.shutdown(Shutdown::Write);
    }

    /// Drops what comes.
    fn drop_rest(&mut self) -> Turn {
        let mut piece = [0; PIECE];
        match self.stream.read(&mut piece) {
            Ok(0) => Turn::Over,
            Ok(_) => Turn::Passed,
            Err(error) if error.kind() == ErrorKind::WouldBlock => Turn::Later,
            Err(_) => Turn::Over,
        }
    }
}
