//! What a world in memory is to do.

use crate::cues::Cues;
use crate::deeds::Act;
use crate::dice::Dice;
use hc_crowd::{Limits, Patience};
use std::alloc::Global;

/// More octets than a link ever takes.
pub(crate) const ALL: usize = 1_000_000_000;

/// The wall clock's second at the start of schedules.
pub(crate) const START: u64 = 1_000;

/// What bounds the crowd, where no schedule says otherwise.
pub(crate) const USUAL: Limits = Limits {
    connections: 50,
    origin_connections: 10,
    held: 268_435_456,
    patience: Patience {
        idle_timeout: 75_000,
        request_timeout: 60_000,
        send_timeout: 60_000,
        origin_timeout: 60_000,
        origin_total: 600_000,
    },
    queue_timeout: 5_000,
    connect_timeout: 5_000,
    abandoned: 5_000,
    drain_timeout: 8_000,
    clients: None,
};

/// What the origin does for a forward, so many milliseconds behind the beginning of its link.
pub(crate) struct Line {
    /// That forward.
    pub(crate) forward: u64,
    /// The how-manieth link of that forward it is, from 0 on.
    pub(crate) attempt: u32,
    /// So many milliseconds.
    pub(crate) delay: u64,
    /// That is done.
    pub(crate) act: Act,
}

impl Drop for Line {
    fn drop(self) {
        let Line {
            forward: _,
            attempt: _,
            delay: _,
            act,
        } = self;
        drop(act);
    }
}

/// What a world in memory is to do. Clients are numbered in the order in which they connect.
pub struct Script {
    pub(crate) alloc: Global,
    /// What bounds the crowd.
    pub limits: Limits,
    /// Behind so many writes the recorder fails.
    pub writes: u64,
    /// Behind so many clients the system lets no further guest be known as a client.
    pub(crate) names: u64,
    /// The wall clock's second at the start.
    pub(crate) wall: Option<u64>,
    /// How many nanoseconds of that second have passed by then.
    pub(crate) part: u64,
    /// How many addresses the origin has.
    pub(crate) addresses: u64,
    /// What is to be done, and when.
    pub(crate) cues: Cues,
    /// What the origin does, in any order of forwards; each line once.
    pub(crate) lines: Vec<Line>,
    /// Whether all comes by chance, also what the origin does.
    pub(crate) drawn: bool,
    /// What that comes by.
    pub(crate) dice: Dice,
    /// What the origin answers then; the first one is for conditional requests.
    pub(crate) answers: Vec<Vec<u8>>,
    /// What clients take at first.
    pub(crate) room: usize,
    /// What the origin takes at first, unless that comes by chance.
    pub(crate) origin_room: usize,
    /// Whether all clients who aren't turned away are to be served to their ends.
    pub calm: bool,
}

impl Drop for Script {
    fn drop(self) {
        let Script {
            alloc: _,
            limits: _,
            writes: _,
            names: _,
            wall: _,
            part: _,
            addresses: _,
            cues,
            lines,
            drawn: _,
            dice: _,
            answers,
            room: _,
            origin_room: _,
            calm: _,
        } = self;
        drop(cues);
        drop(lines);
        drop(answers);
    }
}

impl Script {
    /// One in which nothing happens.
    pub(crate) fn new(alloc: Global, seed: u64, answers: Vec<Vec<u8>>) -> Self {
        Script {
            alloc,
            limits: USUAL,
            writes: u64::MAX,
            names: u64::MAX,
            wall: Some(START),
            part: 0,
            addresses: 1,
            cues: Cues::new(alloc),
            lines: Vec::new(alloc),
            drawn: false,
            dice: Dice::of(seed),
            answers,
            room: ALL,
            origin_room: ALL,
            calm: false,
        }
    }
}
