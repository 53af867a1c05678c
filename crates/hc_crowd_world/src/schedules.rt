//! Schedules by chance.

use crate::deeds::{Act, Deed};
use crate::dice::Dice;
use crate::script::{ALL, START, Script, USUAL};
use hc_crowd::{Limits, Patience};
use hc_order::Receiver;
use std::alloc::{AllocError, Global};

/// So many milliseconds behind the last client of a calm schedule, all clients have been served.
const LATE: u64 = 4_000_000;

/// The second behind the year 9999.
const TOO_LATE: u64 = 253_402_300_800;

/// The schedule of a seed: clients say some of those requests, and the origin gives some of those answers, of which the
/// first one is for conditional requests. One that has no empty line gets a body by chance.
pub fn script_of(
    alloc: Global,
    seed: u64,
    requests: &[Vec<u8>],
    answers: Vec<Vec<u8>>,
) -> Result<Script, AllocError> {
    let mut script = Script::new(alloc, seed, answers);
    script.draw(requests)?;
    Ok(script)
}

/// In calm schedules whoever isn't turned away is served to the end, and nothing stops that: all who connect are served, or
/// a stop comes long behind all, nobody is cut off, and nobody takes too long.
fn limits_by(dice: &mut Dice, calm: bool, count: u64) -> Limits {
    let clients = clients_by(dice, calm, count);
    let connections = dice.mostly(4, 50, 20);
    // Where all have to be served, there is room for all: so nobody gives way.
    let least = if calm { count } else { 1 };
    let usual = if calm {
        Limits {
            queue_timeout: u64::MAX,
            ..USUAL
        }
    } else {
        narrow_limits_by(dice)
    };
    Limits {
        connections: connections.max(least) as usize,
        origin_connections: dice.up_to(12) as usize,
        connect_timeout: dice.timeout(3_000),
        abandoned: dice.timeout(6_000),
        drain_timeout: dice.below(4_000),
        clients,
        ..usual
    }
}

fn clients_by(dice: &mut Dice, calm: bool, count: u64) -> Option<u64> {
    if calm && dice.once_in(2) {
        return Some(count);
    }
    if !calm && dice.once_in(8) {
        return Some(dice.up_to(20));
    }
    None
}

fn narrow_limits_by(dice: &mut Dice) -> Limits {
    let patience = Patience {
        idle_timeout: dice.timeout(8_000),
        request_timeout: dice.timeout(8_000),
        send_timeout: dice.timeout(8_000),
        origin_timeout: dice.timeout(4_000),
        origin_total: dice.timeout(9_000),
    };
    let held = if dice.once_in(3) {
        dice.mostly(3, 1_000, 30_000)
    } else {
        USUAL.held
    };
    Limits {
        patience,
        held,
        queue_timeout: dice.timeout(4_000),
        ..USUAL
    }
}

impl Script {
    /// Draws all that happens.
    fn draw(&mut self, requests: &[Vec<u8>]) -> Result<(), AllocError> {
        self.drawn = true;
        self.calm = self.dice.once_in(3);
        let count = self.dice.mostly(3, 8, 50);
        self.limits = limits_by(&mut self.dice, self.calm, count);
        let last = self.put_clients(count, requests)?;
        self.put_clocks(last)?;
        self.put_places(last)?;
        self.put_stop(last)?;
        self.draw_system();
        Ok(())
    }

    /// Draws how clocks, links and the recorder are.
    fn draw_system(&mut self) {
        let is_slow = self.dice.once_in(3);
        let fails = self.dice.once_in(8) && !self.calm;
        let refuses = self.dice.once_in(16) && !self.calm;
        if self.dice.once_in(24) {
            self.wall = None;
        }
        self.addresses = self.dice.up_to(2);
        if fails {
            self.writes = self.dice.below(60);
        }
        if refuses {
            self.names = self.dice.below(20);
        }
        if is_slow {
            self.room = self.dice.below(400) as usize;
        }
    }

    /// Whether none of the clients only connects.
    fn all_speak(&self) -> bool {
        self.limits.clients.is_some()
    }

    /// A stop, mostly behind all. In a calm schedule it comes long behind all, where clients are served until one is asked.
    fn put_stop(&mut self, last: u64) -> Result<(), AllocError> {
        if self.calm && self.all_speak() {
            return Ok(());
        }
        let tick = if self.calm {
            last.saturating_add(LATE)
        } else if self.dice.once_in(4) {
            self.dice.below(last)
        } else {
            last.saturating_add(self.dice.below(9_000))
        };
        self.cues.put(tick, Deed::Stops)
    }

    /// What clients do. Returns the last millisecond of all.
    fn put_clients(&mut self, count: u64, requests: &[Vec<u8>]) -> Result<u64, AllocError> {
        let pause = self.dice.scale();
        let mut tick = 0u64;
        let mut last = 0u64;
        'clients: for place in 0..count {
            tick = tick.saturating_add(self.dice.below(pause));
            let link = Receiver::Client(place.saturating_add(1));
            last = last.max(self.put_client(tick, link, requests)?);
        }
        Ok(last)
    }

    /// A client connects then, says some requests, or nothing, and ends, or resets its link, or stays.
    /// Returns the last millisecond.
    fn put_client(
        &mut self,
        tick: u64,
        link: Receiver,
        requests: &[Vec<u8>],
    ) -> Result<u64, AllocError> {
        self.cues.put(tick, Deed::Connects(1))?;
        let pause = if self.dice.once_in(6) { 3_000 } else { 30 };
        let begins = tick.saturating_add(self.dice.below(pause));
        let behind = self.put_requests(begins, link, requests)?;
        self.put_rooms(begins, link)?;
        self.put_end(behind, link)?;
        Ok(behind)
    }

    /// What a client says, if anything. Returns the last millisecond.
    fn put_requests(
        &mut self,
        tick: u64,
        link: Receiver,
        requests: &[Vec<u8>],
    ) -> Result<u64, AllocError> {
        if self.dice.once_in(8) && !self.all_speak() {
            return Ok(tick);
        }
        let text = self.some_of(requests)?;
        self.say_in_pieces(tick, link, text.as_slice())
    }

    /// Some of those requests, one behind another.
    fn some_of(&mut self, requests: &[Vec<u8>]) -> Result<Vec<u8>, AllocError> {
        let mut text = Vec::new(self.alloc);
        'requests: for _ in 0..self.dice.up_to(6) {
            let place = self.dice.below(requests.len() as u64);
            text.extend_from_slice(text_at(requests, place))?;
        }
        Ok(text)
    }

    fn put_end(&mut self, behind: u64, link: Receiver) -> Result<(), AllocError> {
        if self.calm {
            return self.cues.act(behind, link, Act::Ends);
        }
        let later = behind.saturating_add(self.dice.below(100));
        match self.dice.below(12) {
            0 => self.cues.act(later, link, Act::Resets),
            1 => self.cues.act(later, link, Act::Breaks),
            2 | 3 | 4 | 5 | 6 => self.cues.act(behind, link, Act::Ends),
            _ => Ok(()),
        }
    }

    /// A client takes some octets now and then, and mostly all in the end.
    fn put_rooms(&mut self, from: u64, link: Receiver) -> Result<(), AllocError> {
        let mut tick = from;
        'rooms: for _ in 0..self.dice.below(5) {
            tick = tick.saturating_add(self.dice.below(800));
            let count = self.dice.below(3_000) as usize;
            self.cues.act(tick, link, Act::Takes(count))?;
        }
        if self.dice.once_in(6) && !self.calm {
            return Ok(());
        }
        self.cues.act(tick, link, Act::Takes(ALL))
    }

    /// Clocks are set, and stand still.
    fn put_clocks(&mut self, last: u64) -> Result<(), AllocError> {
        'clocks: for _ in 0..self.dice.below(5) {
            let tick = self.dice.below(last);
            let deed = match self.dice.below(6) {
                0 => Deed::Wall(None),
                1 => Deed::Wall(Some(self.dice.below(START))),
                2 => Deed::Wall(Some(TOO_LATE)),
                3 => Deed::Sleeps(self.dice.below(20_000)),
                _ => Deed::Wall(Some(self.dice.below(100).saturating_add(START))),
            };
            self.cues.put(tick, deed)?;
        }
        Ok(())
    }

    /// The system has few places for links for a while, unless all is calm.
    fn put_places(&mut self, last: u64) -> Result<(), AllocError> {
        if self.calm || !self.dice.once_in(4) {
            return Ok(());
        }
        let tick = self.dice.below(last);
        let count = self.dice.below(10) as usize;
        let behind = tick.saturating_add(self.dice.below(3_000));
        self.cues.put(tick, Deed::Places(count))?;
        self.cues.put(behind, Deed::Places(ALL))
    }

    /// The other side of a link says the text in pieces by chance. Returns the last millisecond.
    pub(crate) fn say_in_pieces(
        &mut self,
        from: u64,
        link: Receiver,
        text: &[u8],
    ) -> Result<u64, AllocError> {
        let most = most_by(&mut self.dice, text.len());
        let pause = if self.dice.once_in(2) {
            1
        } else {
            self.dice.scale()
        };
        let mut tick = from;
        let mut rest = text;
        'pieces: for _ in 0..text.len() {
            if rest.is_empty() {
                return Ok(tick);
            }
            let count = self.dice.up_to(most) as usize;
            let (piece, behind) = rest.split_at(count.min(rest.len()));
            let says = Act::Says(Vec::from_slice(self.alloc, piece)?);
            self.cues.act(tick, link, says)?;
            tick = tick.saturating_add(self.dice.below(pause));
            rest = behind;
        }
        Ok(tick)
    }
}

/// The text at a place, or an empty one.
pub(crate) fn text_at(texts: &[Vec<u8>], place: u64) -> &[u8] {
    match texts.get(place as usize) {
        Some(text) => text.as_slice(),
        None => b"",
    }
}

/// Pieces of a text of that length have so many octets at most.
fn most_by(dice: &mut Dice, length: usize) -> u64 {
    if length > 2_000 {
        return 100_000;
    }
    match dice.below(4) {
        0 => 8,
        1 => 60,
        _ => 3_000,
    }
}
