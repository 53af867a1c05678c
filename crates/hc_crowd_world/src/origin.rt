//! What the origin does.

use crate::cues::Cues;
use crate::deeds::{Act, Deed};
use crate::dice::Dice;
use crate::schedules::text_at;
use crate::script::{ALL, Line, Script};
use crate::within::has_within;
use hc_order::Receiver;
use std::alloc::{AllocError, Global};
use std::fmt::Write;
use std::mem;

/// The largest body that is made by chance.
const LARGEST: u64 = 150_000;

impl Script {
    /// How many octets the origin takes at first, and how many at once at most.
    pub(crate) fn room_at_origin(&mut self) -> (usize, usize) {
        if !self.drawn {
            return (self.origin_room, usize::MAX);
        }
        let most = self.dice.up_to(100) as usize;
        if self.dice.once_in(8) {
            return (self.dice.below(60) as usize, most);
        }
        (ALL, most)
    }

    /// What the origin does behind the beginning of a link.
    pub(crate) fn plan(&mut self, tick: u64, forward: u64, attempt: u32) -> Result<(), AllocError> {
        if self.drawn {
            return self.put_link(tick, forward);
        }
        put_lines(
            &mut self.cues,
            tick,
            self.lines.as_mut_slice(),
            forward,
            attempt,
        )
    }

    /// By chance a link is never made, is refused, or is made, and the forward is answered.
    fn put_link(&mut self, tick: u64, forward: u64) -> Result<(), AllocError> {
        let link = Receiver::Origin(forward);
        if self.dice.once_in(24) {
            return Ok(());
        }
        let made = tick.saturating_add(self.dice.below(40));
        if self.dice.once_in(16) {
            return self.cues.act(made, link, Act::Resets);
        }
        let takes = made.saturating_add(self.dice.below(500));
        let pause = if self.dice.once_in(3) { 2_000 } else { 60 };
        let answers = made.saturating_add(self.dice.below(pause));
        self.cues.act(made, link, Act::Made)?;
        self.cues.act(takes, link, Act::Takes(ALL))?;
        self.cues.put(answers, Deed::Answers(forward))
    }

    /// The origin answers a forward by chance, in pieces, and then mostly ends.
    pub(crate) fn answer(
        &mut self,
        tick: u64,
        forward: u64,
        conditional: bool,
    ) -> Result<(), AllocError> {
        let text = self.text_of_answer(conditional)?;
        let given = cut(&mut self.dice, text.as_slice());
        let link = Receiver::Origin(forward);
        let behind = self.say_in_pieces(tick, link, given)?;
        self.put_end_of_answer(behind, link)
    }

    /// An answer by chance: as it stands, or, where it has no empty line, with a body.
    fn text_of_answer(&mut self, conditional: bool) -> Result<Vec<u8>, AllocError> {
        let place = if conditional && !self.dice.once_in(3) {
            0
        } else {
            self.dice.below(self.answers.len() as u64)
        };
        let text = Vec::from_slice(self.alloc, text_at(self.answers.as_slice(), place))?;
        if has_within(text.as_slice(), b"\r\n\r\n") {
            return Ok(text);
        }
        let most = if self.dice.once_in(12) { LARGEST } else { 300 };
        with_body(self.alloc, text, self.dice.below(most))
    }

    /// The origin mostly ends the link, or it fails.
    fn put_end_of_answer(&mut self, tick: u64, link: Receiver) -> Result<(), AllocError> {
        match self.dice.below(8) {
            0 => self.cues.act(tick, link, Act::Resets),
            1 => self.cues.act(tick, link, Act::Breaks),
            2 if !self.calm => Ok(()),
            _ => self.cues.act(tick, link, Act::Ends),
        }
    }
}

/// Those lines are put among the cues that are of that link.
fn put_lines(
    cues: &mut Cues,
    tick: u64,
    lines: &mut [Line],
    forward: u64,
    attempt: u32,
) -> Result<(), AllocError> {
    'lines: for line in lines.iter_mut() {
        if line.forward == forward && line.attempt == attempt {
            let act = mem::replace(&mut line.act, Act::Stirs);
            let behind = tick.saturating_add(line.delay);
            cues.act(behind, Receiver::Origin(forward), act)?;
        }
    }
    Ok(())
}

/// The text, and behind it a body of so many octets.
fn with_body(alloc: Global, mut text: Vec<u8>, size: u64) -> Result<Vec<u8>, AllocError> {
    let line = format!(in alloc; "content-length: {size}\r\n\r\n")?;
    text.extend_from_slice(line.as_bytes())?;
    'octets: for place in 0..size {
        text.push(b'a' + (place % 26) as u8)?;
    }
    Ok(text)
}

/// A text, or by chance a beginning of it.
fn cut<'a>(dice: &mut Dice, text: &'a [u8]) -> &'a [u8] {
    if !dice.once_in(16) {
        return text;
    }
    let count = dice.below(text.len() as u64) as usize;
    let (front, _) = text.split_at(count.min(text.len()));
    front
}
