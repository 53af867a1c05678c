//! Links of a world in memory.

use crate::play::Play;
use hc_flow::{Arrival, Presence, Stream, Uptake};
use hc_order::Receiver;
use std::cell::RefCell;

/// A link of a world in memory. That of a client is known by when it connected, among all clients.
pub struct Strand<'a> {
    pub(crate) link: Receiver,
    pub(crate) play: &'a RefCell<Play>,
}

impl<'a> Drop for Strand<'a> {
    fn drop(self) {
        let Strand { link, play } = self;
        if let Ok(mut play) = play.try_borrow_mut() {
            play.let_go(link);
        }
    }
}

impl<'a> Stream for Strand<'a> {
    // What a cell holds no clause can know.
    ghost has_given = { λ _ _. Unit {0} };

    ghost has_got = { λ _ _. Unit {0} };

    fn read(&mut self, buffer: &mut [u8]) -> Arrival {
        match self.play.try_borrow_mut() {
            Ok(mut play) => play.read(self.link, buffer),
            Err(_) => Arrival::Failed,
        }
    }

    fn peek(&self) -> Presence {
        match self.play.try_borrow() {
            Ok(play) => play.peek(self.link),
            Err(_) => Presence::Over,
        }
    }

    fn write(&mut self, front: &[u8], rest: &[u8]) -> Uptake {
        match self.play.try_borrow_mut() {
            Ok(mut play) => play.write(self.link, front, rest),
            Err(_) => Uptake::Failed,
        }
    }

    fn end(&mut self) {
        if let Ok(mut play) = self.play.try_borrow_mut() {
            play.end(self.link);
        }
    }
}
