//! A world in memory, as a crowd sees it.

use crate::play::Play;
use crate::strand::Strand;
use hc_crowd::{Accepted, Ready, World};
use hc_order::Receiver;
use std::cell::RefCell;
use std::time::Duration;

/// A world in memory, as a crowd sees it.
#[derive(Clone, Copy)]
pub struct Made<'a> {
    /// The world behind it.
    pub play: &'a RefCell<Play>,
}

impl<'a> Made<'a> {
    fn strand(&self, link: Receiver) -> Strand<'a> {
        Strand {
            link,
            play: self.play,
        }
    }

    /// Whether the system has a place for a further link.
    fn has_place(&self) -> bool {
        match self.play.try_borrow() {
            Ok(play) => play.has_place(),
            Err(_) => false,
        }
    }

    /// Who has connected is accepted, as the guest of that number. Returns the link, if anybody has.
    fn accepts(&self, guest: u64) -> Option<Receiver> {
        match self.play.try_borrow_mut() {
            Ok(mut play) => play.accept(guest),
            Err(_) => None,
        }
    }

    /// Whether a link to the origin begins to be made.
    fn connects(&self, forward: u64, attempt: u32) -> bool {
        match self.play.try_borrow_mut() {
            Ok(mut play) => play.connect(forward, attempt),
            Err(_) => false,
        }
    }
}

impl<'a> World for Made<'a> {
    type Stream = Strand<'a>;

    fn wait(&mut self, most: u64) {
        if let Ok(mut play) = self.play.try_borrow_mut() {
            play.wait(most);
        }
    }

    fn ready(&mut self) -> Option<Ready> {
        match self.play.try_borrow_mut() {
            Ok(mut play) => play.ready(),
            Err(_) => None,
        }
    }

    fn accept(&mut self, guest: u64) -> Accepted<Strand<'a>> {
        if !self.has_place() {
            return Accepted::Full;
        }
        match self.accepts(guest) {
            Some(link) => Accepted::Client(self.strand(link)),
            None => Accepted::Later,
        }
    }

    fn ask_for_clients(&mut self) -> bool {
        match self.play.try_borrow_mut() {
            Ok(mut play) => play.ask_for_clients(),
            Err(_) => false,
        }
    }

    fn rename(&mut self, stream: &mut Strand<'a>, number: u64) -> bool {
        match self.play.try_borrow_mut() {
            Ok(mut play) => play.rename(stream.link, number),
            Err(_) => false,
        }
    }

    fn connect(&mut self, forward: u64, attempt: u32) -> Option<Strand<'a>> {
        if !self.connects(forward, attempt) {
            return None;
        }
        Some(self.strand(Receiver::Origin(forward)))
    }

    fn wall(&self) -> Option<Duration> {
        match self.play.try_borrow() {
            Ok(play) => play.wall(),
            Err(_) => None,
        }
    }

    fn monotonic(&self) -> Duration {
        Duration::from_millis(self.tick())
    }

    fn tick(&self) -> u64 {
        match self.play.try_borrow() {
            Ok(play) => play.tick,
            Err(_) => 0,
        }
    }

    fn stops(&mut self) -> bool {
        match self.play.try_borrow() {
            Ok(play) => play.stops,
            Err(_) => true,
        }
    }

    fn stop_listening(&mut self) {
        if let Ok(mut play) = self.play.try_borrow_mut() {
            play.listens = false;
        }
    }
}
