//! A cache that is asked what it awaits.

ghost use Rattle.hc_drive.specs.Rounds.{awaited_by, background_by, clients_by, held_by, needed_by};

use hc_core::Core;
use hc_head::Target;
use hc_links::Awaiting;
use hc_order::Receiver;
use hc_service::{Incident, Stock};
use std::alloc::AllocError;
use std::hash::BuildHasher;

/// A cache, as whoever hears what happens next may ask it.
#[derive(Drop)]
pub(crate) struct Asked<'a, S: BuildHasher> {
    pub(crate) core: &'a Core<S>,
}

impl<'a, S: BuildHasher> Awaiting for Asked<'a, S> {
    ghost awaited = { λ asked. awaited_by asked.core.now };

    ghost background = { λ asked. background_by asked.core.now };

    ghost needed = { λ asked. needed_by asked.core.now };

    ghost clients = { λ asked. clients_by asked.core.now };

    ghost holds = { λ asked. held_by asked.core.now };

    fn awaits(&self, connection: u64) -> bool {
        self.core.awaits(connection)
    }

    fn is_background(&self, forward: u64) -> bool {
        self.core.is_background(forward)
    }

    fn is_needed(&self, forward: u64) -> bool {
        self.core.is_needed(forward)
    }

    fn clients_of(&self, forward: u64) -> Result<Vec<u64>, AllocError> {
        self.core.clients_of(forward)
    }

    fn target_of(&self, forward: u64) -> Option<&Target> {
        self.core.target_of(forward)
    }

    fn incidents(&self) -> &[Incident] {
        self.core.incidents()
    }

    fn stock(&self) -> Stock {
        self.core.stock()
    }

    fn held(&self, link: Receiver) -> usize {
        match link {
            Receiver::Client(connection) => self.core.held_of_client(connection),
            Receiver::Origin(forward) => self.core.held_of_forward(forward),
        }
    }
}
