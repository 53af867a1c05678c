//! What is counted of a world.

use crate::standing::Standing;
use hc_crowd::Limits;
use hc_order::Receiver;

/// The most who are turned away at once.
const MOST_TURNED_AWAY: usize = 64;

/// What is counted of a world.
#[derive(Clone, Copy)]
pub struct Tally {
    /// How many clients have connected.
    pub connected: u64,
    /// How many of them were accepted.
    pub accepted: u64,
    /// How many links there are now to clients who weren't turned away.
    pub clients: usize,
    /// How many there are to those who were.
    pub turned_away: usize,
    /// How many links there are to the origin now.
    pub origins: usize,
    /// Whether there ever were more than the limits allow.
    pub beyond: bool,
    /// How many deeds were for a link that isn't there.
    pub missed: u64,
    /// Whether memory was refused.
    pub broken: bool,
}

impl Tally {
    /// Nothing has happened.
    pub(crate) fn new() -> Self {
        Tally {
            connected: 0,
            accepted: 0,
            clients: 0,
            turned_away: 0,
            origins: 0,
            beyond: false,
            missed: 0,
            broken: false,
        }
    }

    /// How many links there are now to such as stand so, if those are counted.
    fn count(&mut self, standing: Standing) -> Option<&mut usize> {
        match standing {
            Standing::Waits => None,
            Standing::Guest(_) => Some(&mut self.clients),
            Standing::TurnedAway(_) => Some(&mut self.turned_away),
            Standing::Linked(Receiver::Client(_)) => Some(&mut self.clients),
            Standing::Linked(Receiver::Origin(_)) => Some(&mut self.origins),
        }
    }

    /// One who stood so stands otherwise now. Who has no link any more stands as who waits.
    pub(crate) fn changes(&mut self, before: Standing, now: Standing) {
        if let Some(count) = self.count(before) {
            *count = count.saturating_sub(1);
        }
        if let Some(count) = self.count(now) {
            *count = count.saturating_add(1);
        }
    }

    /// How many links there are now.
    pub(crate) fn links(&self) -> usize {
        self.clients
            .saturating_add(self.turned_away)
            .saturating_add(self.origins)
    }

    /// Looks whether there are more links than the limits allow.
    pub(crate) fn check(&mut self, limits: Limits) {
        if self.clients > limits.connections
            || self.turned_away > MOST_TURNED_AWAY
            || self.origins > limits.origin_connections
        {
            self.beyond = true;
        }
    }
}
