//! Those who connect: each is a guest, and then a client of the cache, or is turned away.

use crate::deeds::{Act, Deed};
use crate::play::{Play, key_of};
use crate::standing::Standing;
use hc_crowd::Ready;
use hc_flow::Presence;
use hc_order::Receiver;
use std::fmt::Write;

impl Play {
    /// Who has connected first of those that wait is accepted, as the guest of that number. Returns the link,
    /// if anybody waits.
    pub(crate) fn accept(&mut self, guest: u64) -> Option<Receiver> {
        if self.tally.accepted >= self.tally.connected {
            return None;
        }
        // Those who were accepted before are known by now, or turned away.
        self.tally.check(self.script.limits);
        self.tally.accepted = self.tally.accepted.saturating_add(1);
        let link = Receiver::Client(self.tally.accepted);
        self.stand(link, Standing::Guest(guest));
        self.stir(link);
        Some(link)
    }

    /// That somebody has connected who wasn't accepted is told anew. Returns whether it could be.
    pub(crate) fn ask_for_clients(&mut self) -> bool {
        if self.tally.accepted >= self.tally.connected {
            return true;
        }
        self.ready.push_back(Ready::Clients).is_ok()
    }

    /// A guest is the client of that number from now on, unless the system refuses that.
    pub(crate) fn rename(&mut self, link: Receiver, number: u64) -> bool {
        if self.script.names == 0 {
            return false;
        }
        self.script.names -= 1;
        self.stand(link, Standing::Linked(Receiver::Client(number)));
        self.stir(link);
        true
    }

    /// A guest to whom something is written, or ended, is turned away.
    pub(crate) fn turn_away(&mut self, link: Receiver) {
        if let Some(peer) = self.peer(link) {
            if let Standing::Guest(guest) = peer.standing {
                self.stand(link, Standing::TurnedAway(guest));
            }
        }
    }

    /// The other side of a link stands so from now on.
    pub(crate) fn stand(&mut self, link: Receiver, standing: Standing) {
        if let Some(peer) = self.peers.get_mut(&key_of(link)) {
            self.tally.changes(peer.standing, standing);
            peer.standing = standing;
        }
        self.note_visit(link, standing.name());
    }

    /// A link is let go.
    pub(crate) fn let_go(&mut self, link: Receiver) {
        if let Some(peer) = self.peers.get_mut(&key_of(link)) {
            self.tally.changes(peer.standing, Standing::Waits);
            peer.gone = true;
        }
        self.note_visit(link, "gone");
    }

    /// Notes what came of one who connected.
    fn note_visit(&mut self, link: Receiver, what: &str) {
        let Receiver::Client(visitor) = link else {
            return;
        };
        let before = if self.visits.is_empty() { "" } else { "; " };
        let tick = self.tick;
        if write!(self.visits, "{before}{visitor} {what} at {tick}").is_err() {
            self.tally.broken = true;
        }
    }

    /// What is so already at a link is told, too.
    fn stir(&mut self, link: Receiver) {
        let stirs = Deed::Does(link, Act::Stirs);
        if self.script.cues.put(self.tick, stirs).is_err() {
            self.tally.broken = true;
        }
    }

    /// What a read of a link would find.
    pub(crate) fn peek(&self, link: Receiver) -> Presence {
        match self.peer(link) {
            Some(peer) => peer.peek(),
            None => Presence::Over,
        }
    }
}
