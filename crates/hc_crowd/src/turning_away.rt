//! Clients for whom there is no room are told so, and leave.

use crate::traffic::Traffic;
use hc_attended::World;

/// What a client is told for whom there is no room: a second later there may be some.
const REFUSAL: &[u8] =
    b"HTTP/1.1 503 Service Unavailable\r\nretry-after: 1\r\ncontent-length: 0\r\nconnection: close\r\n\r\n";

impl<W: World> Traffic<W> {
    ghost use Rattle.hc_peers.specs.Keeping.{KeepsPeers};
    ghost use Rattle.hc_peers.specs.Peers.{HasRoom};

    /// Turns away a client who has connected, as far as there is room for such ones, where there is none for
    /// so many links and one more. Returns whether one was. Where there is no room for such ones, clients
    /// wait until they are accepted.
    pub(crate) fn turn_away(&mut self, guest: u64, most: usize) -> bool
        requires full { HasRoom self.old.links.peers most → ⊥ }
        ensures kept { KeepsPeers W.Stream.has_given W.Stream.has_got self.old.links.peers self.new.links.peers }
    {
        if !self.links.peers().may_turn_away() {
            return false;
        }
        let Some(stream) = self.arrival(guest) else {
            return false;
        };
        self.links.turn_away(guest, stream, REFUSAL);
        true
    }

    /// Drops the links of all who were turned away.
    pub(crate) fn drop_all_turned_away(&mut self)
        ensures kept { KeepsPeers W.Stream.has_given W.Stream.has_got self.old.links.peers self.new.links.peers }
    {
        'turned_away: for _ in 0..self.links.peers().turned_away.len() {
            let Some(guest) = self.links.peers().turned_away.first_from(0) else {
                return;
            };
            self.links.drop_turned_away(guest);
        }
    }
}
