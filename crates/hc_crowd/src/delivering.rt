//! What the cache gives out is taken in, and written.

ghost use Rattle.std.specs.Prelude.{◌≡◌, ◌∷◌, [], List};

use crate::traffic::Traffic;
use hc_attended::World;
use hc_order::Receiver;

impl<W: World> Traffic<W> {
    ghost use Rattle.hc_agenda.specs.Agendas.{owed_in};
    ghost use Rattle.hc_order.specs.Log.{Move};
    ghost use Rattle.hc_order.specs.Log.Move.{Closed};
    ghost use Rattle.hc_peers.specs.Keeping.{KeepsPeers};
    ghost use Rattle.hc_peers.specs.Peers.{ArePeers, Bounds};
    ghost use Rattle.hc_peers.specs.Shown.{ShowNoMore};

    /// The cache has closed a client's connection, or a forward. Behind the time after a stop no link lingers.
    pub(crate) fn close(&mut self, link: Receiver)
        ensures tells { (bounds : Bounds) (log : List Move) → ArePeers W.Stream.has_given W.Stream.has_got bounds self.old.links.peers log
            → ArePeers W.Stream.has_given W.Stream.has_got bounds self.new.links.peers (Closed link ∷ log) }
        ensures shown { (log : List Move) → ShowNoMore W.Stream.has_got self.old.links.peers log
            → ShowNoMore W.Stream.has_got self.new.links.peers log }
    {
        match link {
            Receiver::Client(number) => self.links.close_client(number),
            Receiver::Origin(forward) => {
                self.links
                    .close_origin(forward, !self.told.course.is_late());
            }
        }
    }

    /// Writes what is owed, as far as links take it now. Behind a stop a link to which all was written is heard, so that it
    /// ends where it is idle.
    pub(crate) fn write_owed(&mut self)
        ensures tells { (bounds : Bounds) (log : List Move) → ArePeers W.Stream.has_given W.Stream.has_got bounds self.old.links.peers log
            → ArePeers W.Stream.has_given W.Stream.has_got bounds self.new.links.peers log }
        ensures written { owed_in self.new.links.agenda ≡ [] }
        ensures places { self.new.links.peers.places ≡ self.old.links.peers.places }
    {
        let stops = self.told.course.stops();
        'owed: while let Some(link) = self.links.write_next() {
            self.hear_if(stops, link);
        }
    }

    /// A link is to be heard, where that is so.
    fn hear_if(&mut self, hears: bool, link: Receiver)
        ensures kept { KeepsPeers W.Stream.has_given W.Stream.has_got self.old.links.peers self.new.links.peers }
        ensures owed { owed_in self.new.links.agenda ≡ owed_in self.old.links.agenda }
        ensures places { self.new.links.peers.places ≡ self.old.links.peers.places }
    {
        if hears {
            self.links.give_turn(link);
        }
    }
}
