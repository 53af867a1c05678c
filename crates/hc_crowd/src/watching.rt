//! Deadlines: who is looked at, and when.

ghost use Rattle.std.specs.Prelude.{◌≡◌, true};

use crate::traffic::Traffic;
use hc_agenda::{Deadline, Timeout};
use hc_attended::World;
use hc_incoming::Trouble;
use hc_order::Receiver;

impl<W: World> Traffic<W> {
    ghost use Rattle.hc_peers.specs.Keeping.{KeepsPeers};
    ghost use Rattle.hc_attended.specs.Notes.{is_due_up_to};

    /// Takes in all that is due.
    pub(crate) fn pass_all(&mut self)
        ensures kept { KeepsPeers W.Stream.has_given W.Stream.has_got self.old.links.peers self.new.links.peers }
    {
        self.pass(Timeout::Client);
        self.pass(Timeout::ClientLingering);
        self.pass(Timeout::Place);
        self.pass(Timeout::Connect);
        self.pass(Timeout::Origin);
        self.pass(Timeout::OriginLingering);
        self.pass(Timeout::Guest);
        self.pass(Timeout::TurnedAway);
    }

    /// Takes in what is due by that time-out.
    fn pass(&mut self, timeout: Timeout)
        ensures kept { KeepsPeers W.Stream.has_given W.Stream.has_got self.old.links.peers self.new.links.peers }
    {
        'due: for _ in 0..self.links.agenda.deadlines() {
            let Some(deadline) = self.links.agenda.due(timeout, self.links.time.tick) else {
                return;
            };
            self.end_time(deadline);
        }
    }

    /// A deadline that stands in the agenda has come. Nothing is done where the link has gone or moved on.
    fn end_time(&mut self, deadline: Deadline)
        requires due { is_due_up_to deadline.timeout deadline.number self.old.links.time.tick self.old.links.agenda ≡ true }
        ensures kept { KeepsPeers W.Stream.has_given W.Stream.has_got self.old.links.peers self.new.links.peers }
    {
        let number = deadline.number;
        match deadline.timeout {
            Timeout::Client => self.links.look_at_client(number),
            Timeout::ClientLingering => self.links.let_go(number),
            Timeout::Place => {
                let fails = self.links.end_waiting(number);
                self.note_if(fails, number, Trouble::Unplaced);
            }
            Timeout::Connect => {
                let fails = self.links.end_connect(number);
                self.note_if(fails, number, Trouble::ConnectLate);
            }
            Timeout::Origin => self.look_at_forward(number),
            Timeout::OriginLingering => self.links.drop_lingering(number),
            Timeout::Guest => self.links.end_guest(number),
            Timeout::TurnedAway => self.links.drop_turned_away(number),
        }
    }

    /// A forward fails whose time is over.
    fn look_at_forward(&mut self, forward: u64)
        ensures kept { KeepsPeers W.Stream.has_given W.Stream.has_got self.old.links.peers self.new.links.peers }
    {
        if let Some(trouble) = self.links.look_at_forward(forward) {
            self.troubles.note(Receiver::Origin(forward), trouble);
        }
    }

    /// A forward fails for that, where it does.
    fn note_if(&mut self, fails: bool, forward: u64, trouble: Trouble)
        ensures links { self.new.links ≡ self.old.links }
    {
        if fails {
            self.troubles.note(Receiver::Origin(forward), trouble);
        }
    }
}
