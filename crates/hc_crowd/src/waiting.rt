//! Something is waited for, and what is ready or due is taken in.

ghost use Rattle.std.specs.Prelude.{◌≡◌, true};

use crate::course::Course;
use crate::limits::Limits;
use crate::traffic::Traffic;
use hc_agenda::earlier;
use hc_attended::{Ready, World};
use hc_flow::Readiness;
use hc_order::Receiver;

/// So many milliseconds are waited for at once at most: then clocks are read again.
const LONGEST_WAIT: u64 = 1_000;

/// So many milliseconds behind a stop a client that is idle may ask once more: its request may be on its way.
const IDLE_MAY_ASK: u64 = 1_000;

impl<W: World> Traffic<W> {
    ghost use Rattle.hc_crowd.specs.Courses.{stops};
    ghost use Rattle.hc_peers.specs.Keeping.{KeepsPeers};
    ghost use Rattle.hc_attended.specs.Worlds.{IsTold};

    /// Waits until something is ready or due, and takes in what is. Then a new batch begins.
    pub(crate) fn wait(&mut self, limits: Limits)
        ensures kept { KeepsPeers W.Stream.has_given W.Stream.has_got self.old.links.peers self.new.links.peers }
    {
        self.look_for_room();
        let most = self.longest_wait(limits);
        self.world.wait(most);
        self.links.look_at_clock(&self.world);
        self.learn_all(limits.abandoned);
        // Each time the system may have a place for a client again.
        self.listening.retry();
        self.pass_all();
        self.heed_stop(limits);
        self.giving_way = None;
        self.listening.begin_batch();
        self.links.begin_batch();
    }

    /// Where a link has gone, the system may have a place for a client again.
    fn look_for_room(&mut self)
        ensures peers { self.new.links.peers ≡ self.old.links.peers }
    {
        if self.links.takes_freed() {
            self.listening.retry();
        }
    }

    /// How many milliseconds may be waited for.
    fn longest_wait(&self, limits: Limits) -> u64 {
        if !self.links.agenda.turns.is_empty() {
            return 0;
        }
        if self.has_arrivals(limits) || self.listens_in_vain(limits) {
            return 0;
        }
        let due = earlier(self.links.agenda.first(), self.told.course.until());
        match earlier(due, self.listening.held_until()) {
            Some(due) => due.saturating_sub(self.links.time.tick).min(LONGEST_WAIT),
            None => LONGEST_WAIT,
        }
    }

    /// Takes in all that became ready. Forwards whose clients leave are looked at so many milliseconds later.
    fn learn_all(&mut self, abandoned: u64)
        ensures kept { KeepsPeers W.Stream.has_given W.Stream.has_got self.old.links.peers self.new.links.peers }
    {
        'ready: for _ in 0..u64::MAX {
            let Some(ready) = self.world.ready() else {
                return;
            };
            self.take_in(ready, abandoned);
        }
    }

    /// Takes in that this became ready.
    fn take_in(&mut self, ready: Ready, abandoned: u64)
        requires told { IsTold W.tells_of ready }
        ensures kept { KeepsPeers W.Stream.has_given W.Stream.has_got self.old.links.peers self.new.links.peers }
    {
        match ready {
            Ready::Clients => self.wake_listening(),
            Ready::Guest(guest, _) => self.learn_of_guest(guest),
            Ready::Link(link, readiness) => self.learn(link, readiness, abandoned),
        }
    }

    /// Clients may have connected. Behind a stop no further ones are accepted.
    fn wake_listening(&mut self)
        ensures kept { KeepsPeers W.Stream.has_given W.Stream.has_got self.old.links.peers self.new.links.peers }
    {
        if !self.told.course.stops() {
            self.listening.wake();
        }
    }

    /// What is told of a guest's link lets it knock, whatever it is. Of one who was turned away what came is dropped.
    fn learn_of_guest(&mut self, guest: u64)
        ensures kept { KeepsPeers W.Stream.has_given W.Stream.has_got self.old.links.peers self.new.links.peers }
    {
        self.links.knock(guest);
        self.links
            .drop_rest_of_guest(guest, self.buffer.as_mut_slice());
    }

    /// Takes in what the system tells of a link.
    fn learn(&mut self, link: Receiver, readiness: Readiness, abandoned: u64)
        requires told { W.tells_of link readiness ≡ true }
        ensures kept { KeepsPeers W.Stream.has_given W.Stream.has_got self.old.links.peers self.new.links.peers }
    {
        match link {
            Receiver::Client(number) => {
                self.links.learn_of_client(number, readiness);
                self.note_leaving(readiness, abandoned);
            }
            Receiver::Origin(forward) => {
                self.links.learn_of_forward(forward, readiness);
                // Its link may linger.
                self.links.give_lingering_turn(forward);
            }
        }
    }

    /// Heeds a stop, and that the time behind it is over. Where no further clients are served, none can connect.
    fn heed_stop(&mut self, limits: Limits)
        ensures kept { KeepsPeers W.Stream.has_given W.Stream.has_got self.old.links.peers self.new.links.peers }
    {
        self.heed_course(limits);
        if self.listens_in_vain(limits) {
            self.world.stop_listening();
            self.listening.end();
        }
    }

    /// Whether clients can connect still, though no further ones are served.
    fn listens_in_vain(&self, limits: Limits) -> bool {
        !self.serves_more(limits) && !self.listening.is_over()
    }

    /// Heeds a stop, or that the time behind it is over.
    fn heed_course(&mut self, limits: Limits)
        ensures kept { KeepsPeers W.Stream.has_given W.Stream.has_got self.old.links.peers self.new.links.peers }
    {
        match self.told.course {
            Course::Serving => self.heed_world(limits),
            Course::Ceasing { idle_until, until } => self.end_idle(idle_until, until),
            Course::Draining(until) => self.heed_time(until),
            Course::Late => {}
        }
    }

    /// Where the program was asked to stop, clients that are idle may ask once more, for a while.
    fn heed_world(&mut self, limits: Limits)
        ensures kept { KeepsPeers W.Stream.has_given W.Stream.has_got self.old.links.peers self.new.links.peers }
    {
        if self.world.stops() {
            // Who has connected by now is accepted still.
            self.listening.look();
            self.told.course = Course::Ceasing {
                idle_until: self
                    .links
                    .due_behind(limits.drain_timeout.min(IDLE_MAY_ASK)),
                until: self.links.due_behind(limits.drain_timeout),
            };
        }
    }

    /// Where the time for clients that are idle is over, all are to be heard: those of whom nothing has come end.
    fn end_idle(&mut self, idle_until: u64, until: u64)
        requires asked { stops self.old.told.course ≡ true }
        ensures kept { KeepsPeers W.Stream.has_given W.Stream.has_got self.old.links.peers self.new.links.peers }
    {
        if self.links.time.tick >= idle_until {
            self.told.course = Course::Draining(until);
            self.let_all_knock();
            self.hear_clients();
        }
    }

    /// Where the time behind a stop is over, all links are lost.
    fn heed_time(&mut self, until: u64)
        requires asked { stops self.old.told.course ≡ true }
        ensures kept { KeepsPeers W.Stream.has_given W.Stream.has_got self.old.links.peers self.new.links.peers }
    {
        if self.links.time.tick >= until {
            self.told.course = Course::Late;
            self.let_all_guests_go();
            self.drop_all_turned_away();
            self.drop_all_lingering();
            self.lose_origins();
            self.hear_clients();
        }
    }

    /// All clients are to be heard.
    fn hear_clients(&mut self)
        ensures kept { KeepsPeers W.Stream.has_given W.Stream.has_got self.old.links.peers self.new.links.peers }
    {
        let mut least = 0;
        'clients: for _ in 0..self.links.peers().clients.len() {
            let Some(number) = self.links.peers().clients.first_from(least) else {
                return;
            };
            self.links.give_turn(Receiver::Client(number));
            least = number.saturating_add(1);
        }
    }

    /// All forwards fail, since their time is over.
    fn lose_origins(&mut self)
        requires asked { W.stop_asked ≡ true }
        ensures kept { KeepsPeers W.Stream.has_given W.Stream.has_got self.old.links.peers self.new.links.peers }
    {
        let mut least = 0;
        'forwards: for _ in 0..self.links.peers().forwards.len() {
            let Some(forward) = self.links.peers().forwards.first_from(least) else {
                return;
            };
            self.links.lose_late(forward);
            least = forward.saturating_add(1);
        }
    }

    /// Drops all links to the origin that linger.
    fn drop_all_lingering(&mut self)
        ensures kept { KeepsPeers W.Stream.has_given W.Stream.has_got self.old.links.peers self.new.links.peers }
    {
        'lingering: for _ in 0..self.links.peers().lingering.len() {
            let Some(forward) = self.links.peers().lingering.first_from(0) else {
                return;
            };
            self.links.drop_lingering(forward);
        }
    }
}
