//! Where there is no room for who connects, whoever has been silent for longest gives way.

ghost use Rattle.std.specs.Prelude.{◌≡◌};

use crate::limits::Limits;
use crate::traffic::Traffic;
use hc_attended::World;
use hc_flow::Pace;
use hc_links::Awaiting;
use hc_order::Receiver;

/// For so many milliseconds somebody has to have been silent who gives way: a request may be on its way.
const SHORTEST_SILENCE: u64 = 500;

/// So many milliseconds later all are looked at again, where nobody was silent.
const LOOKS_AGAIN: u64 = 100;

/// What comes of it where somebody has to give way.
#[derive(Clone, Copy, PartialEq, Eq)]
pub(crate) enum Displacement {
    /// One is gone, or is silent no more: room is to be looked for again.
    Now,
    /// A client is asked to give way, whose end is heard in this batch, so that there is room in the next. Or nobody has been
    /// silent for long enough yet.
    Later,
    /// Nobody is silent.
    Nobody,
}

/// Who is silent.
#[derive(Clone, Copy)]
enum Who {
    Guest(u64),
    Client(u64),
}

/// Who is silent, and since which millisecond.
#[derive(Clone, Copy)]
struct Silent {
    who: Who,
    since: u64,
}

impl<W: World> Traffic<W> {
    ghost use Rattle.hc_peers.specs.Keeping.{KeepsPeers};
    ghost use Rattle.hc_peers.specs.Peers.{HasRoom};

    /// Where there is no room, who has been silent for longest gives way: a guest at once, and a client once its end is heard.
    pub(crate) fn displace<A: Awaiting>(&mut self, cache: &A, limits: Limits) -> Displacement
        requires full { HasRoom self.old.links.peers limits.connections → ⊥ }
        ensures kept { KeepsPeers W.Stream.has_given W.Stream.has_got self.old.links.peers self.new.links.peers }
        ensures nobody { result ≡ Displacement.Nobody → self.new.links.peers ≡ self.old.links.peers }
    {
        // All clients are looked at once in a batch.
        if self.giving_way.is_some() || self.listening.held_until().is_some() {
            return Displacement::Later;
        }
        if self.links.time.tick < self.busy_until {
            return Displacement::Nobody;
        }
        let Some(silent) = self.longest_silent(cache) else {
            self.busy_until = self.links.due_behind(LOOKS_AGAIN);
            return Displacement::Nobody;
        };
        let due = silent.since.saturating_add(SHORTEST_SILENCE);
        if self.links.time.tick < due {
            self.listening.hold(due);
            return Displacement::Later;
        }
        self.let_give_way(silent.who)
    }

    /// Whoever is silent gives way.
    fn let_give_way(&mut self, who: Who) -> Displacement
        ensures gone { result ≡ Displacement.Nobody → ⊥ }
        ensures kept { KeepsPeers W.Stream.has_given W.Stream.has_got self.old.links.peers self.new.links.peers }
    {
        match who {
            Who::Guest(guest) => {
                self.links.end_guest(guest);
                Displacement::Now
            }
            Who::Client(number) => {
                self.ask_to_give_way(number);
                Displacement::Later
            }
        }
    }

    /// A client is asked to give way, and is heard before all others.
    fn ask_to_give_way(&mut self, number: u64)
        ensures kept { KeepsPeers W.Stream.has_given W.Stream.has_got self.old.links.peers self.new.links.peers }
    {
        self.giving_way = Some(number);
        self.links.give_turn_now(Receiver::Client(number));
    }

    /// Who has been silent for longest, a guest or a client, if anybody is.
    fn longest_silent<A: Awaiting>(&self, cache: &A) -> Option<Silent> {
        let mut longest = self.longest_silent_guest();
        let mut least = 0;
        'clients: for _ in 0..self.links.peers().clients.len() {
            let Some(number) = self.links.peers().clients.first_from(least) else {
                return longest;
            };
            longest = longer(longest, self.silent_client(number, cache));
            least = number.saturating_add(1);
        }
        longest
    }

    /// The guest that has been silent for longest: the one whose time is over first.
    fn longest_silent_guest(&self) -> Option<Silent> {
        let deadline = self.links.agenda.longest_silent_guest()?;
        Some(Silent {
            who: Who::Guest(deadline.number),
            since: deadline
                .tick
                .saturating_sub(self.links.patience().idle_timeout),
        })
    }

    /// A client, where it is served, nothing is owed to it, and nothing has come of its next request.
    fn silent_client<A: Awaiting>(&self, number: u64, cache: &A) -> Option<Silent> {
        let client = self.links.peers().clients.get(number)?;
        if client.is_closed() || client.is_readable() {
            return None;
        }
        if cache.awaits(number) || cache.held(Receiver::Client(number)) > 0 {
            return None;
        }
        match client.pace() {
            Pace::Idle(since) => Some(Silent {
                who: Who::Client(number),
                since,
            }),
            Pace::Asking(_, _) => None,
            Pace::Taking(_) => None,
        }
    }
}

/// Who of the two has been silent for longer, if anybody is.
fn longer(one: Option<Silent>, other: Option<Silent>) -> Option<Silent> {
    let Some(first) = one else {
        return other;
    };
    let Some(second) = other else {
        return one;
    };
    if second.since < first.since {
        other
    } else {
        one
    }
}
