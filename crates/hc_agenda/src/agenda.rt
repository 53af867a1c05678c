//! What is to be done with links, and when.

ghost use Rattle.std.specs.Prelude.{◌≡◌, ◌≤◌, ◌++◌, ◌∷◌, [], IfSome, None, OnErr, OnOk, Some, true, false, if◌then◌else◌};
ghost use Rattle.hc_agenda.specs.Agendas.{ChangesOwed, ForgetsDeadlines, IsFirstOwed, IsFree, IsToBeDone, NotesDeadline, NotesOwed, NotesTurns, TakesFirst, owed_in, refused_in};
ghost use Rattle.hc_agenda.specs.Deadlines.{IsDueFirst, IsFirstNumberOf, IsFirstOf, deadline_at, deadlines_in, has_come, is_of_client, is_of_forward};
ghost use Rattle.hc_agenda.specs.Due.{same_timeout};
ghost use Rattle.hc_agenda.specs.Earliest.{IsEarliest, earlier_of};
ghost use Rattle.hc_agenda.specs.Turns.{before_all, pushed};

use crate::deadline::{Deadline, Timeout, earlier};
use crate::deadlines::Deadlines;
use crate::turns::Turns;
use hc_order::Receiver;
use std::alloc::{AllocError, Global};
use std::collections::VecDeque;

/// What is to be done with links, and when. That memory was refused for a note of it is kept: from then on links may wait
/// for ever, so whoever drives ends.
#[derive(Drop)]
pub struct Agenda {
    /// The links that are to be heard.
    pub turns: Turns,
    /// The links to which something may have to be written.
    owed: VecDeque<Receiver>,
    /// When links are to be looked at.
    deadlines: Deadlines,
    /// When forwards are looked at for which nobody may wait any more, if they are.
    sweep: Option<u64>,
    /// Whether memory was refused for a note.
    refused: bool,
}

impl Agenda {
    /// Nothing is to be done.
    pub fn new(alloc: Global) -> Self
        ensures { IsFree result }
    {
        Agenda {
            turns: Turns::new(alloc),
            owed: VecDeque::new(alloc),
            deadlines: Deadlines::new(alloc),
            sweep: None,
            refused: false,
        }
    }

    /// A link is to be heard.
    pub fn give_turn(&mut self, link: Receiver)
        ensures { NotesTurns (pushed self.old.turns link) self.old self.new }
    {
        if self.turns.push(link).is_err() {
            self.refused = true;
        }
    }

    /// A link is to be heard before all others, in this batch.
    pub fn give_turn_now(&mut self, link: Receiver)
        ensures { NotesTurns (before_all self.old.turns link) self.old self.new }
    {
        if self.turns.put_first(link).is_err() {
            self.refused = true;
        }
    }

    /// Something may have to be written to a link.
    pub fn owe(&mut self, link: Receiver) -> Result<(), AllocError>
        ensures only { ChangesOwed self.old self.new }
        ensures ok { OnOk result (owed_in self.new ≡ owed_in self.old ++ link ∷ []) }
        ensures err { OnErr result (owed_in self.new ≡ owed_in self.old) }
    {
        self.owed.push_back(link)?;
        Ok(())
    }

    /// The same; that memory is refused is told later.
    pub fn note_owed(&mut self, link: Receiver)
        ensures { NotesOwed link self.old self.new }
    {
        if self.owe(link).is_err() {
            self.refused = true;
        }
    }

    /// The first of these, which is left there.
    pub fn first_owed(&self) -> Option<Receiver>
        ensures { IsFirstOwed result (owed_in self.now) }
    {
        self.owed.front().copied()
    }

    /// The first of these, which is taken out.
    pub fn next_owed(&mut self) -> Option<Receiver>
        ensures only { ChangesOwed self.old self.new }
        ensures first { TakesFirst result (owed_in self.old) (owed_in self.new) }
    {
        self.owed.pop_front()
    }

    /// A number is due at that millisecond, and at no other one of that time-out.
    pub fn note(&mut self, timeout: Timeout, tick: u64, number: u64)
        ensures { NotesDeadline timeout tick number self.old self.new }
    {
        let deadline = Deadline {
            timeout,
            tick,
            number,
        };
        if self.deadlines.put(deadline).is_err() {
            self.refused = true;
        }
    }

    /// How many deadlines there are.
    pub fn deadlines(&self) -> usize
        ensures { result ≡ deadlines_in self.now.deadlines }
    {
        self.deadlines.len()
    }

    /// The first deadline of that time-out, if it is due by that millisecond. It is left there.
    pub fn due(&self, timeout: Timeout, tick: u64) -> Option<Deadline>
        ensures { IsDueFirst timeout tick result self.now.deadlines }
    {
        self.deadlines.due(timeout, tick)
    }

    /// Whether a number is due by that time-out, at that millisecond or before.
    pub fn is_due_by(&self, timeout: Timeout, number: u64, latest: u64) -> bool
        ensures { result ≡ has_come (deadline_at timeout number self.now.deadlines) latest }
    {
        self.deadlines.is_due_by(timeout, number, latest)
    }

    /// Clients have left who may have waited for forwards: these are looked at by that millisecond at the latest.
    pub fn sweep_by(&mut self, tick: u64)
        ensures { self.new ≡ record self.old { sweep = earlier_of self.old.sweep (Some tick) } }
    {
        self.sweep = earlier(self.sweep, Some(tick));
    }

    /// Whether forwards are to be looked at by that millisecond. Then they aren't again, until that is noted anew.
    pub fn takes_sweep(&mut self, tick: u64) -> bool
        ensures due { result ≡ true → IfSome self.old.sweep (λ due. due ≤ tick) }
        ensures test { result ≡ has_come self.old.sweep tick }
        ensures once { self.new ≡ record self.old { sweep = if result then None else self.old.sweep } }
    {
        let Some(due) = self.sweep else {
            return false;
        };
        if due > tick {
            return false;
        }
        self.sweep = None;
        true
    }

    /// The guest that has been silent for longest, and when its time is over.
    pub fn longest_silent_guest(&self) -> Option<Deadline>
        ensures { IsFirstOf Timeout.Guest result self.now.deadlines }
    {
        self.deadlines.first_of(Timeout::Guest)
    }

    /// The client that has lingered for longest.
    pub fn longest_lingering(&self) -> Option<u64>
        ensures { IsFirstNumberOf Timeout.ClientLingering result self.now.deadlines }
    {
        match self.deadlines.first_of(Timeout::ClientLingering) {
            Some(deadline) => Some(deadline.number),
            None => None,
        }
    }

    /// A number isn't due any more by that time-out.
    pub fn forget(&mut self, timeout: Timeout, number: u64)
        ensures { ForgetsDeadlines (same_timeout timeout) number self.old self.new }
    {
        self.deadlines.remove(timeout, number);
    }

    /// A client's link has gone.
    pub fn forget_client(&mut self, number: u64)
        ensures { ForgetsDeadlines is_of_client number self.old self.new }
    {
        self.deadlines.remove(Timeout::Client, number);
        self.deadlines.remove(Timeout::ClientLingering, number);
    }

    /// A forward has gone. Its link may linger.
    pub fn forget_forward(&mut self, forward: u64)
        ensures { ForgetsDeadlines is_of_forward forward self.old self.new }
    {
        self.deadlines.remove(Timeout::Place, forward);
        self.deadlines.remove(Timeout::Connect, forward);
        self.deadlines.remove(Timeout::Origin, forward);
    }

    /// The millisecond at which the first deadline of all is due, or forwards are to be looked at.
    pub fn first(&self) -> Option<u64>
        ensures { IsEarliest (IsToBeDone self.now) result }
    {
        earlier(self.deadlines.first(), self.sweep)
    }

    /// Memory was refused for a note of what is to be done that is kept elsewhere.
    pub fn note_refusal(&mut self)
        ensures { self.new ≡ refused_in self.old }
    {
        self.refused = true;
    }

    /// Whether memory was refused for a note.
    pub fn was_refused(&self) -> bool
        ensures { result ≡ self.now.refused }
    {
        self.refused
    }
}
