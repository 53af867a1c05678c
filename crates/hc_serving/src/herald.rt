//! What is amiss is told on standard error, replies in the access log, and numbers to those who watch.

use crate::counting::{Beside, Counting};
use crate::logging::{Addressed, Clients};
use crate::recorded::{RecordEnd, Recorded};
use crate::watched::Opening;
use crate::wrongs::{SpokenWrongs, say_wrongs};
use hc_access::{AccessLog, Target};
use hc_crowd::{Counted, Crowd, World};
use hc_drive::Watcher;
use hc_links::Awaiting;
use hc_notices::{Notice, Voice};
use hc_order::Occurrence;
use hc_peers::MOST_TURNED_AWAY;
use hc_service::Action;
use hc_sockets::Health;
use std::alloc::Global;
use std::io::Write;

/// So many milliseconds lie between two lines about failures of a kind at least.
const PAUSE: u64 = 1_000;

/// Says what is amiss: of each kind of failure a line a second at most, and once that the recording has ended. And has replies
/// logged.
#[derive(Drop)]
pub(crate) struct Herald<'a, E: Write, L: Target> {
    voice: Voice<'a, E>,
    health: &'a Health,
    /// What was told of what was wrong with what came, and with links.
    wrongs: &'a mut SpokenWrongs,
    /// How many failed polls were told, and the millisecond before which nothing more is said of them.
    told_polls: u64,
    polls_due: u64,
    /// Whether the wall clock was behind when it was last looked at.
    was_behind: bool,
    /// Whether it was told that the recording has ended.
    told_end: bool,
    /// Where replies are logged, if they are.
    log: &'a mut AccessLog<L>,
    /// What is counted for those who watch.
    counting: Counting<'a>,
    /// The guest who was turned away last, of those whose replies were logged.
    turned_away: u64,
    alloc: Global,
}

impl<'a, E: Write, L: Target> Herald<'a, E, L> {
    ghost use Rattle.std.specs.Prelude.{◌≡◌};
    ghost use Rattle.hc_notices.specs.Voices.{GoesOn};

    /// By that voice, of the system that has this health. Of wrongs that were told nothing is said.
    pub(crate) fn new(
        alloc: Global,
        voice: Voice<'a, E>,
        health: &'a Health,
        wrongs: &'a mut SpokenWrongs,
        log: &'a mut AccessLog<L>,
        counting: Counting<'a>,
    ) -> Self
        ensures { result.voice ≡ voice.entry }
    {
        Herald {
            voice,
            health,
            wrongs,
            told_polls: 0,
            polls_due: 0,
            was_behind: false,
            told_end: false,
            log,
            counting,
            turned_away: 0,
            alloc,
        }
    }

    /// Says where clients and those who watch can connect, and that stops aren't seen, if they aren't.
    pub(crate) fn greet(&mut self, start: Opening<'_>)
        ensures { GoesOn E.contents self.old.voice self.new.voice }
    {
        self.voice.say(Notice::Listening(start.greeting));
        self.voice
            .say_if(!start.status.is_empty(), Notice::Watched(start.status));
        self.voice.say_if(!start.hears_stops, Notice::Deaf);
    }

    /// Says what is new by that millisecond: what was wrong with what came, and with links, and that the wall clock is behind.
    /// Where the system lets nobody be served any more, links fail for that alone, and nothing is said of them.
    fn look_at(&mut self, tick: u64, kinds: &[Counted], is_behind: bool)
        ensures { GoesOn E.contents self.old.voice self.new.voice }
    {
        self.look_at_polls(tick);
        if self.health.ends() {
            return;
        }
        self.look_at_clock(is_behind);
        self.look_at_wrongs(tick, kinds);
    }

    /// Says how many polls have failed since that was told last, if its time has come.
    fn look_at_polls(&mut self, tick: u64)
        ensures { GoesOn E.contents self.old.voice self.new.voice }
    {
        let failed = self.health.failed_polls();
        let unpolled = failed.saturating_sub(self.told_polls);
        if (unpolled == 0) | (tick < self.polls_due) {
            return;
        }
        self.told_polls = failed;
        self.polls_due = tick.saturating_add(PAUSE);
        self.voice.say(Notice::Unpolled(unpolled));
    }

    /// Says that the wall clock is behind, if it wasn't before.
    fn look_at_clock(&mut self, is_behind: bool)
        ensures { GoesOn E.contents self.old.voice self.new.voice }
    {
        let is_new = is_behind & !self.was_behind;
        self.was_behind = is_behind;
        self.voice.say_if(is_new, Notice::Behind);
    }

    /// Says what was wrong, of each kind a line a second at most.
    fn look_at_wrongs(&mut self, tick: u64, kinds: &[Counted])
        ensures { GoesOn E.contents self.old.voice self.new.voice }
    {
        say_wrongs(&mut *self.wrongs, &mut self.voice, tick, kinds);
    }

    /// Says that the recording has ended, if that wasn't told yet.
    fn look_at_recording<T: Recorded>(&mut self, recording: &T)
        ensures { GoesOn E.contents self.old.voice self.new.voice }
    {
        if self.told_end {
            return;
        }
        let Some(end) = recording.end() else {
            return;
        };
        self.told_end = true;
        match end {
            RecordEnd::Failed(reason) => self.voice.say_record_failed(reason),
            RecordEnd::Full => self.voice.say(Notice::RecordFull),
        }
    }
}

impl<'a, E: Write, L: Target> Herald<'a, E, L> {
    ghost use Rattle.std.specs.Prelude.{◌≡◌};
    ghost use Rattle.hc_notices.specs.Voices.{GoesOn};

    /// Has the replies logged that were written, and those to clients for whom there was no room.
    fn look_at_replies<W: World>(&mut self, crowd: &Crowd<W>)
    where
        W::Stream: Addressed,
        ensures { self.new.voice ≡ self.old.voice }
    {
        'guests: for _ in 0..MOST_TURNED_AWAY {
            let next = self.turned_away.saturating_add(1);
            let Some(guest) = crowd.peers().turned_away.first_from(next) else {
                break;
            };
            self.turned_away = guest;
            self.turn_away(guest, crowd);
        }
        self.log.look(&Clients { crowd });
    }

    /// Nothing more happens: what wasn't told yet is told now, and what of the log waits is written.
    pub(crate) fn conclude<W: World, T: Recorded>(&mut self, crowd: &Crowd<W>, recorder: &T)
        ensures { GoesOn E.contents self.old.voice self.new.voice }
    {
        self.look_at(u64::MAX, crowd.troubles().as_slice(), crowd.is_behind());
        self.look_at_recording(recorder);
        self.log.finish(crowd.tick());
    }

    /// Has the reply to a guest logged for whom there was no room.
    fn turn_away<W: World>(&mut self, guest: u64, crowd: &Crowd<W>)
    where
        W::Stream: Addressed,
        ensures { self.new.voice ≡ self.old.voice }
    {
        let mut address = Vec::new(self.alloc);
        if let Some(stream) = crowd.peers().turned_away.get(guest) {
            let _ = stream.push_address(&mut address);
        }
        self.log.turn_away(address.as_slice());
        self.counting.turn_away();
    }

    /// Tells the numbers, if they are asked for.
    fn tell_numbers<W: World, T: Recorded, A: Awaiting>(
        &self,
        links: &Crowd<W>,
        cache: &A,
        recorder: &T,
    ) {
        if !self.counting.is_asked() {
            return;
        }
        let beside = Beside {
            lost_lines: self.log.lost(),
            record_ended: recorder.end().is_some(),
            failed_polls: self.health.failed_polls(),
            longest_turn: self.health.longest_turn(),
        };
        self.counting.tell(self.alloc, links, cache, beside);
    }
}

impl<'a, W: World, T: Recorded, E: Write, L: Target> Watcher<Crowd<W>, T> for Herald<'a, E, L>
where
    W::Stream: Addressed,
{
    ghost use Rattle.hc_notices.specs.VoiceLaws.{joined, stays_as_it_is};
    ghost use Rattle.hc_notices.specs.Voices.{GoesOn};

    ghost may_become = { λ before after. GoesOn E.contents before.voice after.voice };

    fn hear(&mut self, links: &Crowd<W>, occurrence: &Occurrence) {
        self.log.hear(&Clients { crowd: links }, occurrence);
        self.counting.hear(occurrence);
    }

    fn see<A: Awaiting>(&mut self, links: &Crowd<W>, cache: &A, actions: &[Action]) {
        self.log.see(&Clients { crowd: links }, cache, actions);
        self.counting.see(actions);
    }

    fn look<A: Awaiting>(&mut self, links: &Crowd<W>, cache: &A, recorder: &T) {
        self.look_at_replies(links);
        self.look_at(links.tick(), links.troubles().as_slice(), links.is_behind());
        self.look_at_recording(recorder);
        self.tell_numbers(links, cache, recorder);
    }

    ghost stays = { λ herald. stays_as_it_is E.contents herald.voice };

    ghost goes_on = { λ first then last one other. joined E.contents first.voice then.voice last.voice one other };
}
