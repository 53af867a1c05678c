//! The moments that a cache is told, by a wall clock that may be set and a monotonic clock that can't be.

ghost use Rattle.std.specs.Prelude.{◌≡◌, ◌<◌, ◌≤◌, ◌+◌, ◌-◌, ◌/◌, ◌&&◌, ◌||◌, ◌↔◌, ℕ, Option, Some, IsTrue, min, nat_le};
ghost use Rattle.hc_transcript.specs.Limits.{greatest_moment};
ghost use Rattle.hc_agenda.specs.Moments.{HasBeenAhead, History, IsNeverAhead, Reading, counted_in, followed_in, has_been_ahead_by, is_about, moment_in, reading_of, start_wall_in};
ghost use Rattle.hc_agenda.specs.Moments.History.{Look};
ghost use Rattle.hc_agenda.specs.declared.moments.Lead.{Lead};
ghost use Rattle.hc_agenda.specs.MomentsKept.{HasBegun, HasBegunIfAny, has_lasted, lasts};

use hc_transcript::GREATEST_MOMENT;
use std::time::Duration;

/// The nanoseconds of a second.
const SECOND: u128 = 1_000_000_000;

/// For so many nanoseconds a wall clock has to be ahead by the same before it is followed.
const STEADY: u128 = 5 * SECOND;

/// By how many seconds a wall clock may be behind before that is said.
const FAR: u64 = 10;

/// By how much the wall clock is ahead, and since when it has been ahead by that, within a second. The next reading may be
/// a second off, so the same is kept of a second less and of a second more.
#[derive(Clone, Copy)]
struct Lead {
    /// By how many seconds it was ahead at the last reading.
    seconds: u64,
    /// How many nanoseconds were counted when it began to be ahead by that, within a second.
    since: u128,
    /// The same of a second less.
    less_since: u128,
    /// The same of a second more.
    more_since: u128,
}

impl Lead {
    /// One that begins.
    fn begun(seconds: u64, counted: u128) -> Self
        ensures { result ≡ record { seconds = seconds; since = counted; less_since = counted; more_since = counted } }
    {
        Lead {
            seconds,
            since: counted,
            less_since: counted,
            more_since: counted,
        }
    }

    /// When it began to be ahead by so many seconds, within one, if it is so at a reading when so many nanoseconds are
    /// counted.
    fn since(self, seconds: u64, counted: u128) -> u128
        ensures begun { HasBegun counted self → result ≤ counted }
        ensures since { HasBegun counted self → (now : ℕ) → nat_le (result + 5_000_000_000) now ≡ (nat_le (counted + 5_000_000_000) now || lasts (Some self) seconds now) }
    {
        if seconds == self.seconds {
            self.since
        } else if self.seconds.saturating_sub(seconds) == 1 {
            self.less_since
        } else if seconds.saturating_sub(self.seconds) == 1 {
            self.more_since
        } else {
            counted
        }
    }

    /// The lead behind one more reading, by which the wall clock is ahead by so many seconds, when so many nanoseconds are
    /// counted.
    fn behind(self, seconds: u64, counted: u128) -> Self
        requires some { 0 < seconds }
        requires in_time { seconds ≤ greatest_moment }
        ensures seconds { result.seconds ≡ seconds }
        ensures begun { HasBegun counted self → HasBegun counted result }
        ensures lasts { HasBegun counted self → (d now : ℕ)
            → lasts (Some result) d now ≡ (is_about d seconds && (nat_le (counted + 5_000_000_000) now || lasts (Some self) d now)) }
    {
        Lead {
            seconds,
            since: self.since(seconds, counted),
            less_since: self.since(seconds - 1, counted),
            more_since: self.since(seconds + 1, counted),
        }
    }
}

/// The lead behind one more reading, if the wall clock is ahead there.
fn lead_behind(before: Option<Lead>, seconds: u64, counted: u128) -> Option<Lead>
    requires { seconds ≤ greatest_moment }
    ensures begun { HasBegunIfAny counted before → HasBegunIfAny counted result }
    ensures lasts { HasBegunIfAny counted before → (d now : ℕ) → lasts result d now ≡ (is_about d seconds && (nat_le (counted + 5_000_000_000) now || lasts before d now)) }
    ensures lasted { HasBegunIfAny counted before → lasts result seconds counted ≡ has_lasted result counted }
{
    if seconds == 0 {
        return None;
    }
    match before {
        Some(lead) => Some(lead.behind(seconds, counted)),
        None => Some(Lead::begun(seconds, counted)),
    }
}

/// Whether the wall clock has been ahead by the same for five seconds.
fn has_lasted(lead: Option<Lead>, counted: u128) -> bool
    ensures { result ≡ has_lasted lead counted }
{
    match lead {
        Some(lead) => counted.saturating_sub(lead.since) >= STEADY,
        None => false,
    }
}

/// The moments that a cache is told. A cache takes the greater of its last moment and the one that it is told: a wall
/// clock that jumped ahead would stay with it for good, and one that was set back would stop all ages. So a moment is the
/// whole seconds of the wall clock's time at the start and what a monotonic clock has counted since. A wall clock that has
/// been ahead of that by the same, within a second, for five seconds is followed; one that is behind never is.
#[derive(Clone, Copy)]
pub struct Moments {
    /// The wall clock's nanoseconds since 1970 at the start, and by how many it was followed since.
    base: u128,
    /// The monotonic clock's nanosecond at the start.
    start: u128,
    /// How many nanoseconds it has counted since.
    counted: u128,
    /// By how much the wall clock is ahead, if it is.
    lead: Option<Lead>,
    /// Whether it is behind by more than ten seconds.
    behind: bool,
}

impl Moments {
    ghost use Rattle.std.specs.Prelude.{◌^◌};
    ghost use Rattle.std.specs.Duration.{as_nanos};
    ghost use Rattle.hc_agenda.specs.Moments.{is_behind_in};
    ghost use Rattle.hc_agenda.specs.Moments.History.{Start};
    ghost use Rattle.hc_agenda.specs.MomentsKept.{Keeps, Tells, told_by};

    /// From a first reading on: what the wall clock tells since 1970, where the system's clock can be read, and what the
    /// monotonic clock has counted.
    pub fn new(wall: Option<Duration>, monotonic: Duration) -> Self
        ensures { Tells result (Start (reading_of wall monotonic)) }
    {
        Moments {
            base: wall.unwrap_or(Duration::ZERO).as_nanos(),
            start: monotonic.as_nanos(),
            counted: 0,
            lead: None,
            behind: false,
        }
    }

    /// The moment, in whole seconds since 1970, as of the last reading.
    pub fn now(&self) -> u64
        ensures moment { (history : History) → Tells self.now history → result ≡ moment_in history }
        ensures told { result ≡ told_by self.now }
        ensures in_time { result ≤ greatest_moment }
    {
        (self.time() / SECOND).min(u128::from(GREATEST_MOMENT)) as u64
    }

    /// The nanoseconds since 1970 by which the moment is told.
    fn time(&self) -> u128
        ensures { result ≡ min (self.now.base + self.now.counted) (2 ^ 128 - 1) }
    {
        self.base.saturating_add(self.counted)
    }

    /// Whether the wall clock was behind the moment by more than ten seconds when it was last read. It isn't followed then,
    /// so moments stay ahead of it until those who tell them start anew.
    pub fn is_behind(&self) -> bool
        ensures { (history : History) → Tells self.now history → result ≡ is_behind_in history }
    {
        self.behind
    }

    /// Takes one more reading of both clocks.
    pub fn look(&mut self, wall: Option<Duration>, monotonic: Duration)
        ensures tells { (history : History) → Tells self.old history → Tells self.new (Look (reading_of wall monotonic) history) }
        ensures forward { told_by self.old ≤ told_by self.new }
    {
        let counted = monotonic.as_nanos().saturating_sub(self.start);
        self.counted = self.counted.max(counted);
        if let Some(wall) = wall {
            self.follow(wall);
            self.behind = wall.as_secs() < self.now().saturating_sub(FAR);
        }
    }

    /// Follows a wall clock that has been ahead by the same for five seconds.
    fn follow(&mut self, wall: Duration)
        ensures keeps { (monotonic : ℕ) (before : History) → let here = Look (record { wall = Some (as_nanos wall); monotonic = monotonic }) before in
            Keeps self.old (followed_in before) here before → Keeps self.new (followed_in here) here here }
        ensures forward { told_by self.old ≤ told_by self.new }
    {
        let ahead = wall
            .as_secs()
            .min(GREATEST_MOMENT)
            .saturating_sub(self.now());
        let lead = lead_behind(self.lead, ahead, self.counted);
        if has_lasted(lead, self.counted) {
            self.base += wall.as_nanos().saturating_sub(self.time());
            self.lead = None;
        } else {
            self.lead = lead;
        }
    }
}

/// Moments never go back, nor past the last one that a transcript can tell. Where no wall clock was ever ahead, they are
/// the whole seconds of the wall time at the start and what has passed since. Where a wall clock is followed, the moment is
/// its second; and that is where at each look of the last five seconds it was ahead by as much, within a second.
pub fn moments_follow_what_stays_ahead()
    ensures forward { (reading : Reading) (history : History) → moment_in history ≤ moment_in (Look reading history) }
    ensures in_time { (history : History) → moment_in history ≤ greatest_moment }
    ensures counted { (history : History) → IsNeverAhead history
        → moment_in history ≡ min ((start_wall_in history + counted_in history) / 1_000_000_000) greatest_moment }
    ensures caught_up { (reading : Reading) (history : History) (wall : ℕ) → followed_in history < followed_in (Look reading history)
        → reading.wall ≡ Some wall → moment_in (Look reading history) ≡ min (wall / 1_000_000_000) greatest_moment }
    ensures steady { (d followed now : ℕ) (history : History) → IsTrue (has_been_ahead_by d followed now history) ↔ HasBeenAhead d followed now history }
{}
