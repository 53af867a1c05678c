//! What the verdicts on all parts tell of the whole.

ghost use Rattle.std.specs.Prelude.{◌≡◌, ◌+◌, ◌<◌, ℕ, List, IfSome, Some, length, slice_get};
ghost use Rattle.hc_head.specs.declared.head.Target.{Target};
ghost use Rattle.hc_transcript.specs.declared.format.Format.{Format};
ghost use Rattle.hc_transcript.specs.declared.record.Record.{Record};
ghost use Rattle.hc_transcript.specs.Items.{Item};
ghost use Rattle.hc_transcript.specs.Transcript.{IsTranscript};
ghost use Rattle.hc_history.specs.declared.settings.Settings.{Settings};
ghost use Rattle.hc_parts.specs.Joining.{AreRightParts, added};
ghost use Rattle.hc_parts.specs.Parts.{KeepsCauses};
ghost use Rattle.hc_split.specs.Joined.{AllAreTold, AreTold, FindsLacking, IsFirstOf, IsTold, JoinsFirst, SaysOfWhole};

use hc_history::{Counts, Reason};

/// What is told of a part.
#[derive(Clone, Copy)]
pub enum Told {
    /// Its verdict is yes, with these counts.
    Right(Counts),
    /// Its verdict is no, at the reply that has this position in the whole, for this reason.
    Wrong(u64, Reason),
    /// Nothing: there is no verdict on it.
    Nothing,
}

/// What that tells of the whole.
#[derive(Clone, Copy)]
pub enum Joined {
    /// The verdict is yes, with these counts.
    Right(Counts),
    /// The verdict is no, at this position, for this reason.
    Wrong(u64, Reason),
    /// There is no verdict, since there is none on the part of that number.
    Lacking(usize),
    /// There is none, since more would be counted than can be said.
    TooMany,
}

/// Joins what is told of the parts, which are all there are, in their order. It is yes if each of them is right, and else the
/// no that comes first in the whole; and nothing as long as nothing is told of one of them, since a reply may be wrong there
/// that comes first.
pub fn join(told: &[Told]) -> Joined
    ensures says { (part : Target → ℕ) (format : Format) (octets : List ℕ) (settings : Settings) (records : List Record) (h : List Item)
        → IsTranscript format octets records h → KeepsCauses part h → ((target : Target) → part target < length told.now)
        → AreTold part format settings records h told.now → SaysOfWhole octets settings result }
    // It lacks a part exactly if nothing is told of one.
    ensures lacking { FindsLacking (length told.now) told.now result }
{
    let mut so_far = Joined::Right(Counts::new());
    for (number, one) in told.iter().enumerate() {
        so_far = with_part(so_far, number, one);
    }
    so_far
}

// What the parts before that number tell, and what is told of this one.
fn with_part(so_far: Joined, number: usize, one: &Told) -> Joined
    ensures says { (part : Target → ℕ) (format : Format) (settings : Settings) (records : List Record) (h : List Item)
        → JoinsFirst part format settings records h number so_far → IsTold part format settings records h number one.now
        → JoinsFirst part format settings records h (number + 1) result }
    ensures lacking { (told : List Told) → slice_get told number ≡ Some one.now → FindsLacking number told so_far
        → FindsLacking (number + 1) told result }
{
    match so_far {
        Joined::Right(counts) => behind_right(counts, number, one),
        Joined::Wrong(position, why) => behind_wrong(position, why, number, one),
        Joined::Lacking(_) => so_far,
        Joined::TooMany => so_far,
    }
}

// The same where those before it are right.
fn behind_right(counts: Counts, number: usize, one: &Told) -> Joined
    ensures says { (part : Target → ℕ) (format : Format) (settings : Settings) (records : List Record) (h : List Item)
        → AreRightParts part format settings records h number counts → IsTold part format settings records h number one.now
        → JoinsFirst part format settings records h (number + 1) result }
    ensures lacking { (told : List Told) → slice_get told number ≡ Some one.now → AllAreTold number told
        → FindsLacking (number + 1) told result }
{
    match one {
        Told::Right(own) => match added(&counts, own) {
            Some(sum) => Joined::Right(sum),
            None => Joined::TooMany,
        },
        Told::Wrong(position, why) => Joined::Wrong(*position, *why),
        Told::Nothing => Joined::Lacking(number),
    }
}

// The same where one of those before it is wrong, at that position at first.
fn behind_wrong(position: u64, why: Reason, number: usize, one: &Told) -> Joined
    ensures says { (part : Target → ℕ) (format : Format) (settings : Settings) (records : List Record) (h : List Item)
        → IsFirstOf part format settings records h number position why → IsTold part format settings records h number one.now
        → JoinsFirst part format settings records h (number + 1) result }
    ensures lacking { (told : List Told) → slice_get told number ≡ Some one.now → AllAreTold number told
        → FindsLacking (number + 1) told result }
{
    match one {
        Told::Right(_) => Joined::Wrong(position, why),
        Told::Wrong(other, reason) => {
            if *other < position {
                return Joined::Wrong(*other, *reason);
            }
            Joined::Wrong(position, why)
        }
        Told::Nothing => Joined::Lacking(number),
    }
}

// Two counts as one, if each can be said.
fn added(one: &Counts, other: &Counts) -> Option<Counts>
    ensures { IfSome result (λ sum. sum ≡ added one.now other.now) }
{
    Some(Counts {
        records: one.records.checked_add(other.records)?,
        replies: one.replies.checked_add(other.replies)?,
        hits: one.hits.checked_add(other.hits)?,
        forwarded: one.forwarded.checked_add(other.forwarded)?,
        unmarked: one.unmarked.checked_add(other.unmarked)?,
    })
}
