//! Rounds, as long as something happens.

ghost use Rattle.std.specs.Prelude.{ℕ, List, IfOk};
ghost use Rattle.hc_order.specs.Log.{Move};
ghost use Rattle.hc_links.specs.Keeping.{KeepsLinks, KeepsRecorder};
ghost use Rattle.hc_drive.specs.Carrying.{CountsRecorder};
ghost use Rattle.hc_drive.specs.Drives.{GivesDrive};
ghost use Rattle.hc_drive.specs.Rounds.{stage};

use crate::fault::DriveFault;
use crate::rounds::round;
use crate::watcher::Unwatched;
use hc_core::Core;
use hc_links::{Link, Links};
use hc_order::what_may_happen_in_turn_is_served;
use hc_service::{StepFault, agreement_is_ready, runs_go_on, runs_keep_agreement, steps_are_runs};
use std::alloc::Global;
use std::hash::BuildHasher;

/// Hands the cache what happens at the links, carries out what it does, and writes its records to the recorder, until
/// nothing more happens. It counts its rounds, and gives up behind 2^64 - 1 of them.
pub fn drive<S: BuildHasher, L: Links, R: Link>(
    alloc: Global,
    core: &mut Core<S>,
    links: &mut L,
    recorder: &mut R,
) -> Result<(), DriveFault>
    ensures drive { (log : List Move) (text : List ℕ) → L.tells links.old log → R.has_got recorder.old text
        → GivesDrive (L.most links.old) (L.tells links.new) (R.has_got recorder.new) (L.rests links.new)
        result (stage core.old log text) core.new }
    ensures rests { IfOk result (λ _. L.rests links.new) }
    ensures links { KeepsLinks L.shows L.most L.bounds L.may_tell links.old links.new }
    ensures recorder { KeepsRecorder R.has_kept R.was_read recorder.old recorder.new }
    ensures count { CountsRecorder result (R.count recorder.old) (R.count recorder.new) }
{
    // Laws, which do nothing: what is proved below rests on them.
    steps_are_runs();
    runs_keep_agreement();
    agreement_is_ready();
    runs_go_on();
    what_may_happen_in_turn_is_served();
    'rounds: for _ in 0..u64::MAX {
        if !round(alloc, core, links, recorder, &mut Unwatched)? {
            return Ok(());
        }
    }
    Err(DriveFault::Core(StepFault::Failed))
}
