//! One round: something happens, the cache is handed it, and what it does is carried out.

ghost use Rattle.std.specs.Prelude.{◌≡◌, ℕ, List, Ok, false};
ghost use Rattle.hc_order.specs.Log.{Move};
ghost use Rattle.hc_links.specs.Keeping.{KeepsLinks, KeepsRecorder};
ghost use Rattle.hc_drive.specs.Carrying.{CountsRecorder};
ghost use Rattle.hc_drive.specs.Rounds.{GivesRound, awaited_by, stage};

use crate::asked::Asked;
use crate::carrying::carry_out;
use crate::fault::DriveFault;
use crate::watcher::Watcher;
use hc_core::Core;
use hc_links::{Link, Links};
use std::alloc::Global;
use std::hash::BuildHasher;

/// One round. Returns whether something happened.
pub(crate) fn round<S: BuildHasher, L: Links, R: Link, V: Watcher<L, R>>(
    alloc: Global,
    core: &mut Core<S>,
    links: &mut L,
    recorder: &mut R,
    watcher: &mut V,
) -> Result<bool, DriveFault>
    ensures round { (log : List Move) (text : List ℕ) → L.tells links.old log → R.has_got recorder.old text
        → GivesRound (L.most links.old) (L.heeds (awaited_by core.old)) (L.tells links.new) (R.has_got recorder.new)
        result (stage core.old log text) core.new }
    ensures rests { result ≡ Ok false → L.rests links.new }
    ensures links { KeepsLinks L.shows L.most L.bounds L.may_tell links.old links.new }
    ensures recorder { KeepsRecorder R.has_kept R.was_read recorder.old recorder.new }
    ensures count { CountsRecorder result (R.count recorder.old) (R.count recorder.new) }
    ensures watched { V.may_become watcher.old watcher.new }
{
    let Some(occurrence) = links.next(&Asked { core: &*core })? else {
        return Ok(false);
    };
    watcher.hear(&*links, &occurrence);
    let actions = core.step(occurrence.event)?;
    carry_out(alloc, links, recorder, actions.as_slice())?;
    watcher.see(&*links, &Asked { core: &*core }, actions.as_slice());
    Ok(true)
}
