//! What the cache does is carried out.

ghost use Rattle.std.specs.Prelude.{ℕ, List, [], ◌∷◌, IfErr};
ghost use Rattle.hc_order.specs.Log.{Move};
ghost use Rattle.hc_links.specs.Keeping.{KeepsLinks, KeepsRecorder};
ghost use Rattle.hc_drive.specs.Carrying.{CountsRecorder, GivesDone, IsOfCarrying};

use crate::fault::DriveFault;
use crate::recorder::record;
use hc_links::{Link, Links};
use hc_order::Receiver;
use hc_service::Action;
use std::alloc::Global;

/// Carries out one action.
fn carry_out_one<L: Links, R: Link>(
    alloc: Global,
    links: &mut L,
    recorder: &mut R,
    action: &Action,
) -> Result<(), DriveFault>
    ensures done { (log : List Move) (text : List ℕ) → L.tells links.old log → R.has_got recorder.old text
        → GivesDone (L.tells links.new) (R.has_got recorder.new) result («action».now ∷ []) log text }
    ensures links { KeepsLinks L.shows L.most L.bounds L.may_tell links.old links.new }
    ensures recorder { KeepsRecorder R.has_kept R.was_read recorder.old recorder.new }
    ensures count { CountsRecorder result (R.count recorder.old) (R.count recorder.new) }
    ensures why { IfErr result IsOfCarrying }
{
    match action {
        Action::ToClient(c, text) => links.send(Receiver::Client(*c), text)?,
        Action::Forward(f, text) => links.send(Receiver::Origin(*f), text)?,
        Action::CloseClient(c) => links.close(Receiver::Client(*c)),
        Action::CloseForward(f) => links.close(Receiver::Origin(*f)),
        Action::Record(given) => record(alloc, recorder, given)?,
    }
    Ok(())
}

/// Carries out actions, in order. Behind a record that can't be written nothing is done.
pub(crate) fn carry_out<L: Links, R: Link>(
    alloc: Global,
    links: &mut L,
    recorder: &mut R,
    actions: &[Action],
) -> Result<(), DriveFault>
    ensures done { (log : List Move) (text : List ℕ) → L.tells links.old log → R.has_got recorder.old text
        → GivesDone (L.tells links.new) (R.has_got recorder.new) result actions.now log text }
    ensures links { KeepsLinks L.shows L.most L.bounds L.may_tell links.old links.new }
    ensures recorder { KeepsRecorder R.has_kept R.was_read recorder.old recorder.new }
    ensures count { CountsRecorder result (R.count recorder.old) (R.count recorder.new) }
    ensures why { IfErr result IsOfCarrying }
{
    'actions: for action in actions {
        carry_out_one(alloc, links, recorder, action)?;
    }
    Ok(())
}
