//! Serving by a crowd, with lines on standard error.

ghost use Rattle.std.specs.Prelude.{ℕ, List, [], IfOk};
ghost use Rattle.hc_transcript.specs.Records.{opening};
ghost use Rattle.hc_service.specs.declared.settings.CoreOptions.{CoreOptions};
ghost use Rattle.hc_service.specs.declared.settings.CoreSettings.{CoreSettings};
ghost use Rattle.hc_service.specs.Sending.{recorded_format};
ghost use Rattle.hc_service.specs.Settings.{AreGood};
ghost use Rattle.hc_service.specs.State.{new_state_with};
ghost use Rattle.hc_core.specs.Steps.{StandsFor};
ghost use Rattle.hc_order.specs.Log.{Move};
ghost use Rattle.hc_drive.specs.Crowds.{GivesCrowd, GivesRecording, telling};
ghost use Rattle.hc_drive.specs.Rounds.{stage};
ghost use Rattle.hc_notices.specs.Notices.{SaysSome};

use crate::counting::{Bounds, Counting};
use crate::herald::Herald;
use crate::logging::Addressed;
use crate::recorded::Recorded;
use crate::wrongs::SpokenWrongs;
use hc_access::{AccessLog, Target};
use hc_core::Core;
use hc_crowd::{Crowd, World};
use hc_drive::{DriveFault, Watcher, serve_crowd};
use hc_links::{Batches, Links, Recorder};
use hc_monitor::Board;
use hc_notices::{Greeting, Voice};
use hc_sockets::Health;
use std::alloc::Global;
use std::collections::hash_map::RandomState;
use std::io::Write;

/// What is said once clients can connect, and what is looked at later.
#[derive(Clone, Copy)]
pub struct Opening<'a> {
    /// What gives memory.
    pub alloc: Global,
    /// Where clients can connect, and what is behind that.
    pub greeting: Greeting<'a>,
    /// Where whoever watches can connect; empty where nobody can.
    pub status: &'a str,
    /// What bounds it, as those who watch are told.
    pub bounds: Bounds,
    /// Where they leave word, and are told.
    pub board: &'a Board,
    /// Whether signals that ask the program to stop can be seen.
    pub hears_stops: bool,
    /// Whether the system still does what serving needs.
    pub health: &'a Health,
}

/// Serves those who come to the crowd, by the cache, until it is over, and records to that. What is amiss is said on
/// `faults`, and what is replied on the log.
///
/// Its clauses but the first are those of `serve_crowd` of hc_drive, for what `serve_proxy` serves by: a crowd over any
/// world, be it the system's sockets or one in memory, and a recorder that may end while serving goes on.
pub fn serve_links<W: World, T: Recorder + Recorded, L: Target, E: Write>(
    crowd: &mut Crowd<W>,
    start: Opening<'_>,
    core: &mut Core<RandomState>,
    recorder: &mut T,
    log: &mut AccessLog<L>,
    faults: &mut E,
) -> Result<(), DriveFault>
where
    W::Stream: Addressed,
    ensures said { SaysSome (E.contents faults.old) (E.contents faults.new) }
    // There are no more links than its limits let there be, however it ends.
    ensures few { (log : List Move) (text : List ℕ) → ⟦<Crowd<W> as Links>⟧.tells crowd.old log → T.has_got recorder.old text
        → ⟦<Crowd<W> as Links>⟧.within (⟦<Crowd<W> as Links>⟧.bounds crowd.old) crowd.new }
    // Where it ends well no link is left, and a stop was asked, or all clients have come that are served.
    ensures over { IfOk result (λ _. ⟦<Crowd<W> as Batches>⟧.over crowd.new) }
    // What a new cache recorded behind an opening is a transcript to which the strictest audit says yes, or a beginning of one.
    ensures transcript { (settings : CoreSettings) (options : CoreOptions) → AreGood settings → StandsFor settings core.old (new_state_with settings options)
        → ⟦<Crowd<W> as Links>⟧.tells crowd.old [] → T.has_got recorder.old (opening recorded_format)
        → GivesRecording result (T.has_got recorder.new) (T.has_kept recorder.new) }
    // What happened may happen in turn, was served by the cache, and was carried out, until it ended; and what clients have seen is safe.
    ensures serves { (log : List Move) (text : List ℕ) → ⟦<Crowd<W> as Links>⟧.tells crowd.old log → T.has_got recorder.old text
        → GivesCrowd (⟦<Crowd<W> as Links>⟧.most crowd.old) (⟦<Crowd<W> as Links>⟧.shows crowd.old log × T.has_kept recorder.old text) result
        (telling ⟦<Crowd<W> as Links>⟧.tells ⟦<Crowd<W> as Links>⟧.shows T.has_got T.has_kept crowd.new recorder.new) (stage core.old log text) core.new }
{
    let alloc = start.alloc;
    let voice = Voice::new(alloc, faults);
    let mut wrongs = SpokenWrongs::new(alloc);
    let counting = Counting::new(start.board, !start.status.is_empty(), start.bounds);
    let mut herald = Herald::new(alloc, voice, start.health, &mut wrongs, log, counting);
    herald.greet(start);
    let served = served_by(alloc, core, crowd, recorder, &mut herald);
    herald.conclude(crowd, &*recorder);
    served
}

/// Serves by those links, and says of it what `serve_links` does, and what is seen of who looks.
fn served_by<L: Batches, T: Recorder, V: Watcher<L, T>>(
    alloc: Global,
    core: &mut Core<RandomState>,
    links: &mut L,
    recorder: &mut T,
    watcher: &mut V,
) -> Result<(), DriveFault>
    ensures watched { V.may_become watcher.old watcher.new }
    ensures few { (log : List Move) (text : List ℕ) → L.tells links.old log → T.has_got recorder.old text → L.within (L.bounds links.old) links.new }
    ensures over { IfOk result (λ _. L.over links.new) }
    ensures transcript { (settings : CoreSettings) (options : CoreOptions) → AreGood settings → StandsFor settings core.old (new_state_with settings options)
        → L.tells links.old [] → T.has_got recorder.old (opening recorded_format) → GivesRecording result (T.has_got recorder.new) (T.has_kept recorder.new) }
    ensures serves { (log : List Move) (text : List ℕ) → L.tells links.old log → T.has_got recorder.old text
        → GivesCrowd (L.most links.old) (L.shows links.old log × T.has_kept recorder.old text) result
        (telling L.tells L.shows T.has_got T.has_kept links.new recorder.new) (stage core.old log text) core.new }
{
    serve_crowd(alloc, core, links, recorder, watcher)
}
