//! What clients of a proxy are served by, and how that ends.

ghost use Rattle.std.specs.Prelude.{◌≡◌, ◌≤◌, ℕ, List, [], IfErr, IfOk, is_some};
ghost use Rattle.hc_transcript.specs.Records.{opening};
ghost use Rattle.hc_service.specs.declared.settings.CoreOptions.{CoreOptions};
ghost use Rattle.hc_service.specs.declared.settings.CoreSettings.{CoreSettings};
ghost use Rattle.hc_service.specs.Sending.{recorded_format};
ghost use Rattle.hc_service.specs.Settings.{AreGood};
ghost use Rattle.hc_service.specs.State.{new_state_with};
ghost use Rattle.hc_core.specs.Steps.{StandsFor};
ghost use Rattle.hc_order.specs.Log.{Move};
ghost use Rattle.hc_drive.specs.Crowds.{GivesCrowd, GivesRecording, telling};
ghost use Rattle.hc_drive.specs.Rounds.{stage};
ghost use Rattle.hc_notices.specs.Notices.{SaysSome};
ghost use Rattle.hc_serving.specs.Outcomes.{EndsFor, IsBrokenDown};
ghost use Rattle.hc_serving.specs.Proxies.{HasServed, OfRecorder, TellsEnd};

use crate::fault::ServeFault;
use crate::logging::Addressed;
use crate::recorded::Recorded;
use crate::watched::{Opening, serve_links};
use hc_access::{AccessLog, Target};
use hc_core::Core;
use hc_crowd::{Crowd, World};
use hc_drive::DriveFault;
use hc_links::{Batches, Link, Links, Off, Recorder};
use hc_sockets::{Breakdown, Health};
use std::collections::hash_map::RandomState;
use std::io;
use std::io::{ErrorKind, Write};

/// What clients were served by, as serving left it, and how that ended.
pub struct Served<W: World, T: Recorder> {
    /// The cache.
    pub core: Core<RandomState>,
    /// The links, and the world behind them.
    pub crowd: Crowd<W>,
    /// What was recorded by, if anything was.
    pub recorder: Option<T>,
    /// How driving the cache ended; well, as long as it hasn't.
    pub driven: Result<(), DriveFault>,
    /// How serving ended. Where driving ended well, it is well, unless the system let nobody be served any more.
    pub end: Result<(), ServeFault>,
}

impl<W: World + Drop, T: Recorder + Drop> Drop for Served<W, T> {
    fn drop(self) {
        let Served {
            core,
            crowd,
            recorder,
            driven: _,
            end: _,
        } = self;
        drop(core);
        drop(crowd);
        drop(recorder);
    }
}

impl<W: World + Drop, T: Recorder + Drop> Served<W, T> {
    /// How serving ended. What clients were served by is let go.
    pub fn into_end(self) -> Result<(), ServeFault>
        ensures { result ≡ self.end }
    {
        self.end
    }
}

impl<W: World, T: Recorder + Recorded> Served<W, T> {
    /// Serves those who come to the crowd, from the cache, and records, if anything is to be. What is amiss is said on `faults`,
    /// and what is replied on the log.
    pub(crate) fn serve<L: Target, E: Write>(
        &mut self,
        start: Opening<'_>,
        log: &mut AccessLog<L>,
        faults: &mut E,
    )
    where
        W::Stream: Addressed,
        ensures said { SaysSome (E.contents faults.old) (E.contents faults.new) }
        ensures ends { TellsEnd self.new.driven self.new.end }
        ensures recorder { is_some self.new.recorder ≡ is_some self.old.recorder }
        ensures few { (log : List Move) (text : List ℕ) → ⟦<Crowd<W> as Links>⟧.tells self.old.crowd log → OfRecorder T.has_got self.old.recorder text
            → ⟦<Crowd<W> as Links>⟧.within (⟦<Crowd<W> as Links>⟧.bounds self.old.crowd) self.new.crowd }
        ensures over { IfOk self.new.driven (λ _. ⟦<Crowd<W> as Batches>⟧.over self.new.crowd) }
        ensures transcript { (settings : CoreSettings) (options : CoreOptions) → AreGood settings → StandsFor settings self.old.core (new_state_with settings options)
            → ⟦<Crowd<W> as Links>⟧.tells self.old.crowd [] → OfRecorder T.has_got self.old.recorder (opening recorded_format)
            → GivesRecording self.new.driven (OfRecorder T.has_got self.new.recorder) (OfRecorder T.has_kept self.new.recorder) }
        ensures serves { (settings : CoreSettings) (options : CoreOptions) → AreGood settings → StandsFor settings self.old.core (new_state_with settings options)
            → ⟦<Crowd<W> as Links>⟧.most self.old.crowd ≤ options.connections
            → ⟦<Crowd<W> as Links>⟧.tells self.old.crowd [] → OfRecorder T.has_got self.old.recorder (opening recorded_format)
            → ⟦<Crowd<W> as Links>⟧.shows self.old.crowd [] → OfRecorder T.has_kept self.old.recorder (opening recorded_format)
            → HasServed settings options (⟦<Crowd<W> as Links>⟧.most self.old.crowd) self.new.driven
            (telling ⟦<Crowd<W> as Links>⟧.tells ⟦<Crowd<W> as Links>⟧.shows (OfRecorder T.has_got) (OfRecorder T.has_kept) self.new.crowd self.new.recorder) self.new.core }
    {
        self.driven = serve_to(
            &mut self.crowd,
            start,
            &mut self.core,
            &mut self.recorder,
            log,
            faults,
        );
        self.end = told_of(self.driven, start.health, reason_of(&self.recorder));
    }
}

/// Serves those who come to the crowd, from the cache, and records to that, if to anything.
fn serve_to<W: World, T: Recorder + Recorded, L: Target, E: Write>(
    crowd: &mut Crowd<W>,
    start: Opening<'_>,
    core: &mut Core<RandomState>,
    recorder: &mut Option<T>,
    log: &mut AccessLog<L>,
    faults: &mut E,
) -> Result<(), DriveFault>
where
    W::Stream: Addressed,
    ensures said { SaysSome (E.contents faults.old) (E.contents faults.new) }
    ensures recorder { is_some recorder.new ≡ is_some recorder.old }
    ensures few { (log : List Move) (text : List ℕ) → ⟦<Crowd<W> as Links>⟧.tells crowd.old log → OfRecorder T.has_got recorder.old text
        → ⟦<Crowd<W> as Links>⟧.within (⟦<Crowd<W> as Links>⟧.bounds crowd.old) crowd.new }
    ensures over { IfOk result (λ _. ⟦<Crowd<W> as Batches>⟧.over crowd.new) }
    ensures transcript { (settings : CoreSettings) (options : CoreOptions) → AreGood settings → StandsFor settings core.old (new_state_with settings options)
        → ⟦<Crowd<W> as Links>⟧.tells crowd.old [] → OfRecorder T.has_got recorder.old (opening recorded_format)
        → GivesRecording result (OfRecorder T.has_got recorder.new) (OfRecorder T.has_kept recorder.new) }
    ensures serves { (log : List Move) (text : List ℕ) → ⟦<Crowd<W> as Links>⟧.tells crowd.old log → OfRecorder T.has_got recorder.old text
        → GivesCrowd (⟦<Crowd<W> as Links>⟧.most crowd.old) (⟦<Crowd<W> as Links>⟧.shows crowd.old log × OfRecorder T.has_kept recorder.old text) result
        (telling ⟦<Crowd<W> as Links>⟧.tells ⟦<Crowd<W> as Links>⟧.shows (OfRecorder T.has_got) (OfRecorder T.has_kept) crowd.new recorder.new)
        (stage core.old log text) core.new }
{
    match recorder {
        Some(recorder) => serve_links(crowd, start, core, recorder, log, faults),
        None => serve_links(crowd, start, core, &mut Off, log, faults),
    }
}

/// Why what was recorded by failed last, if it did.
fn reason_of<T: Recorded>(recorder: &Option<T>) -> Option<io::Error> {
    match recorder {
        Some(recorder) => recorder.reason(),
        None => None,
    }
}

/// How serving ended, where driving the cache ended so. The reason is that for which the recorder failed last.
fn told_of(
    driven: Result<(), DriveFault>,
    health: &Health,
    recording: Option<io::Error>,
) -> Result<(), ServeFault>
    ensures { TellsEnd driven result }
{
    match driven {
        Ok(()) => ended(health),
        Err(fault) => Err(fault_of(fault, recording)),
    }
}

/// How serving ended that met no fault: well, unless the system lets nobody be served any more.
fn ended(health: &Health) -> Result<(), ServeFault>
    ensures { IfErr result IsBrokenDown }
{
    match health.end() {
        None => Ok(()),
        Some(Breakdown::Poll(reason)) => Err(ServeFault::Poll(reason)),
        Some(Breakdown::Clock(reason)) => Err(ServeFault::Monotonic(reason)),
    }
}

/// Why serving ended. The reason is that for which the recorder failed last.
fn fault_of(fault: DriveFault, recording: Option<io::Error>) -> ServeFault
    ensures { EndsFor fault result }
{
    match fault {
        DriveFault::Recorder => {
            ServeFault::Record(recording.unwrap_or(io::Error::from(ErrorKind::Other)))
        }
        // It is want of memory: a crowd tells a cache of nothing for which it returns another fault, and of
        // no moment that is too large.
        DriveFault::Core(_) => ServeFault::Memory,
        // A crowd has no client whose link ends it all.
        DriveFault::Client => ServeFault::Memory,
    }
}
