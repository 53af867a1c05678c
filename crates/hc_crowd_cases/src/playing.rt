//! A script is played, and clients are served meanwhile.

use crate::wrongs::{counts_of, text_of};
use hc_cases::Unanswered;
use hc_core::{Core, CoreFault, CoreSettings};
use hc_crowd::{Crowd, Limits, World};
use hc_crowd_world::{Made, Noted, Notes, Play, Script, Sheet};
use hc_drive::{DriveFault, Unwatched, serve_crowd};
use hc_fields::Octets;
use hc_links::{Batches, Buffered, Recorder};
use std::alloc::{AllocError, Global};
use std::cell::RefCell;
use std::hash::BuildHasher;
use std::mem;

/// What came of a script that was played.
pub(crate) struct Played {
    pub(crate) served: Served,
    /// The world behind it.
    pub(crate) play: Play,
}

impl Drop for Played {
    fn drop(self) {
        let Played { served, play } = self;
        drop(served);
        drop(play);
    }
}

/// What came of serving.
pub(crate) struct Served {
    /// What happened.
    pub(crate) notes: Notes,
    /// What was recorded for good.
    pub(crate) recording: Vec<u8>,
    pub(crate) result: Result<(), DriveFault>,
    /// Whether the cache is idle.
    pub(crate) idle: bool,
    /// Whether the wall clock is behind.
    pub(crate) behind: bool,
    /// How many forwards failed, and how many links were cut off, as text.
    pub(crate) counts: String,
    /// What was wrong with what came, and with links, as text.
    pub(crate) wrongs: String,
}

impl Drop for Served {
    fn drop(self) {
        let Served {
            notes,
            recording,
            result: _,
            idle: _,
            behind: _,
            counts,
            wrongs,
        } = self;
        drop(notes);
        drop(recording);
        drop(counts);
        drop(wrongs);
    }
}

/// What the cache is.
pub(crate) fn settings(alloc: Global) -> Result<CoreSettings, AllocError> {
    Ok(CoreSettings {
        name: Octets::from_slice(alloc, b"hcache")?,
        keys: 64,
        bytes: 1_048_576,
    })
}

fn new_core(alloc: Global) -> Result<Core, Unanswered> {
    match Core::new(alloc, settings(alloc)?) {
        Ok(core) => Ok(core),
        Err(CoreFault::Memory) => Err(Unanswered::Memory),
        Err(_) => Err(Unanswered::Unknown),
    }
}

/// Plays the script, and returns what came of it.
pub(crate) fn perform(alloc: Global, script: Script) -> Result<Played, Unanswered> {
    let limits = script.limits;
    let writes = script.writes;
    let play = RefCell::new(Play::new(alloc, script));
    let served = serve(alloc, &play, limits, writes)?;
    Ok(Played {
        served,
        play: play.into_inner(),
    })
}

fn serve(
    alloc: Global,
    play: &RefCell<Play>,
    limits: Limits,
    writes: u64,
) -> Result<Served, Unanswered> {
    let mut core = new_core(alloc)?;
    serve_world(alloc, &mut core, Made { play }, limits, writes)
}

/// Serves the clients of a world.
fn serve_world<W: World + Drop>(
    alloc: Global,
    core: &mut Core,
    world: W,
    limits: Limits,
    writes: u64,
) -> Result<Served, Unanswered> {
    let mut noted = Noted::new(alloc, Crowd::new(alloc, world, limits)?);
    serve_noted(alloc, core, &mut noted, writes)
}

fn serve_noted<W: World + Drop>(
    alloc: Global,
    core: &mut Core,
    noted: &mut Noted<Crowd<W>>,
    writes: u64,
) -> Result<Served, Unanswered> {
    let mut recorder = Buffered::new(alloc, Sheet::new(alloc, writes)?);
    let result = serve_links(alloc, core, noted, &mut recorder);
    Ok(Served {
        notes: mem::replace(&mut noted.notes, Notes::new(alloc)),
        recording: recorder.into_link().into_got(),
        result,
        idle: core.idle(),
        behind: noted.links.is_behind(),
        counts: counts_of(alloc, noted.links.troubles())?,
        wrongs: text_of(alloc, noted.links.troubles())?,
    })
}

// What `serve_crowd` promises is of any links, and costs a check least where it isn't asked of these.
fn serve_links<S: BuildHasher, L: Batches, R: Recorder>(
    alloc: Global,
    core: &mut Core<S>,
    noted: &mut Noted<L>,
    recorder: &mut R,
) -> Result<(), DriveFault> {
    serve_crowd(alloc, core, noted, recorder, &mut Unwatched)
}
