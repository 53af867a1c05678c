//! A connection is served over links in memory.

use crate::links::Memory;
use crate::notebook::{Device, Fault, Notebook};
use crate::scene::{Scene, Site, Ticking, new_core};
use hc_cases::Unanswered;
use hc_connection::Connection;
use hc_core::Core;
use hc_drive::{DriveFault, serve_connection};
use hc_links::{Clock, Link, Origins};
use std::alloc::Global;
use std::hash::BuildHasher;

/// What came of a connection.
pub(crate) struct Outcome {
    pub(crate) result: Result<(), DriveFault>,
    /// Whether the cache is idle then.
    pub(crate) idle: bool,
    /// How many octets were read from the client.
    pub(crate) read: usize,
    /// What was written to the client.
    pub(crate) reply: Vec<u8>,
    /// What was written to the recorder.
    pub(crate) recording: Vec<u8>,
    /// Whether the call that was to fail was made.
    pub(crate) failed: bool,
    /// Whether no call was made behind that one.
    pub(crate) silent: bool,
    /// How many reads there were at all links.
    pub(crate) reads: u64,
    /// The calls at all links.
    pub(crate) notes: String,
    /// What was written to origins.
    pub(crate) forwards: Vec<u8>,
}

impl Drop for Outcome {
    fn drop(self) {
        let Outcome {
            result: _,
            idle: _,
            read: _,
            reply,
            recording,
            failed: _,
            silent: _,
            reads: _,
            notes,
            forwards,
        } = self;
        drop(reply);
        drop(recording);
        drop(notes);
        drop(forwards);
    }
}

impl Outcome {
    /// Nothing has come yet.
    fn new(alloc: Global) -> Self {
        Outcome {
            result: Ok(()),
            idle: false,
            read: 0,
            reply: Vec::new(alloc),
            recording: Vec::new(alloc),
            failed: false,
            silent: false,
            reads: 0,
            notes: String::new(alloc),
            forwards: Vec::new(alloc),
        }
    }

    /// Takes what the links of the client and the recorder were given.
    fn see(&mut self, client: &Memory<'_>, recorder: &Memory<'_>) -> Result<(), Unanswered> {
        self.read = client.given();
        self.reply.extend_from_slice(client.got())?;
        self.recording.extend_from_slice(recorder.got())?;
        Ok(())
    }

    /// Takes what the notebook has.
    fn take(&mut self, notebook: Notebook) {
        self.failed = notebook.has_failed();
        self.silent = notebook.is_silent();
        self.reads = notebook.reads();
        let (notes, forwards) = notebook.contents();
        self.notes = notes;
        self.forwards = forwards;
    }
}

/// Serves the scene's connection to a new cache. That call fails, if one is named.
pub(crate) fn run(
    alloc: Global,
    scene: &Scene<'_>,
    fault: Option<Fault>,
) -> Result<Outcome, Unanswered> {
    let mut run = Outcome::new(alloc);
    fill(alloc, scene, fault, &mut run)?;
    Ok(run)
}

fn fill(
    alloc: Global,
    scene: &Scene<'_>,
    fault: Option<Fault>,
    run: &mut Outcome,
) -> Result<(), Unanswered> {
    let notebook = Notebook::new(alloc, fault);
    let answer = serve(alloc, scene, &notebook, run);
    run.take(notebook);
    answer
}

fn serve(
    alloc: Global,
    scene: &Scene<'_>,
    notebook: &Notebook,
    run: &mut Outcome,
) -> Result<(), Unanswered> {
    let mut core = new_core(alloc, scene.keeps_cookies)?;
    let site = Site {
        alloc,
        scene,
        notebook,
    };
    serve_by(&mut core, &site, run)
}

// The same, by that cache.
fn serve_by(core: &mut Core, site: &Site<'_>, run: &mut Outcome) -> Result<(), Unanswered> {
    let Site {
        alloc,
        scene,
        notebook,
    } = *site;
    let client = Memory::new(alloc, Device::Client, scene.client, scene.most, notebook);
    let mut recorder = Memory::new(alloc, Device::Recorder, b"", scene.most, notebook);
    let clock = Ticking::new(scene.step);
    let mut connection = Connection::new(alloc, 1, client, site, &clock);
    run.result = served(alloc, core, &mut connection, &mut recorder);
    run.idle = core.idle();
    run.see(connection.client(), &recorder)
}

/// Serves a connection.
// What `serve_connection` promises is of any links, and costs a check least where it isn't asked of these.
pub(crate) fn served<S: BuildHasher, C: Link, O: Origins, K: Clock, R: Link>(
    alloc: Global,
    core: &mut Core<S>,
    connection: &mut Connection<'_, C, O, K>,
    recorder: &mut R,
) -> Result<(), DriveFault> {
    serve_connection(alloc, core, connection, recorder)
}
