//! Many clients at once.

ghost use Rattle.std.specs.Prelude.{◌≡◌, [], IfErr, IfOk, is_some};
ghost use Rattle.hc_transcript.specs.Records.{opening};
ghost use Rattle.hc_service.specs.Sending.{recorded_format};
ghost use Rattle.hc_service.specs.Settings.{AreGood};
ghost use Rattle.hc_service.specs.State.{new_state_with};
ghost use Rattle.hc_core.specs.Steps.{StandsFor};
ghost use Rattle.hc_drive.specs.Crowds.{GivesRecording, telling};
ghost use Rattle.hc_notices.specs.Notices.{SaysSome};
ghost use Rattle.hc_serving.specs.Proxies.{HasServed, IsOfBeginning, IsOfMaking, OfRecorder, TellsEnd, options_within};

use crate::checks::{check_open_files, check_recording};
use crate::claim::Claim;
use crate::counting::Bounds;
use crate::fault::ServeFault;
use crate::recording::{FileRecorder, RecordTo, new_recorder};
use crate::served::Served;
use crate::watched::Opening;
use hc_access::{AccessLog, Target};
use hc_core::{Core, CoreFault};
use hc_crowd::{Crowd, Limits, World};
use hc_links::{Batches, Link, Links};
use hc_monitor::Board;
use hc_notices::Greeting;
use hc_service::{CoreOptions, CoreSettings};
use hc_sockets::{Ends, Health, Sockets, SocketsFault};
use std::alloc::{AllocError, Global};
use std::collections::hash_map::RandomState;
use std::io;
use std::io::Write;
use std::net::Net;
use std::random::RandomSource;
use std::rt::Files;
use std::time::Clock;

/// Between whom a proxy serves.
#[derive(Clone, Copy)]
pub struct Proxy<'a> {
    /// The hosts and the ports to which clients connect, at each address that a host has, and the paths of the system's own
    /// sockets, behind `unix:`.
    pub listen: &'a [&'a str],
    /// The host and the port to which whoever watches connects, if anybody may.
    pub status: Option<&'a str>,
    /// The host and the port of the origin.
    pub origin: &'a str,
    /// Where and how far that is recorded, if it is.
    pub recording: Option<RecordTo<'a>>,
    /// Whether responses that set a cookie are stored, where they may be.
    pub keeps_cookies: bool,
}

impl<'a> Proxy<'a> {
    /// The file that it records to, if it does.
    fn file(self) -> Option<&'a str> {
        match self.recording {
            Some(to) => Some(to.file),
            None => None,
        }
    }
}

/// The system by which clients are served, and where its failures are noted.
#[derive(Clone, Copy)]
pub struct System<'a, R> {
    /// Its sockets, files and clocks.
    pub rt: &'a R,
    /// Where its failures are noted.
    pub health: &'a Health,
    /// Where those who watch leave word.
    pub board: &'a Board,
}

/// Serves clients from a new cache of those settings, many at once in one thread, until the program is asked to stop, or as
/// many have come as the limits say. The settings have to be such as a cache can have (`is_name` and `is_size` of
/// hc_service). Where the system doesn't let so many files be open as the limits may want, or doesn't tell which signals are
/// pending, nothing is begun. Serving ends where the system can't say what is ready a hundred times in a row, or its clock
/// that is never set can't be read: then no link is waited for.
///
/// The file is created, or has to be empty: a recording is never emptied. A new one can be read and written by its owner
/// alone, since it tells what clients send, credentials too. It is claimed, so that no other program records to it as
/// long as it is open; `/dev/null` is neither claimed nor has it to be empty. A directory, a pipe, a socket or another
/// device is refused before it is opened. The file gets the opening of a transcript before clients are accepted, and the
/// records of a batch before what they tell leaves for a client. Where a record can't be written, or the limit was
/// reached, the recording ends for good, as a beginning of a transcript, and serving goes on; where it is strict, it is
/// serving that ends where a record can't be written.
///
/// Once clients can connect, `faults` gets a line that says where. Later it gets one for each kind of failure of links,
/// a second apart at least, one where the wall clock was set back, and one where the recording ends before serving does.
/// Behind a line that can't be written it gets no other. The log gets a line for each reply, once it was written.
///
/// Whoever watches asks at addresses of their own for numbers, for whether it serves, and for a page; none of these requests
/// reaches the cache, and none is recorded or logged.
///
/// Returns what clients were served by, and how that ended, or why it didn't begin. What its clauses say of links and of
/// octets is what these tell: a crowd what it heard, sent and closed, the recorder what was written to it. Of the system's
/// sockets and of its files no clause can say what passed there. Once a recording has ended, the recorder tells a beginning
/// of what was written to it, and where nothing is recorded, nothing.
pub fn serve_proxy<'a, R, L: Target, E: Write>(
    system: System<'a, R>,
    proxy: Proxy<'a>,
    limits: Limits,
    settings: CoreSettings,
    log: &mut AccessLog<L>,
    faults: &mut E,
) -> Result<Served<Sockets<'a, R>, FileRecorder<R::File>>, ServeFault>
where
    R: Net + Files + Clock + RandomSource + AllocGlobal,
    R::File: Claim,
    requires { AreGood settings }
    ensures said { SaysSome (E.contents faults.old) (E.contents faults.new) }
    // Why it didn't begin.
    ensures unserved { IfErr result (IsOfBeginning limits) }
    // How it ended is told as it was.
    ensures ends { IfOk result (λ served. TellsEnd served.driven served.end) }
    // Something is recorded where that is asked for, and only there.
    ensures recorder { IfOk result (λ served. is_some served.recorder ≡ is_some proxy.entry.recording) }
    // There are no more links than its limits let there be, however it ends.
    ensures few { IfOk result (λ served. ⟦<Crowd<Sockets<'a, R>> as Links>⟧.within limits served.crowd) }
    // Where it ends well no link is left, and a stop was asked, or all clients have come that are served.
    ensures over { IfOk result (λ served. IfOk served.driven (λ _. ⟦<Crowd<Sockets<'a, R>> as Batches>⟧.over served.crowd)) }
    // What was recorded is a transcript to which the strictest audit says yes, all of it for good where it ends well, or a beginning of one.
    ensures transcript { IfOk result (λ served. GivesRecording served.driven
        (OfRecorder ⟦<FileRecorder<R::File> as Link>⟧.has_got served.recorder) (OfRecorder ⟦<FileRecorder<R::File> as Link>⟧.has_kept served.recorder)) }
    // A new cache served what happened, in turn, all that it did was carried out, and what clients have seen is safe.
    ensures serves { IfOk result (λ served. HasServed settings (options_within limits proxy.entry.keeps_cookies) limits.connections served.driven
        (telling ⟦<Crowd<Sockets<'a, R>> as Links>⟧.tells ⟦<Crowd<Sockets<'a, R>> as Links>⟧.shows (OfRecorder ⟦<FileRecorder<R::File> as Link>⟧.has_got) (OfRecorder ⟦<FileRecorder<R::File> as Link>⟧.has_kept)
        served.crowd served.recorder) served.core) }
{
    let (sockets, told) = prepared(&system, proxy, limits)?;
    let start = opening_of(&system, proxy, limits, &settings, &told);
    let mut served = begun(system.rt, sockets, proxy, limits, settings)?;
    served.serve(start, log, faults);
    Ok(served)
}

/// What is told of sockets.
#[derive(Drop)]
struct Told {
    /// Where clients connect.
    addresses: String,
    /// Where whoever watches does; empty where nobody can.
    status: String,
    /// Whether signals that ask the program to stop can be seen.
    hears_stops: bool,
}

/// The sockets, where the system lets them and what is recorded to be, and what is told of them.
fn prepared<'a, R>(
    system: &System<'a, R>,
    proxy: Proxy<'a>,
    limits: Limits,
) -> Result<(Sockets<'a, R>, Told), ServeFault>
where
    R: Net + Files + Clock + AllocGlobal,
    ensures { IfErr result (IsOfBeginning limits) }
{
    check_recording(system.rt, proxy.file())?;
    check_open_files(system.rt, limits)?;
    let sockets = new_sockets(system, proxy)?;
    let told = told_of(system.rt.alloc(), &sockets)?;
    Ok((sockets, told))
}

/// What is told of them.
fn told_of<R: Net + Files + Clock>(
    alloc: Global,
    sockets: &Sockets<'_, R>,
) -> Result<Told, AllocError> {
    let addresses = copied(alloc, sockets.addresses())?;
    let status = copied(alloc, sockets.status_addresses())?;
    Ok(Told {
        addresses,
        status,
        hears_stops: sockets.hears_stops(),
    })
}

/// What is said once clients can connect, and what is looked at later.
fn opening_of<'a, R: AllocGlobal>(
    system: &System<'a, R>,
    proxy: Proxy<'a>,
    limits: Limits,
    settings: &CoreSettings,
    told: &'a Told,
) -> Opening<'a> {
    let keys = settings.keys;
    let bytes = settings.bytes;
    Opening {
        alloc: system.rt.alloc(),
        greeting: Greeting {
            addresses: told.addresses.as_str(),
            origin: proxy.origin,
            keys,
            bytes,
        },
        status: told.status.as_str(),
        bounds: Bounds {
            limits,
            keys,
            bytes,
            records: proxy.recording.is_some(),
        },
        board: system.board,
        hears_stops: told.hears_stops,
        health: system.health,
    }
}

/// What clients are served by in that world, to which nothing has happened yet.
fn begun<R, W: World + Drop>(
    rt: &R,
    world: W,
    proxy: Proxy<'_>,
    limits: Limits,
    settings: CoreSettings,
) -> Result<Served<W, FileRecorder<R::File>>, ServeFault>
where
    R: Files + RandomSource + AllocGlobal,
    R::File: Claim,
    requires { AreGood settings }
    ensures unserved { IfErr result (IsOfBeginning limits) }
    ensures recorder { IfOk result (λ served. is_some served.recorder ≡ is_some proxy.entry.recording) }
    ensures recording { IfOk result (λ served. OfRecorder ⟦<FileRecorder<R::File> as Link>⟧.has_got served.recorder (opening recorded_format)
        × OfRecorder ⟦<FileRecorder<R::File> as Link>⟧.has_kept served.recorder (opening recorded_format)) }
    ensures core { IfOk result (λ served. StandsFor settings served.core (new_state_with settings (options_within limits proxy.entry.keeps_cookies))) }
    ensures tells { IfOk result (λ served. ⟦<Crowd<W> as Links>⟧.tells served.crowd [] × ⟦<Crowd<W> as Links>⟧.shows served.crowd []) }
    ensures limits { IfOk result (λ served. (⟦<Crowd<W> as Links>⟧.bounds served.crowd ≡ limits) × (⟦<Crowd<W> as Links>⟧.most served.crowd ≡ limits.connections)) }
{
    let options = CoreOptions {
        connections: limits.connections,
        keeps_cookies: proxy.keeps_cookies,
    };
    let crowd = Crowd::new(rt.alloc(), world, limits)?;
    let core = new_core(rt, settings, options)?;
    let recorder = new_recorder(rt, proxy.recording)?;
    Ok(Served {
        core,
        crowd,
        recorder,
        driven: Ok(()),
        end: Ok(()),
    })
}

/// Sockets to which clients connect, and the addresses of the origin.
fn new_sockets<'a, R>(
    system: &System<'a, R>,
    proxy: Proxy<'a>,
) -> Result<Sockets<'a, R>, ServeFault>
where
    R: Net + Files + Clock + AllocGlobal,
    ensures { IfErr result IsOfMaking }
{
    let ends = Ends {
        listen: proxy.listen,
        origin: proxy.origin,
        status: proxy.status,
        board: system.board,
    };
    match Sockets::new(system.rt, system.health, ends) {
        Ok(sockets) => Ok(sockets),
        Err(SocketsFault::Memory) => Err(ServeFault::Memory),
        Err(SocketsFault::Listen(place, reason)) => Err(ServeFault::Listener { place, reason }),
        Err(SocketsFault::Status(reason)) => Err(ServeFault::Status(reason)),
        Err(SocketsFault::Origin(reason)) => Err(ServeFault::Origin(reason)),
        Err(SocketsFault::Signals(reason)) => Err(ServeFault::Signals(reason)),
    }
}

/// A new cache with those options, whose store hashes targets with keys that no client knows.
fn new_core<R: RandomSource + AllocGlobal>(
    rt: &R,
    settings: CoreSettings,
    options: CoreOptions,
) -> Result<Core<RandomState>, ServeFault>
    requires { AreGood settings }
    ensures made { IfOk result (λ core. StandsFor settings core (new_state_with settings options)) }
    ensures unmade { IfErr result IsOfMaking }
{
    let keys = match RandomState::new(rt) {
        Ok(keys) => keys,
        Err(reason) => return Err(ServeFault::Random(reason)),
    };
    match Core::with_options(rt.alloc(), settings, keys, options) {
        Ok(core) => Ok(core),
        Err(CoreFault::Memory) => Err(ServeFault::Memory),
        // A cache may have this name.
        Err(CoreFault::Name) => unreachable!(),
        // It may keep responses of so many targets.
        Err(CoreFault::Size) => unreachable!(),
        Err(CoreFault::Room) => Err(ServeFault::Listener {
            place: 0,
            reason: io::Error::other("a cache has room for 1 to 65536 connections"),
        }),
    }
}

/// A text of its own with the same in it.
fn copied(alloc: Global, text: &str) -> Result<String, AllocError> {
    format!(in alloc; "{text}")
}
