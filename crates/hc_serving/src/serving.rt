//! Connections of clients, one after another.

ghost use Rattle.hc_service.specs.Settings.{AreGood};
ghost use Rattle.hc_serving.specs.Outcomes.{MeansFor};

use crate::claim::Claim;
use crate::fault::ServeFault;
use hc_core::{Core, CoreFault};
use hc_drive::{ServingFault, Surroundings, serve_clients};
use hc_links::{Clients, Clock as Moments, Link, Origins};
use hc_service::{CoreSettings, StepFault};
use hc_sockets::{Listening, Origin, Recording, SystemClock, SystemLink};
use hc_transcript::Format;
use std::alloc::Global;
use std::collections::hash_map::RandomState;
use std::fs::{OpenFile, OpenOptions, Permissions};
use std::io;
use std::io::{ErrorKind, Write};
use std::net::{Net, TcpListener};
use std::os::unix::fs::PermissionsExt;
use std::random::RandomSource;
use std::rt::Files;
use std::time::Clock;

/// Who may read and write a new file: its owner.
const OWNER_ALONE: u32 = 0o600;

/// What is served.
#[derive(Clone, Copy)]
pub struct Service<'a> {
    /// The host and the port to which clients connect.
    pub listen: &'a str,
    /// The host and the port of the origin.
    pub origin: &'a str,
    /// How many connections of clients are served.
    pub connections: u64,
    /// The file that is recorded to.
    pub file: &'a str,
}

/// Serves so many connections of clients from a new cache of those settings, one after another, with numbers from 1. The
/// settings have to be such as a cache can have (`is_name` and `is_size` of hc_service). The file is created, or claimed and
/// then emptied, and gets the opening of a transcript before clients can connect. A new one can be read and written by its
/// owner alone, since it tells what clients send, credentials too. One that another program has claimed stays as it is;
/// a pipe or a device is neither claimed nor emptied. A client whose link fails is served no further, and the next one
/// is.
///
/// A connection that was served without a fault is closed in stages (RFC 9112 section 9.6). First, where the cache closes
/// it, what is written to the client ends. Behind all that was open, what the client still sends is read and dropped,
/// until it ends too: at most 16 reads of 8,192 octets, each of which waits a second at most. Only then is the socket
/// closed, since the system resets a connection that is closed while octets of the client are unread, and a reply on its
/// way may be lost by that. Where the system refuses to wait for a second alone, or memory for those reads, the socket is
/// closed at once.
///
/// No clause says so, since none can say what the system's sockets and files hold. What is recorded of the octets that
/// links give and get is what `serve_clients` of hc_drive promises, and what it asks of the cache and of the file holds
/// here: the cache is new, and the file has the opening.
pub fn serve<R>(rt: &R, service: Service<'_>, settings: CoreSettings) -> Result<(), ServeFault>
where
    R: Net + Files + Clock + RandomSource + AllocGlobal,
    R::File: Claim,
    requires { AreGood settings }
{
    let mut core = new_core(rt, settings)?;
    serve_with(rt, service, &mut core)
}

/// Makes the file and the socket, and serves from the cache.
fn serve_with<R>(
    rt: &R,
    service: Service<'_>,
    core: &mut Core<RandomState>,
) -> Result<(), ServeFault>
where
    R: Net + Files + Clock + AllocGlobal,
    R::File: Claim,
{
    let mut recorder = new_recorder(rt, service.file)?;
    let mut clients = new_listening(rt, service.listen)?;
    serve_from(rt, service, core, &mut clients, &mut recorder)
}

/// Serves the clients from the cache.
fn serve_from<R: Net + Files + Clock + AllocGlobal>(
    rt: &R,
    service: Service<'_>,
    core: &mut Core<RandomState>,
    clients: &mut Listening<R>,
    recorder: &mut SystemLink<Recording<R::File>>,
) -> Result<(), ServeFault> {
    let origin = Origin {
        net: rt,
        address: service.origin,
    };
    let surroundings = Surroundings {
        origins: &origin,
        clock: &SystemClock { system: rt },
    };
    let count = service.connections;
    match serve_by(rt.alloc(), core, clients, &surroundings, recorder, count) {
        Ok(()) => Ok(()),
        Err(fault) => Err(fault_of(fault, clients.reason(), recorder.reason())),
    }
}

/// Serves so many clients, of any kind.
fn serve_by<A: Clients, O: Origins, K: Moments, T: Link>(
    alloc: Global,
    core: &mut Core<RandomState>,
    clients: &mut A,
    surroundings: &Surroundings<'_, O, K>,
    recorder: &mut T,
    count: u64,
) -> Result<(), ServingFault> {
    serve_clients(alloc, core, clients, surroundings, recorder, count)
}

/// A new cache, whose store hashes targets with keys that no client knows.
fn new_core<R: RandomSource + AllocGlobal>(
    rt: &R,
    settings: CoreSettings,
) -> Result<Core<RandomState>, ServeFault>
    requires { AreGood settings }
{
    let keys = match RandomState::new(rt) {
        Ok(keys) => keys,
        Err(reason) => return Err(ServeFault::Random(reason)),
    };
    match Core::with_hasher(rt.alloc(), settings, keys) {
        Ok(core) => Ok(core),
        Err(CoreFault::Memory) => Err(ServeFault::Memory),
        // A cache may have this name.
        Err(CoreFault::Name) => unreachable!(),
        // It may keep responses of so many targets.
        Err(CoreFault::Size) => unreachable!(),
        // It has the usual room.
        Err(CoreFault::Room) => unreachable!(),
    }
}

/// What records to the file of that name, which has the opening of a transcript.
fn new_recorder<R: Files>(rt: &R, name: &str) -> Result<SystemLink<Recording<R::File>>, ServeFault>
where
    R::File: Claim,
{
    match begun(rt, name) {
        Ok(file) => Ok(SystemLink::new(Recording { file })),
        Err(reason) => Err(ServeFault::Record(reason)),
    }
}

/// Clients who connect to that host and port.
fn new_listening<R: Net + AllocGlobal>(rt: &R, address: &str) -> Result<Listening<R>, ServeFault> {
    match TcpListener::bind(rt, address) {
        Ok(listener) => Ok(Listening::new(rt.alloc(), listener)),
        Err(reason) => Err(ServeFault::Listener { place: 0, reason }),
    }
}

/// The file, claimed and emptied, and then with the opening of a transcript.
fn begun<R: Files>(rt: &R, name: &str) -> io::Result<R::File>
where
    R::File: Claim,
{
    let mut file = opened(rt, name)?;
    // A pipe or a device has nothing that could be lost.
    if file.metadata()?.is_file() {
        file.claim()?;
        file.set_len(0)?;
    }
    file.write_all(Format::Second.opening())?;
    Ok(file)
}

/// The file of that name, opened as it is, or a new one, which can be read and written by its owner alone.
pub(crate) fn opened<R: Files>(rt: &R, name: &str) -> io::Result<R::File> {
    match OpenOptions::new()
        .write(true)
        .create_new(true)
        .open(rt, name)
    {
        Ok(file) => {
            file.set_permissions(Permissions::from_mode(OWNER_ALONE))?;
            Ok(file)
        }
        Err(error) if error.kind() == ErrorKind::AlreadyExists => {
            OpenOptions::new().write(true).open(rt, name)
        }
        Err(error) => Err(error),
    }
}

/// Why serving ended. The reasons are those for which no client came, and for which the recorder failed last.
fn fault_of(
    fault: ServingFault,
    listening: Option<io::Error>,
    recording: Option<io::Error>,
) -> ServeFault
    ensures { MeansFor fault result }
{
    let unknown = io::Error::from(ErrorKind::Other);
    match fault {
        ServingFault::Clients => ServeFault::Listener {
            place: 0,
            reason: listening.unwrap_or(unknown),
        },
        ServingFault::Recorder => ServeFault::Record(recording.unwrap_or(unknown)),
        ServingFault::Core(StepFault::MomentTooLarge) => ServeFault::Clock,
        // It is want of memory: a new connection tells an idle cache of nothing for which it returns another
        // fault.
        ServingFault::Core(_) => ServeFault::Memory,
    }
}
