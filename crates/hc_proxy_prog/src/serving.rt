//! Clients, served by the sockets of a system.

ghost use Rattle.std.specs.Prelude.{◌≡◌, ◌⊎◌};
ghost use Rattle.std.specs.Io.KnownBytes.{Keeps};
ghost use Rattle.hc_notices.specs.Notices.{SaysSome};
ghost use Rattle.hc_service.specs.Settings.{AreGood};

use hc_arguments::{ProxyLimits, ProxyPatience, Proxying, RecordTerms, Serving};
use hc_auditing::Trouble;
use hc_crowd::{Limits, Patience};
use hc_service::CoreSettings;
use hc_serving::{
    AccessLog, Board, Claim, Health, LogFile, LogTo, Proxy, RecordTo, ServeFault, Service, System,
    Target, Unrecordable, serve, serve_proxy,
};
use std::alloc::AllocError;
use std::io;
use std::io::{Stdout, Write};
use std::net::Net;
use std::random::RandomSource;
use std::rt::Files;
use std::time::Clock;

/// A system that has a standard output.
pub(crate) trait Standard {
    type Output: Write + Drop;

    /// The standard output.
    fn output(&self) -> Self::Output;
}

impl Standard for HostRuntime {
    type Output = Stdout;

    fn output(&self) -> Stdout {
        self.stdout()
    }
}

/// Serves clients, one connection after another, and returns the exit status.
pub(crate) fn served<R, E: Write>(rt: &R, serving: Serving<'_>, faults: &mut E) -> u8
where
    R: Files + Net + Clock + RandomSource + AllocGlobal,
    R::File: Claim,
    requires { AreGood serving.settings }
    ensures { (result ≡ 3) ⊎ ((result ≡ 0) × Keeps (E.contents faults.old) (E.contents faults.new)) }
{
    let Serving {
        listen,
        origin,
        connections,
        file,
        settings,
    } = serving;
    let service = Service {
        listen,
        origin,
        connections,
        file,
    };
    match serve(rt, service, settings) {
        Ok(()) => 0,
        Err(fault) => unserved(fault, names_of(service, &[listen]), faults),
    }
}

// The names of what is served, which say what failed.
fn names_of<'a>(service: Service<'a>, listen: &'a [&'a str]) -> Proxy<'a> {
    Proxy {
        listen,
        status: None,
        origin: service.origin,
        recording: Some(RecordTo {
            file: service.file,
            strict: true,
            limit: None,
        }),
        keeps_cookies: true,
    }
}

/// Serves many clients at once, and returns the exit status.
pub(crate) fn proxied<R, E: Write>(rt: &R, proxying: Proxying<'_>, faults: &mut E) -> u8
where
    R: Files + Net + Clock + RandomSource + Standard + AllocGlobal,
    R::File: Claim,
    requires { AreGood proxying.settings }
    ensures { (result ≡ 3) ⊎ (result ≡ 64) ⊎ ((result ≡ 0) × SaysSome (E.contents faults.old) (E.contents faults.new)) }
{
    let Proxying {
        listens,
        origin,
        file,
        log,
        status,
        terms,
        limits,
        keeps_cookies,
        settings,
    } = proxying;
    let proxy = Proxy {
        listen: listens.as_slice(),
        status,
        origin,
        recording: recording_to(file, terms),
        keeps_cookies,
    };
    let mut log = match new_log(rt, log) {
        Ok(log) => log,
        Err(trouble) => return trouble.told(log.unwrap_or(""), faults),
    };
    match proxy_ended(
        rt,
        proxy,
        in_milliseconds(limits),
        settings,
        &mut log,
        faults,
    ) {
        Ok(()) => 0,
        Err(ServeFault::Unrecordable(kind)) => unrecorded(kind, file_of(proxy), faults),
        Err(fault) => unserved(fault, proxy, faults),
    }
}

// An access log that goes there, if anywhere.
fn new_log<'a, R>(
    rt: &'a R,
    name: Option<&'a str>,
) -> Result<AccessLog<LogTo<'a, R, R::Output>>, Trouble>
where
    R: Files + Standard + AllocGlobal,
{
    let to = match name {
        None => LogTo::Nowhere,
        Some("-") => LogTo::Standard(rt.output()),
        Some(name) => match LogFile::open(rt, name) {
            Ok(file) => LogTo::File(file),
            Err(reason) => return Err(Trouble::Device(reason)),
        },
    };
    match AccessLog::new(rt.alloc(), to, name.is_some()) {
        Ok(log) => Ok(log),
        Err(AllocError) => Err(Trouble::Memory),
    }
}

// Serves many clients at once, and returns how that ended, or why it didn't begin.
fn proxy_ended<R, L: Target, E: Write>(
    rt: &R,
    proxy: Proxy<'_>,
    limits: Limits,
    settings: CoreSettings,
    log: &mut AccessLog<L>,
    faults: &mut E,
) -> Result<(), ServeFault>
where
    R: Files + Net + Clock + RandomSource + AllocGlobal,
    R::File: Claim,
    requires { AreGood settings }
    ensures { SaysSome (E.contents faults.old) (E.contents faults.new) }
{
    let health = Health::new();
    let board = Board::new();
    let system = System {
        rt,
        health: &health,
        board: &board,
    };
    match serve_proxy(system, proxy, limits, settings, log, faults) {
        Ok(served) => served.into_end(),
        Err(fault) => Err(fault),
    }
}

// Where a proxy records on those terms, if it has a file.
fn recording_to(file: Option<&str>, terms: RecordTerms) -> Option<RecordTo<'_>> {
    let RecordTerms { strict, limit } = terms;
    Some(RecordTo {
        file: file?,
        strict,
        limit,
    })
}

// The same limits, with times in milliseconds in place of seconds.
fn in_milliseconds(limits: ProxyLimits) -> Limits {
    Limits {
        connections: limits.connections as usize,
        origin_connections: limits.origin_connections as usize,
        held: limits.held,
        patience: patience_of(limits.patience),
        queue_timeout: milliseconds(limits.patience.queue_timeout),
        connect_timeout: milliseconds(limits.connect_timeout),
        abandoned: milliseconds(limits.patience.abandoned),
        drain_timeout: milliseconds(limits.drain_timeout),
        clients: limits.clients,
    }
}

// The same patience, in milliseconds. For how long a place at the origin is awaited isn't part of it.
fn patience_of(patience: ProxyPatience) -> Patience {
    Patience {
        idle_timeout: milliseconds(patience.idle_timeout),
        request_timeout: milliseconds(patience.request_timeout),
        send_timeout: milliseconds(patience.send_timeout),
        origin_timeout: milliseconds(patience.origin_timeout),
        origin_total: milliseconds(patience.origin_total),
    }
}

fn milliseconds(seconds: u64) -> u64 {
    seconds.saturating_mul(1_000)
}

// Says why nobody is served any more, with the name of what failed, and returns the exit status.
fn unserved<E: Write>(fault: ServeFault, names: Proxy<'_>, faults: &mut E) -> u8
    ensures { result ≡ 3 }
{
    match fault {
        ServeFault::Memory => Trouble::Memory.told("", faults),
        ServeFault::Listener { place, reason } => {
            let name = names.listen.get(place).copied().unwrap_or("");
            Trouble::Device(reason).told(name, faults)
        }
        ServeFault::Status(reason) => {
            Trouble::Device(reason).told(names.status.unwrap_or(""), faults)
        }
        ServeFault::Origin(reason) => Trouble::Device(reason).told(names.origin, faults),
        ServeFault::OpenFiles { limit, wanted } => too_few_files(limit, wanted, faults),
        ServeFault::Unrecordable(_) => broken("it is no file", file_of(names), faults),
        ServeFault::Record(reason) => Trouble::Device(reason).told(file_of(names), faults),
        ServeFault::Signals(reason) => without_signals(reason, faults),
        ServeFault::Random(reason) => Trouble::Device(reason).told("random numbers", faults),
        ServeFault::Poll(reason) => unpolled(reason, faults),
        ServeFault::Monotonic(reason) => Trouble::Device(reason).told("monotonic clock", faults),
        ServeFault::Clock => broken("it is past the year 9999", "clock", faults),
    }
}

// Says that something failed for that reason, which isn't the system's, and returns the exit status.
fn broken<E: Write>(reason: &'static str, name: &str, faults: &mut E) -> u8
    ensures { result ≡ 3 }
{
    Trouble::Device(io::Error::other(reason)).told(name, faults)
}

// Says that the system can't say what is ready, and returns the exit status.
fn unpolled<E: Write>(reason: io::Error, faults: &mut E) -> u8
    ensures { result ≡ 3 }
{
    Trouble::Device(reason).told(
        "the system can't say what is ready, a hundred times in a row",
        faults,
    )
}

// Says that a file is one to which nothing is recorded, and returns the exit status.
fn unrecorded<E: Write>(kind: Unrecordable, name: &str, faults: &mut E) -> u8
    ensures { result ≡ 64 }
{
    let _ = writeln!(
        faults,
        "error: {name}: {kind}, and --record takes a regular file or /dev/null"
    );
    64
}

// Says that more files have to be open than may be, and returns the exit status.
fn too_few_files<E: Write>(limit: u64, wanted: u64, faults: &mut E) -> u8
    ensures { result ≡ 3 }
{
    let _ = writeln!(
        faults,
        "error: device\nthe limit on open files is {limit}, and {wanted} are wanted: raise it (ulimit -n {wanted})"
    );
    3
}

// Says that a stop couldn't be seen, and returns the exit status.
fn without_signals<E: Write>(reason: io::Error, faults: &mut E) -> u8
    ensures { result ≡ 3 }
{
    let _ = writeln!(
        faults,
        "error: device\n/proc/self/status: {reason}: it tells of signals that ask to stop, so mount /proc"
    );
    3
}

// The name of the file that is recorded to.
fn file_of<'a>(names: Proxy<'a>) -> &'a str {
    match names.recording {
        Some(to) => to.file,
        None => "",
    }
}
