//! Whole runs of `serve`, in one thread.

ghost use Rattle.std.specs.Prelude.{IfOk};
ghost use Rattle.hc_service.specs.Settings.{AreGood};

use crate::hearing::say_streams;
use crate::scene::{number_of, text_of};
use crate::staged::{Manner, Staged};
use crate::verdicts::say_verdict;
use hc_cases::Unanswered;
use hc_fields::Octets;
use hc_service::CoreSettings;
use hc_serving::{Claim, ServeFault, Service, serve};
use hc_transcript::Format;
use std::alloc::{AllocError, Global};
use std::io::{Read, Write};
use std::net::{Net, OpenStream, TcpListener};
use std::random::RandomSource;
use std::rt::Files;
use std::{fs, io};

/// Where clients connect to, if that is the address at which the origin listens, which is taken then.
const TAKEN: &str = "-";

/// How many octets stand in a file that is longer before: more than are recorded.
const BEFORE: usize = 8_192;

/// What a case is about.
#[derive(Clone, Copy)]
struct Play<'a> {
    /// The file that is recorded to.
    file: &'a str,
    /// Where clients connect to.
    listen: &'a str,
    /// What clients send, one behind another.
    clients: &'a [Vec<u8>],
    /// The answers of the origin, forward by forward.
    answers: &'a [Vec<u8>],
}

impl<'a> Play<'a> {
    /// That of those parts: a file, an address, how many clients there are, what they send, and the answers.
    fn of(parts: &'a [Vec<u8>]) -> Result<Self, Unanswered> {
        let [file, listen, count, others @ ..] = parts else {
            return Err(Unanswered::Unknown);
        };
        let count = number_of(count.as_slice())?;
        let Some((clients, answers)) = others.split_at_checked(count) else {
            return Err(Unanswered::Unknown);
        };
        Ok(Play {
            file: text_of(file.as_slice())?,
            listen: text_of(listen.as_slice())?,
            clients,
            answers,
        })
    }
}

/// What is served to so many clients, where they connect to the first address and the origin has the second.
fn service<'a>(listen: &'a str, origin: &'a str, file: &'a str, clients: usize) -> Service<'a> {
    Service {
        listen: if listen == TAKEN { origin } else { listen },
        origin,
        connections: clients as u64,
        file,
    }
}

/// Writes what `serve` returns, what clients are replied, what the origin is sent, and the verdict on the
/// file, which is removed then.
pub(crate) fn say_service<R: Net + Files + RandomSource>(
    system: &R,
    alloc: Global,
    about: &[Vec<u8>],
    manner: Manner,
    out: &mut String,
) -> Result<(), Unanswered>
where
    R::File: Claim,
{
    let play = Play::of(about)?;
    let origin = TcpListener::bind(system, "127.0.0.1:0")?;
    let staged = Staged::new(system, alloc, manner, origin, play.clients, play.answers);
    say_staged(system, &staged, &play, manner, out)
}

/// The same, of what is set up.
fn say_staged<R: Net + Files + RandomSource>(
    system: &R,
    staged: &Staged<'_, R>,
    play: &Play<'_>,
    manner: Manner,
    out: &mut String,
) -> Result<(), Unanswered>
where
    R::File: Claim,
{
    out.push_str(served_beside(system, staged, play, manner)?)?;
    staged.say_early(out)?;
    say_kept(staged.alloc, "reply", staged.connected()?, out)?;
    say_kept(staged.alloc, "forward", staged.forwards()?, out)?;
    say_recorded(staged, play.file, out)
}

/// Writes what comes on streams, and lets them go.
fn say_kept<S: Read + OpenStream + Drop>(
    alloc: Global,
    what: &str,
    mut streams: Vec<S>,
    out: &mut String,
) -> Result<(), Unanswered> {
    say_streams(alloc, what, streams.as_mut_slice(), out)
}

/// A word for what `serve` returns over what is set up, with the file as it stands there before.
fn served_beside<R: Net + Files + RandomSource>(
    system: &R,
    staged: &Staged<'_, R>,
    play: &Play<'_>,
    manner: Manner,
) -> Result<&'static str, Unanswered>
where
    R::File: Claim,
{
    let held = before(system, staged.alloc, play.file, manner)?;
    let word = served(staged, play, manner);
    drop(held);
    Ok(word?)
}

fn served<R: Net + Files + RandomSource>(
    staged: &Staged<'_, R>,
    play: &Play<'_>,
    manner: Manner,
) -> io::Result<&'static str>
where
    R::File: Claim,
{
    let address = staged.origin_address()?;
    let settings = settings_by(staged.alloc, manner)?;
    let origin = address.as_str();
    let service = service(play.listen, origin, play.file, play.clients.len());
    Ok(word_of(&serve(staged, service, settings)))
}

/// Makes the file that stands there before, if one does, and returns it where another program holds it.
fn before<R: Files>(
    system: &R,
    alloc: Global,
    file: &str,
    manner: Manner,
) -> Result<Option<R::File>, Unanswered>
where
    R::File: Claim,
{
    match manner {
        Manner::Overwrites => {
            fs::write(system, file, Vec::from_elem(alloc, b'x', BEFORE)?)?;
            Ok(None)
        }
        Manner::Claimed => Ok(Some(claimed(system, file)?)),
        _ => Ok(None),
    }
}

/// Writes the verdict on the file, which is removed.
fn say_recorded<R: Net + Files>(
    staged: &Staged<'_, R>,
    file: &str,
    out: &mut String,
) -> Result<(), Unanswered> {
    let recorded = fs::read(staged, file);
    let _ = fs::remove_file(staged, file);
    match recorded {
        Ok(octets) => say_file(staged.alloc, octets.as_slice(), out),
        Err(_) => Ok(out.push_str("; no file")?),
    }
}

/// What the cache is.
fn settings_by(alloc: Global, manner: Manner) -> Result<CoreSettings, AllocError>
    ensures { IfOk result AreGood }
{
    if matches!(manner, Manner::Small) {
        return Ok(CoreSettings {
            name: Octets::from_slice(alloc, b"small")?,
            keys: 1,
            bytes: 0,
        });
    }
    Ok(CoreSettings {
        name: Octets::from_slice(alloc, b"hcache")?,
        keys: 1_024,
        bytes: 67_108_864,
    })
}

/// A file to which another program records: it has the opening of a transcript, and is claimed as long as it is open.
fn claimed<R: Files>(system: &R, name: &str) -> io::Result<R::File>
where
    R::File: Claim,
{
    let mut file = fs::create(system, name)?;
    open_and_claim(&mut file)?;
    Ok(file)
}

fn open_and_claim<F: Write + Claim>(file: &mut F) -> io::Result<()> {
    file.write_all(Format::Second.opening())?;
    file.claim()
}

/// A word for what `serve` returned.
fn word_of(answer: &Result<(), ServeFault>) -> &'static str {
    match answer {
        Ok(()) => "served",
        Err(ServeFault::Memory) => "no memory",
        Err(ServeFault::Listener { .. }) => "listener failed",
        Err(ServeFault::Status(_)) => "status failed",
        Err(ServeFault::Origin(_)) => "origin not found",
        Err(ServeFault::OpenFiles { .. }) => "too few open files",
        Err(ServeFault::Unrecordable(_)) => "no file to record to",
        Err(ServeFault::Record(_)) => "record failed",
        Err(ServeFault::Signals(_)) => "signals unknown",
        Err(ServeFault::Random(_)) => "no random numbers",
        Err(ServeFault::Poll(_)) => "poll failed",
        Err(ServeFault::Monotonic(_)) => "clock unread",
        Err(ServeFault::Clock) => "clock failed",
    }
}

/// Writes the verdict on what was recorded to the file.
fn say_file(alloc: Global, file: &[u8], out: &mut String) -> Result<(), Unanswered> {
    let Some(recording) = file.strip_prefix(Format::Second.opening()) else {
        out.push_str("; no opening")?;
        return Ok(());
    };
    out.push_str("; ")?;
    say_verdict(alloc, recording, out)
}
