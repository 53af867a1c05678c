//! What a proxy says on standard error.

ghost use Rattle.std.specs.Prelude.{◌≡◌, IfOk, string_bytes};
ghost use Rattle.hc_notices.specs.Notices.{notice_line, times_word, unpolled_line, wrongs_line};

use std::alloc::{AllocError, Global};

/// Where a proxy listens, and what is behind it.
#[derive(Clone, Copy)]
pub struct Greeting<'a> {
    /// The addresses to which clients connect, with commas between them.
    pub addresses: &'a str,
    /// The host and the port of the origin.
    pub origin: &'a str,
    /// Of how many targets responses are kept at most.
    pub keys: usize,
    /// How many octets of them are kept at most.
    pub bytes: u64,
}

/// What was wrong, how often, and where it was last.
#[derive(Clone, Copy)]
pub struct Wrongs<'a> {
    /// What was wrong.
    pub what: &'a str,
    /// How often.
    pub count: u64,
    /// Where it was last: a connection, or what was asked for.
    pub last: &'a str,
}

/// What a proxy says on standard error.
#[derive(Clone, Copy)]
pub enum Notice<'a> {
    /// Clients can connect.
    Listening(Greeting<'a>),
    /// Whoever watches can connect to these addresses, which have commas between them.
    Watched(&'a str),
    /// A stop can't be heard.
    Deaf,
    /// Requests of clients were refused.
    Refused(Wrongs<'a>),
    /// Responses of the origin failed, or didn't come.
    Failed(Wrongs<'a>),
    /// Links of clients were cut off.
    CutOff(Wrongs<'a>),
    /// So often the system couldn't say what is ready.
    Unpolled(u64),
    /// The wall clock is behind the moment that is told.
    Behind,
    /// The recording has ended since it couldn't be written on, for this reason.
    RecordFailed(&'a str),
    /// It has ended since it has as many octets as it may have.
    RecordFull,
}

impl<'a> Notice<'a> {
    /// The line that says it, with its line feed. It fails only where memory is refused.
    pub fn line(self, alloc: Global) -> Result<String, AllocError>
        ensures { IfOk result (λ line. string_bytes line ≡ notice_line self.entry) }
    {
        match self {
            Notice::Listening(greeting) => listening_line(alloc, greeting),
            Notice::Watched(addresses) => format!(in alloc; "hcache: status at {addresses}\n"),
            Notice::Deaf => format!(in alloc;
                "hcache: a signal ends it at once, since SIGTERM and SIGINT aren't blocked\n"
            ),
            Notice::Refused(wrongs) => wrongs_line(alloc, "requests were refused", wrongs),
            Notice::Failed(wrongs) => wrongs_line(alloc, "responses failed", wrongs),
            Notice::CutOff(wrongs) => wrongs_line(alloc, "clients were cut off", wrongs),
            Notice::Unpolled(count) => unpolled_line(alloc, count),
            Notice::Behind => format!(in alloc;
                "hcache: the clock was set back, and ages don't follow it: a restart is due\n"
            ),
            Notice::RecordFailed(reason) => format!(in alloc;
                "hcache: the recording has ended, and serving goes on: {reason}\n"
            ),
            Notice::RecordFull => format!(in alloc;
                "hcache: the recording has ended at its limit, and serving goes on\n"
            ),
        }
    }
}

/// The line that says where clients can connect.
fn listening_line(alloc: Global, greeting: Greeting<'_>) -> Result<String, AllocError>
    ensures { IfOk result (λ line. string_bytes line ≡ notice_line (Notice.Listening greeting.entry)) }
{
    let Greeting {
        addresses,
        origin,
        keys,
        bytes,
    } = greeting;
    format!(in alloc;
        "hcache: listening at {addresses}, before {origin}, with a store of {keys} keys and {bytes} bytes\n"
    )
}

/// The line that says what befell requests, responses or clients, why, how often, and where it did last.
fn wrongs_line(alloc: Global, befell: &str, wrongs: Wrongs<'_>) -> Result<String, AllocError>
    ensures { IfOk result (λ line. string_bytes line ≡ wrongs_line befell.now wrongs.entry) }
{
    let Wrongs { what, count, last } = wrongs;
    let times = times_word(count);
    format!(in alloc; "hcache: {befell}, since {what}: {count} {times}, the last {last}\n")
}

/// The line that says how often the system couldn't say what is ready.
fn unpolled_line(alloc: Global, count: u64) -> Result<String, AllocError>
    ensures { IfOk result (λ line. string_bytes line ≡ unpolled_line count) }
{
    let times = times_word(count);
    format!(in alloc; "hcache: the system couldn't say what is ready: {count} {times}\n")
}

/// The word for so many times.
fn times_word(count: u64) -> &'static str
    ensures { result.now ≡ times_word count }
{
    if count == 1 { "time" } else { "times" }
}
