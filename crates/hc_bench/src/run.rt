//! The program, over any system and any two writers.
ghost use Rattle.std.specs.Prelude.{◌≡◌, ◌↔◌, None, map};
ghost use Rattle.std.specs.Io.KnownBytes.{Keeps};
ghost use Rattle.hc_bench.specs.Command.{asked};

use crate::command::{Task, USAGE, asked};
use crate::hits::hits;
use crate::idle::idle;
use crate::measures::measure;
use crate::print::printed;
use crate::refusals::refusals;
use crate::samples::sample;
use crate::stores::store;
use crate::trouble::Trouble;
use std::convert::AsStr;
use std::env;
use std::io::Write;
use std::rt::{Clock, Env, Files};

/// Does what the program's own arguments ask, and returns its exit status.
pub fn status<R, W: Write, E: Write>(rt: &R, output: &mut W, faults: &mut E) -> u8
where
    R: Clock + Env + Files + AllocGlobal,
{
    match arguments(rt) {
        Ok(words) => answered(rt, words.as_slice(), output, faults),
        Err(Trouble::Memory) => Trouble::Memory.told(faults),
        Err(_) => refused(faults),
    }
}

// The program's name and its arguments. One that is not text is an error.
fn arguments<R: Env + AllocGlobal>(rt: &R) -> Result<Vec<String>, Trouble> {
    Ok(env::args(rt)?.collect(rt.alloc())?)
}

/// Does what the words ask, of which the first is the program's name, and returns the exit status:
/// 0, 64 for words that ask for nothing known, or 3 where something went wrong.
pub fn answered<R, S: AsStr, W: Write, E: Write>(
    rt: &R,
    words: &[S],
    output: &mut W,
    faults: &mut E,
) -> u8
where
    R: Clock + Files + AllocGlobal,
    ensures unknown { (result ≡ 64) ↔ (asked (map S.text words.now) ≡ None) }
    ensures quiet { result ≡ 64 → Keeps (W.contents output.old) (W.contents output.new) }
    ensures well { result ≡ 0 → Keeps (E.contents faults.old) (E.contents faults.new) }
{
    let done = match asked(words) {
        Some(Task::Count) => sample(rt.alloc(), output),
        Some(Task::Measure) => measure(rt.alloc(), rt, output),
        Some(Task::Store) => store(rt.alloc(), rt, output),
        Some(Task::Hits) => hits(rt.alloc(), rt, output),
        Some(Task::Idle) => idle(rt, output),
        Some(Task::Refusals) => refusals(rt.alloc(), output),
        None => return refused(faults),
    };
    match done {
        Ok(()) => 0,
        Err(trouble) => trouble.told(faults),
    }
}

// Says how the program is called, and returns its exit status.
fn refused<E: Write>(faults: &mut E) -> u8
    ensures { result ≡ 64 }
{
    let _ = printed(USAGE, faults);
    64
}
