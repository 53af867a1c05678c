//! The command line of `hc_bench`.
ghost use Rattle.std.specs.Prelude.{◌≡◌, map};
ghost use Rattle.hc_bench.specs.Command.{asked, task_of};

use std::convert::AsStr;

/// What the program is asked to do.
#[derive(Clone, Copy)]
pub enum Task {
    /// To count calls, and to measure small samples by a clock that always goes alike.
    Count,
    /// To measure what calls cost.
    Measure,
    /// To measure what calls of a store cost.
    Store,
    /// To measure how many hits a cache serves.
    Hits,
    /// To measure how much memory idle connections take.
    Idle,
    /// To say what is returned behind a refusal of memory.
    Refusals,
}

/// How the program is called.
pub const USAGE: &str = "usage: hc_bench [measure|store|hits|idle|refusals]\n";

/// What the word asks for, if it is a known one.
fn task_of(word: &str) -> Option<Task>
    ensures { result ≡ task_of word.now }
{
    if word == "measure" {
        Some(Task::Measure)
    } else if word == "store" {
        Some(Task::Store)
    } else if word == "hits" {
        Some(Task::Hits)
    } else if word == "idle" {
        Some(Task::Idle)
    } else if word == "refusals" {
        Some(Task::Refusals)
    } else {
        None
    }
}

/// What the words ask for, of which the first is the program's name, if it is anything known.
pub fn asked<S: AsStr>(words: &[S]) -> Option<Task>
    ensures { result ≡ asked (map S.text words.now) }
{
    match words {
        [] | [_] => Some(Task::Count),
        [_, word] => task_of(word.as_str()),
        _ => None,
    }
}
