//! The cases of many clients at once, over a world in memory: what comes of each of those that `cases.txt` lists, a line a
//! case.
#![tactic(auto)]

mod answers;
mod by_link;
mod comparing;
mod faults;
mod passed;
mod playing;
mod replies;
mod telling;
mod verdict;
mod watching;
mod wrongs;

use crate::answers::Crowds;
use std::process::ExitCode;

fn main(rt: HostRuntime) -> ExitCode {
    let status = hc_cases::status(&rt, &Crowds, &mut rt.stdout(), &mut rt.stderr());
    ExitCode::from(status)
}
