//! The cases of connections that are served: what comes of each of those that `cases.txt` lists, a line a case.
#![tactic(auto)]

mod answers;
mod failing;
mod hearing;
mod hits;
mod links;
mod notebook;
mod questions;
mod rooms;
mod runs;
mod scene;
mod service;
mod staged;
mod steps;
mod telling;
mod verdicts;

use crate::answers::Connections;
use std::process::ExitCode;

fn main(rt: HostRuntime) -> ExitCode {
    let asked = Connections { system: &rt };
    let status = hc_cases::status(&rt, &asked, &mut rt.stdout(), &mut rt.stderr());
    ExitCode::from(status)
}
