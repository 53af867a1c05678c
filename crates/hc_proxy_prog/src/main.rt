//! `hcache proxy` and `hcache serve`: a program that serves clients from a shared cache, and records both sides.
//!
//! `hcache proxy --listen A --origin B` serves many connections at once, until it is stopped, and says on standard error
//! where clients can connect, and what is amiss; with `--record FILE` it records both sides. It ends with 0, or with 3.
//!
//! `hcache serve --listen A --origin B --connections N --record FILE` serves so many connections of clients, one after
//! another, records both sides to the file, and prints nothing. It ends with 0, or with 3 where it couldn't go on.
//!
//! Other commands are of another program, that of hc_prog: asked for one, it ends with 64.
#![tactic(auto)]

mod answering;
mod serving;

use crate::answering::status;
use std::process::ExitCode;

fn main(rt: HostRuntime) -> ExitCode {
    ExitCode::from(status(&rt, &mut rt.stdout(), &mut rt.stderr()))
}
