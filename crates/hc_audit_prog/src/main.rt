//! `hcache audit` alone: a program that audits transcripts of caches, as the command `audit` of the whole program does.
//!
//! `audit FILE` reads a transcript, says on standard output whether every reply in it is right, and ends with a status: 0
//! for a transcript that is right, 1 for one with a wrong reply, 2 for one that is malformed, 3 where no verdict could be
//! given, 4 where fewer replies were judged than is asked for, 64 for a command line that asks for nothing known.
#![tactic(auto)]

use std::process::ExitCode;

fn main(rt: HostRuntime) -> ExitCode {
    ExitCode::from(hc_auditing::status(&rt, &mut rt.stdout(), &mut rt.stderr()))
}
