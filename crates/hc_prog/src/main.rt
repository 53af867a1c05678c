//! `hcache`: a program that audits, reports on, explains, shows, converts and splits transcripts of caches, and has a cache of
//! its own, to which it plays scripts of events. Clients are served by another program, that of hc_proxy_prog.
//!
//! `hcache audit FILE` reads a transcript, says on standard output whether every reply in it is right, and ends with
//! a status: 0 for a transcript that is right, 1 for one with a wrong reply, 2 for one that is malformed, 3 where no
//! verdict could be given, 64 for a command line that asks for nothing known.
//!
//! `hcache report FILE` says which of its replies are wrong, all of them, grouped by why they are, with the same
//! statuses, and `hcache explain FILE [POSITION]` explains the first of them, or any reply: it ends with 0 for one that
//! is right, 1 for one that is wrong, and 64 where none stands there.
//!
//! `hcache replay FILE` plays a script, writes the transcript that the cache recorded to standard output, and says the
//! audit's verdict on it on standard error, with the same statuses; 2 also for a text that is no script.
//!
//! `hcache convert FILE` writes the records of a transcript in the first format to standard output and ends with 0, or
//! says on standard error where the transcript is malformed and ends with 2, or with 3 where it couldn't convert.
//!
//! `hcache split FILE N DIR` splits a transcript into parts by target, and `hcache join DIR` says what the verdicts on them
//! tell of the whole, by the line and the status of an audit.
#![tactic(auto)]

use std::process::ExitCode;

fn main(rt: HostRuntime) -> ExitCode {
    ExitCode::from(hc_command::status(&rt, &mut rt.stdout(), &mut rt.stderr()))
}
