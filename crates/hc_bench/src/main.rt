//! `hc_bench`: what it costs to read messages in pieces, to call a store, to serve hits, and to keep
//! connections open; and what is returned behind a refusal of memory.
//!
//! Without an argument it reads two short messages in pieces and says how many calls that took, measures
//! small samples by a clock that always goes alike, counts the replies of a few exchanges, and says what a
//! cache, an auditor and a store return, which is what `refusals` alone says, also behind a request for
//! memory that was refused. With `measure` it reads long messages against the clock. With `store` it asks
//! stores of few keys and of many for responses, and puts others in their place. With `hits` it lets caches
//! serve hits, replies that are validated first, and requests that wait for the forward of another one. With
//! `idle` it opens many connections, serves each a hit, and says how much memory they take; it needs Linux.
//! `tools/measure_audit` measures audits and reports.
#![tactic(auto)]

mod caches;
mod command;
mod counts;
mod feeding;
mod hits;
mod idle;
mod lines;
mod loads;
mod measures;
mod messages;
mod print;
mod rate;
mod refusals;
mod refusals_auditing;
mod refusals_seen;
mod refusals_serving;
mod refusals_storing;
mod responses;
mod run;
mod samples;
mod stores;
mod storing;
mod trouble;

use std::process::ExitCode;

fn main(rt: HostRuntime) -> ExitCode {
    ExitCode::from(run::status(&rt, &mut rt.stdout(), &mut rt.stderr()))
}
