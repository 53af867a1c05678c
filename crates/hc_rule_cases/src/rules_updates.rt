//! The life of a stored response.
ghost use Rattle.std.specs.Prelude.{◌<◌};

use crate::rules_parts::{moment, number};
use crate::rules_states::{described, hello, request, response, stored_of};
use crate::starts::{method_of, status_of};
use hc_cases::{Case, Unanswered, yes_or_no};
use hc_fresh::current_age;
use hc_head::{RequestHead, ResponseHead};
use hc_update::{Stored, identifies, invalidates};
use std::alloc::{AllocError, Global};
use std::fmt::Write;

/// Answers a question of stored responses.
pub fn answer(case: &Case<'_>, out: &mut String) -> Result<(), Unanswered> {
    match case.question {
        "stored" => stored(case, out),
        "freshened" => freshened(case, out),
        "invalidated" => invalidated(case, out),
        "forgotten" => forgotten(case, out),
        "identifies" => identified(case, out),
        "identifies-after" => identified_after(case, out),
        "invalidates" => invalidating(case, out),
        _ => Err(Unanswered::Unknown),
    }
}

fn stored(case: &Case<'_>, out: &mut String) -> Result<(), Unanswered> {
    let [asked, request_time, octets, response_time] = case.about else {
        return Err(Unanswered::Unknown);
    };
    let (sent, came) = (number(request_time)?, moment(response_time)?);
    let state = stored_of(case.alloc, asked, sent, octets, came)?;
    Ok(described_at(&state, came, out)?)
}

fn described_at(state: &Stored, now: u64, out: &mut String) -> Result<(), AllocError> {
    described(state, out)?;
    let age = current_age(state.times, now);
    write!(out, "; age {age}")
}

fn freshened(case: &Case<'_>, out: &mut String) -> Result<(), Unanswered> {
    let [asked, before, request_time, response_time, received] = case.about else {
        return Err(Unanswered::Unknown);
    };
    let (sent, came) = (number(request_time)?, moment(response_time)?);
    let mut state = hello(case.alloc, asked, before)?;
    freshen_by(case.alloc, &mut state, received, sent, came)?;
    Ok(described(&state, out)?)
}

fn freshen_by(
    alloc: Global,
    state: &mut Stored,
    received: &[u8],
    sent: u64,
    came: u64,
) -> Result<(), Unanswered>
    requires { came < 253_402_300_800 }
{
    let not_modified = response(alloc, b"304", received)?;
    Ok(state.freshen(&not_modified, sent, came, 6)?)
}

fn invalidated(case: &Case<'_>, out: &mut String) -> Result<(), Unanswered> {
    let [lines] = case.about else {
        return Err(Unanswered::Unknown);
    };
    let mut state = hello(case.alloc, b"", lines)?;
    state.invalidate();
    let not_modified = response(case.alloc, b"304", lines)?;
    then_freshened(case.alloc, &mut state, &not_modified, out)
}

fn then_freshened(
    alloc: Global,
    state: &mut Stored,
    not_modified: &ResponseHead,
    out: &mut String,
) -> Result<(), Unanswered> {
    described(state, out)?;
    out.push_str("; identified: ")?;
    let forward = request(alloc, b"GET", b"")?;
    told(alloc, state, &forward, not_modified, out)?;
    drop(forward);
    out.push_str("; then ")?;
    state.freshen(not_modified, 1020, 1020, 6)?;
    Ok(described(state, out)?)
}

fn forgotten(case: &Case<'_>, out: &mut String) -> Result<(), Unanswered> {
    let [asked, lines] = case.about else {
        return Err(Unanswered::Unknown);
    };
    let mut state = hello(case.alloc, asked, lines)?;
    state.forget();
    Ok(described(&state, out)?)
}

fn identified(case: &Case<'_>, out: &mut String) -> Result<(), Unanswered> {
    let [original, before, method, asked, status, received] = case.about else {
        return Err(Unanswered::Unknown);
    };
    let state = hello(case.alloc, original, before)?;
    let forward = request(case.alloc, method, asked)?;
    identified_by(case.alloc, &state, &forward, status, received, out)
}

fn identified_by(
    alloc: Global,
    state: &Stored,
    forward: &RequestHead,
    status: &[u8],
    received: &[u8],
    out: &mut String,
) -> Result<(), Unanswered> {
    let answer = response(alloc, status, received)?;
    Ok(told(alloc, state, forward, &answer, out)?)
}

// Writes whether the response is about what is stored.
fn told(
    alloc: Global,
    state: &Stored,
    forward: &RequestHead,
    response: &ResponseHead,
    out: &mut String,
) -> Result<(), AllocError> {
    let is = identifies(alloc, state, forward, response)?;
    yes_or_no(is, out)
}

fn identified_after(case: &Case<'_>, out: &mut String) -> Result<(), Unanswered> {
    let [original, before, asked, received] = case.about else {
        return Err(Unanswered::Unknown);
    };
    let mut state = hello(case.alloc, original, before)?;
    let forward = request(case.alloc, b"GET", asked)?;
    identified_twice(case.alloc, &mut state, &forward, received, out)
}

fn identified_twice(
    alloc: Global,
    state: &mut Stored,
    forward: &RequestHead,
    received: &[u8],
    out: &mut String,
) -> Result<(), Unanswered> {
    let answer = response(alloc, b"304", received)?;
    Ok(told_twice(alloc, state, forward, &answer, out)?)
}

// Writes whether the response is about what is stored, and the same once that was freshened by it.
fn told_twice(
    alloc: Global,
    state: &mut Stored,
    forward: &RequestHead,
    answer: &ResponseHead,
    out: &mut String,
) -> Result<(), AllocError> {
    told(alloc, state, forward, answer, out)?;
    state.freshen(answer, 1020, 1020, 6)?;
    out.push_str("; then ")?;
    told(alloc, state, forward, answer, out)
}

fn invalidating(case: &Case<'_>, out: &mut String) -> Result<(), Unanswered> {
    let [method, status] = case.about else {
        return Err(Unanswered::Unknown);
    };
    let status = status_of(status)?;
    let method = method_of(case.alloc, method)?;
    let is = invalidates(&method, status);
    drop(method);
    Ok(yes_or_no(is, out)?)
}
