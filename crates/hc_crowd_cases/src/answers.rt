//! The questions of the cases.

use crate::comparing::{Judged, compare};
use crate::playing::perform;
use crate::telling::say_played;
use crate::watching::say_counted;
use hc_cases::{Ask, Case, Unanswered, unescaped};
use hc_crowd_world::{Script, script_in, script_of};
use hc_fields::decimal;
use std::alloc::{AllocError, Global};
use std::fmt::Write;

/// What is asked of many clients at once.
#[derive(Clone, Copy)]
pub(crate) struct Crowds;

impl Ask for Crowds {
    fn answer(&self, case: &Case<'_>, out: &mut String) -> Result<(), Unanswered> {
        let Case {
            alloc,
            question,
            about,
        } = *case;
        match question {
            "seeds" => say_seeds(alloc, Seeds::of(about)?, out),
            "counted" => say_counted(alloc, about, out),
            _ => say_schedule(alloc, question, about, out),
        }
    }
}

/// Writes what comes of a schedule.
fn say_schedule(
    alloc: Global,
    question: &str,
    about: &[Vec<u8>],
    out: &mut String,
) -> Result<(), Unanswered> {
    let script = script_about(alloc, about)?;
    let mut played = perform(alloc, script)?;
    say_played(alloc, question, &mut played, out)
}

/// The schedule that is written down, or that of a seed.
fn script_about(alloc: Global, about: &[Vec<u8>]) -> Result<Script, Unanswered> {
    match about {
        [text] => script_in(alloc, text.as_slice()),
        _ => {
            let seeds = Seeds::of(about)?;
            seeds.script(alloc, seeds.first)
        }
    }
}

/// Seeds that are tried.
#[derive(Clone, Copy)]
struct Seeds<'a> {
    /// What clients send, a request a line.
    requests: &'a [u8],
    /// What the origin answers, an answer a line.
    answers: &'a [u8],
    first: u64,
    count: u64,
}

impl<'a> Seeds<'a> {
    fn of(about: &'a [Vec<u8>]) -> Result<Self, Unanswered> {
        let [requests, answers, first, count] = about else {
            return Err(Unanswered::Unknown);
        };
        Ok(Seeds {
            requests: requests.as_slice(),
            answers: answers.as_slice(),
            first: number_in(first.as_slice())?,
            count: number_in(count.as_slice())?,
        })
    }

    /// The schedule of a seed.
    fn script(&self, alloc: Global, seed: u64) -> Result<Script, Unanswered> {
        let requests = lines_of(alloc, self.requests)?;
        self.script_by(alloc, seed, requests.as_slice())
    }

    fn script_by(
        &self,
        alloc: Global,
        seed: u64,
        requests: &[Vec<u8>],
    ) -> Result<Script, Unanswered> {
        let answers = lines_of(alloc, self.answers)?;
        Ok(script_of(alloc, seed, requests, answers)?)
    }

    /// What comes of a seed.
    fn judged(&self, alloc: Global, seed: u64) -> Result<Judged, Unanswered> {
        let script = self.script(alloc, seed)?;
        let mut played = perform(alloc, script)?;
        compare(alloc, &mut played)
    }
}

fn number_in(text: &[u8]) -> Result<u64, Unanswered> {
    match decimal(text) {
        Some(number) => Ok(number),
        None => Err(Unanswered::Unknown),
    }
}

/// The octets of each line, but for empty ones and those that begin with `#`.
fn lines_of(alloc: Global, text: &[u8]) -> Result<Vec<Vec<u8>>, Unanswered> {
    let mut lines = Vec::new(alloc);
    put_lines(alloc, text, &mut lines)?;
    Ok(lines)
}

fn put_lines(alloc: Global, text: &[u8], lines: &mut Vec<Vec<u8>>) -> Result<(), Unanswered> {
    'lines: for line in text.split(|octet| *octet == b'\n') {
        if !line.is_empty() && !line.starts_with(b"#") {
            lines.push(unescaped(alloc, line)?)?;
        }
    }
    Ok(())
}

/// Writes whether each seed gives what a run gives, and whether some requests were hits, collapsed and forwarded.
fn say_seeds(alloc: Global, seeds: Seeds<'_>, out: &mut String) -> Result<(), Unanswered> {
    let mut sum = Judged::nothing();
    'seeds: for seed in seeds.first..seeds.first.saturating_add(seeds.count) {
        let judged = seeds.judged(alloc, seed)?;
        if let Some(fault) = judged.fault {
            write!(out, "{seed}: {fault}, ")?;
        }
        sum = sum.with(judged);
    }
    Ok(say_sum(sum, out)?)
}

fn say_sum(sum: Judged, out: &mut String) -> Result<(), AllocError> {
    let parts = [
        ("same, yes", sum.fault.is_none()),
        (", hits", sum.hits),
        (", collapsed", sum.collapsed),
        (", forwarded", sum.forwarded),
    ];
    'parts: for (what, is_so) in parts.iter() {
        if *is_so {
            out.push_str(what)?;
        }
    }
    Ok(())
}
