//! The questions of words and of scripts.

use crate::commands_burst::say_burst;
use crate::commands_scripts::say_replay;
use crate::commands_steps::say_steps;
use crate::commands_tasks::{say_full, say_task};
use crate::commands_words::{say_answer, say_places, say_status, say_text_of};
use crate::verdicts_answers::answer_of_octets;
use hc_cases::{Ask, Case, Unanswered};
use std::alloc::Global;
use std::rt::Files;

/// What is asked of the program.
#[derive(Drop)]
pub(crate) struct Commands<'a, R: Files + Input + AllocGlobal> {
    pub(crate) system: &'a R,
}

impl<'a, R: Files + Input + AllocGlobal> Ask for Commands<'a, R> {
    fn answer(&self, case: &Case<'_>, out: &mut String) -> Result<(), Unanswered> {
        let Case {
            alloc,
            question,
            about,
        } = *case;
        match question {
            "answer" => say_answer(self.system, about, out),
            "text" => say_text_of(self.system, about, out),
            "status" => say_status(self.system, about, out),
            "places" => say_places(alloc, about, out),
            _ => answer_in_memory(alloc, question, about, out),
        }
    }
}

// Answers a question for which no file and no socket of the system is needed.
fn answer_in_memory(
    alloc: Global,
    question: &str,
    about: &[Vec<u8>],
    out: &mut String,
) -> Result<(), Unanswered> {
    if let Some(command) = question.strip_suffix(" in pieces") {
        return say_task(alloc, command, about, out);
    }
    if let Some(command) = question.strip_suffix(" to a full device") {
        return say_full(alloc, command, about, out);
    }
    let (first, parts) = about.split_first().ok_or(Unanswered::Unknown)?;
    let octets = first.as_slice();
    match question {
        "replay" => say_replay(alloc, octets, parts, out),
        "steps" => say_steps(alloc, octets, out),
        "burst" => say_burst(alloc, octets, parts, out),
        _ => answer_of_octets(alloc, question, octets, parts, out),
    }
}
