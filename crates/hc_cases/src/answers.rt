//! The cases of a list, answered.
ghost use Rattle.std.specs.Prelude.{◌≡◌, map, string_bytes, IfOk, OnOk};
ghost use Rattle.hc_cases.specs.Answers.{AnswersEach, AnswersSome, IsLineOf, case_line};

use crate::asking::{Ask, Case, Unanswered};
use crate::list::{cases_of, parts_of};
use crate::print::printed;
use crate::words::octets_of;
use std::alloc::{AllocError, Global};
use std::io::Write;
use std::rt::Files;
use std::{fs, io};

/// The file that lists the cases of a program.
const LIST: &str = "cases.txt";

/// Answers the cases of the program's list, and returns the exit status: 1 where the list can't be
/// read, memory is refused or the answers can't be written, and a line on `faults` says so.
pub fn status<R, A: Ask, W: Write, E: Write>(
    rt: &R,
    asked: &A,
    output: &mut W,
    faults: &mut E,
) -> u8
where
    R: Files + AllocGlobal,
    ensures { result ≡ 0 → AnswersSome (W.contents output.old) (W.contents output.new) }
{
    match answer_list(rt, asked, output) {
        Ok(()) => 0,
        Err(_) => {
            let _ = printed("error: the cases were not all answered\n", faults);
            1
        }
    }
}

// Answers the cases of the list.
fn answer_list<R, A: Ask, W: Write>(rt: &R, asked: &A, output: &mut W) -> io::Result<()>
where
    R: Files + AllocGlobal,
    ensures { OnOk result (AnswersSome (W.contents output.old) (W.contents output.new)) }
{
    let text = fs::read_to_string(rt, LIST)?;
    let cases = cases_of(rt.alloc(), text.as_str())?;
    answer_all(rt, asked, cases.as_slice(), output)
}

/// Answers the cases, in order.
pub fn answer_all<R, A: Ask, W: Write>(
    rt: &R,
    asked: &A,
    cases: &[&str],
    output: &mut W,
) -> io::Result<()>
where
    R: Files + AllocGlobal,
    ensures { OnOk result (AnswersEach (map (λ case. case.now) cases.now)
        (W.contents output.old) (W.contents output.new)) }
{
    'cases: for case in cases {
        let line = line_of(rt, asked, case)?;
        printed(line.as_str(), output)?;
    }
    Ok(())
}

// The line that answers the case. What stops the answer stands in its place.
fn line_of<R, A: Ask>(rt: &R, asked: &A, case: &str) -> Result<String, AllocError>
where
    R: Files + AllocGlobal,
    ensures { IfOk result (λ line. IsLineOf case.now (string_bytes line)) }
{
    let mut answer = String::new(rt.alloc());
    let text = match ask(rt, asked, case, &mut answer) {
        Ok(()) => answer.as_str(),
        Err(Unanswered::Memory) => return Err(AllocError),
        Err(Unanswered::Unreadable) => "a file can't be read",
        Err(Unanswered::NoMethod) => "no method",
        Err(Unanswered::NoStatus) => "no status",
        Err(Unanswered::Unknown) => "nothing known is asked",
    };
    case_line(rt.alloc(), case, text)
}

// The case and its answer, on one line.
fn case_line(alloc: Global, case: &str, answer: &str) -> Result<String, AllocError>
    ensures { IfOk result (λ line. string_bytes line ≡ case_line case.now answer.now) }
{
    format!(in alloc; "{case} => {answer}\n")
}

// Writes the answer to the case.
fn ask<R, A: Ask>(rt: &R, asked: &A, case: &str, answer: &mut String) -> Result<(), Unanswered>
where
    R: Files + AllocGlobal,
{
    let parts = parts_of(rt.alloc(), case)?;
    match parts.as_slice().split_first() {
        Some((question, others)) => ask_about(rt, asked, question, others, answer),
        None => Err(Unanswered::Unknown),
    }
}

fn ask_about<R, A: Ask>(
    rt: &R,
    asked: &A,
    question: &str,
    parts: &[&str],
    answer: &mut String,
) -> Result<(), Unanswered>
where
    R: Files + AllocGlobal,
{
    let about = octets_of_each(rt, parts)?;
    let case = Case {
        alloc: rt.alloc(),
        question,
        about: about.as_slice(),
    };
    asked.answer(&case, answer)
}

// What each of the parts stands for.
fn octets_of_each<R>(rt: &R, parts: &[&str]) -> Result<Vec<Vec<u8>>, Unanswered>
where
    R: Files + AllocGlobal,
{
    let mut about = Vec::new(rt.alloc());
    for part in parts {
        about.push(octets_of(rt, part)?)?;
    }
    Ok(about)
}
