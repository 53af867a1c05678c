//! What each step returns.

use hc_cases::{Unanswered, show};
use hc_core::{StepResult, run};
use hc_framing::MessageText;
use hc_scripts::read_script;
use hc_service::Action;
use std::alloc::{AllocError, Global};
use std::fmt::Write;

/// Writes what each step of the script's run returns: its actions, or its fault.
pub fn say_steps(alloc: Global, script: &[u8], out: &mut String) -> Result<(), Unanswered> {
    let Ok(script) = read_script(alloc, script) else {
        return Err(Unanswered::Unknown);
    };
    let settings = script.settings(alloc)?;
    let Ok(run) = run(alloc, settings, script.events) else {
        return Err(Unanswered::Unknown);
    };
    say_results(alloc, run.results.as_slice(), out)?;
    Ok(())
}

fn say_results(alloc: Global, results: &[StepResult], out: &mut String) -> Result<(), AllocError> {
    let mut first = true;
    for answer in results {
        if !first {
            out.push_str("; ")?;
        }
        first = false;
        say_answer(alloc, answer, out)?;
    }
    Ok(())
}

fn say_answer(alloc: Global, answer: &StepResult, out: &mut String) -> Result<(), AllocError> {
    match answer {
        Ok(actions) => say_actions(alloc, actions.as_slice(), out),
        Err(fault) => write!(out, "{fault:?}"),
    }
}

fn say_actions(alloc: Global, actions: &[Action], out: &mut String) -> Result<(), AllocError> {
    if actions.is_empty() {
        return out.push_str("nothing");
    }
    let mut first = true;
    for action in actions {
        if !first {
            out.push_str(", ")?;
        }
        first = false;
        say_action(alloc, action, out)?;
    }
    Ok(())
}

fn say_action(alloc: Global, action: &Action, out: &mut String) -> Result<(), AllocError> {
    match action {
        Action::ToClient(connection, text) => {
            write!(out, "to {connection} ")?;
            say_text(alloc, text, out)
        }
        Action::CloseClient(connection) => write!(out, "close {connection}"),
        Action::Forward(forward, text) => {
            write!(out, "forward {forward} ")?;
            say_text(alloc, text, out)
        }
        Action::CloseForward(forward) => write!(out, "close forward {forward}"),
        Action::Record(_) => out.push_str("record"),
    }
}

fn say_text(alloc: Global, text: &MessageText, out: &mut String) -> Result<(), AllocError> {
    let mut octets = Vec::new(alloc);
    text.append_to(&mut octets)?;
    show(octets.as_slice(), out)
}
