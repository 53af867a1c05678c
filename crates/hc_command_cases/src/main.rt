//! The cases of the program: what it answers to words, what it makes of scripts, where what it reads or writes fails, and
//! what it and others say of transcripts, of those that `cases.txt` lists, a line a case.
#![tactic(auto)]

mod commands_answers;
mod commands_burst;
mod commands_scripts;
mod commands_steps;
mod commands_tasks;
mod commands_words;
mod devices;
mod program;
mod verdicts_answers;
mod verdicts_changes;
mod verdicts_converting;
mod verdicts_others;
mod verdicts_records;
mod verdicts_reports;
mod verdicts_runs;
mod verdicts_shown;
mod verdicts_tellers;
mod verdicts_words;
mod written;

use crate::commands_answers::Commands;
use hc_cases::status;
use std::process::ExitCode;

fn main(rt: HostRuntime) -> ExitCode {
    let asked = Commands { system: &rt };
    ExitCode::from(status(&rt, &asked, &mut rt.stdout(), &mut rt.stderr()))
}
