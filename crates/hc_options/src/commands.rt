//! Commands of a command line, built from rows.

ghost use Rattle.std.specs.Prelude.{◌≡◌, Ok, false, map};
ghost use Rattle.clap.specs.Words.{App, new_app, rule_of, with_rule, with_subcommand};
ghost use Rattle.hc_options.specs.Commands.{IsMade, audit, auditing, program, with_rules};
ghost use Rattle.hc_options.specs.Rows.{row_rule};

use crate::rows::{Kind, Row};
use crate::tables::{AUDITED, COUNTING, JUDGING};
use clap::{Arg, ArgAction, Command};
use std::alloc::{AllocError, Global};

const ABOUT: &str =
    "Audits the transcripts of a cache, groups and explains their wrong replies, shows records, plays scripts \
    to a cache that records one, serves clients from one, also many at once, and converts and splits transcripts";

const AUDIT_ABOUT: &str = "Says whether every reply in a transcript is right, in one line";

const STATUSES: &str = "\
Exit status:
  0   yes: the transcript keeps to the format, and every reply in it is right
  1   no: the reply at this position is wrong, by this reason
  2   malformed: the transcript breaks at this position, by this fault
  3   no verdict: standard error says `error: memory` or `error: device`
  4   too few: it is yes, but fewer replies were judged than is asked for, as standard error says
  64  the command line is wrong: standard error says how";

/// The command of the program that only audits.
pub(crate) fn auditing_command<'a>(alloc: Global) -> Result<Command<'a>, AllocError>
    ensures { IsMade auditing result }
{
    with_subcommand(program(alloc), audit_command(alloc))
}

/// The command above its subcommands, without them.
pub fn program<'a>(alloc: Global) -> Result<Command<'a>, AllocError>
    ensures { IsMade program result }
{
    Command::new(alloc, "hcache")
        .version("0.1.0")
        .about(ABOUT)
        .subcommand_required(true)
        .bin_name("hcache")
}

/// The command `audit`, without the one above it.
pub fn audit_command<'a>(alloc: Global) -> Result<Command<'a>, AllocError>
    ensures { IsMade audit result }
{
    let bare = begun(alloc, "audit", "hcache audit", AUDIT_ABOUT, STATUSES);
    let filed = with_rows(alloc, bare, &[AUDITED]);
    let judging = with_rows(alloc, filed, &JUDGING);
    with_rows(alloc, judging, &COUNTING)
}

/// A subcommand of that name, without its arguments.
pub fn begun<'a>(
    alloc: Global,
    name: &'a str,
    whole_name: &'a str,
    about: &'a str,
    statuses: &'a str,
) -> Result<Command<'a>, AllocError>
    ensures { IsMade (new_app name.entry.now) result }
{
    Command::new(alloc, name)
        .about(about)
        .after_help(statuses)
        .bin_name(whole_name)
}

/// The command with the arguments and options of these rows after its own.
pub fn with_rows<'a>(
    alloc: Global,
    mut command: Result<Command<'a>, AllocError>,
    rows: &[Row],
) -> Result<Command<'a>, AllocError>
    ensures { (app : App) → IsMade app command.entry → IsMade (with_rules app (map row_rule rows.now)) result }
{
    for row in rows {
        command = with_row(alloc, command, row);
    }
    command
}

// The command with the argument or option of one more row.
fn with_row<'a>(
    alloc: Global,
    command: Result<Command<'a>, AllocError>,
    row: &Row,
) -> Result<Command<'a>, AllocError>
    ensures { (app : App) → IsMade app command.entry → IsMade (with_rule app (row_rule row.now)) result }
{
    command?.arg(argument(alloc, row))
}

/// The command with one more subcommand.
pub fn with_subcommand<'a>(
    command: Result<Command<'a>, AllocError>,
    subcommand: Result<Command<'a>, AllocError>,
) -> Result<Command<'a>, AllocError>
    ensures { (app below : App) → IsMade app command.entry → IsMade below subcommand.entry
        → IsMade (with_subcommand app below.top) result }
{
    match command {
        Ok(command) => with_made(command, subcommand),
        Err(error) => Err(error),
    }
}

// The same of a command that was made.
fn with_made<'a>(
    command: Command<'a>,
    subcommand: Result<Command<'a>, AllocError>,
) -> Result<Command<'a>, AllocError>
    ensures { (app below : App) → IsMade app (Ok command.entry) → IsMade below subcommand.entry
        → IsMade (with_subcommand app below.top) result }
{
    command.subcommand(subcommand?)
}

// The argument or the option of a row.
fn argument<'a>(alloc: Global, row: &Row) -> Arg<'a>
    ensures rule { rule_of result ≡ row_rule row.now }
    ensures local { result.global ≡ false }
{
    let bare = Arg::new(alloc, row.name).help(row.help);
    match row.kind {
        Kind::Argument => bare.required(row.required),
        Kind::Flag => bare.long(row.name).action(ArgAction::SetTrue),
        Kind::Valued => bare
            .long(row.name)
            .value_name(row.value)
            .required(row.required),
        Kind::Repeated => bare
            .long(row.name)
            .value_name(row.value)
            .required(row.required)
            .action(ArgAction::Append),
    }
}
