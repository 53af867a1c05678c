//! The command `hcache`, and its subcommands.

ghost use Rattle.hc_options.specs.Commands.{IsMade};
ghost use Rattle.hc_arguments.specs.Commands.{convert, explain, hcache, join, judges_alone, proxy, replay, report, serve, show, split};

use crate::rows::{
    CACHING, CONVERTED, EXPLAINING, EXPLAINING_FORM, JOINED, PROXY_CACHING, PROXYING, REPLAYED,
    REPORTING, SERVING, SHOWING, SPLITTING,
};
use clap::Command;
use hc_options::{
    AUDITED, COUNTING, JUDGING, audit_command, begun, program, with_rows, with_subcommand,
};
use std::alloc::{AllocError, Global};

const REPORT_ABOUT: &str =
    "Groups all wrong replies of a transcript by why they are wrong, and says what to try";

const EXPLAIN_ABOUT: &str =
    "Explains the first wrong reply of a transcript, or the reply at a position";

const SHOW_ABOUT: &str = "Shows records of a transcript as text, with credentials in heads hidden";

const REPLAY_ABOUT: &str =
    "Plays a script of events to a new cache: standard output gets the transcript that it records, \
    and standard error the line of the verdict on that";

const CONVERT_ABOUT: &str =
    "Converts a transcript to the first format, which doesn't say for which exchange a forward was made: \
    standard output gets the same records without that";

const SPLIT_ABOUT: &str =
    "Splits a transcript into parts by target, each a transcript of its own, so that they can be audited side by side";

const JOIN_ABOUT: &str =
    "Joins the verdicts on all parts of a transcript: says what an audit of the whole says, by the options by which \
    each part was audited, which have to be the same";

const SERVE_ABOUT: &str =
    "Serves clients from a new cache before an origin, one connection after another, and records \
    the transcript of both sides";

const PROXY_ABOUT: &str =
    "Serves many clients at once from a new cache before an origin, until it is stopped";

const REPORT_STATUSES: &str = "\
Exit status:
  0   yes: the transcript keeps to the format, and every reply in it is right, or --baseline has each that is wrong
  1   no: the reply at this position is wrong, by this reason
  2   malformed: the transcript breaks at this position, by this fault
  3   no verdict: standard error says `error: memory` or `error: device`
  4   too few: it is yes, or --baseline makes it so, but fewer replies were judged than is asked for, as standard error says
  5   fewer wrong: it would be 0, but --baseline-strict is asked, and --baseline has wrong replies that aren't there any more
  64  the command line is wrong, or --baseline names no such report, or one by other settings: standard error says how";

const EXPLAIN_STATUSES: &str = "\
Exit status:
  0   the reply is right, or without POSITION none is wrong and the transcript keeps to the format
  1   it is wrong
  2   malformed: the transcript breaks before that, at this position, by this fault
  3   not explained: standard error says `error: memory` or `error: device`
  64  the command line is wrong, or no reply stands at POSITION: standard error says how";

const SHOW_STATUSES: &str = "\
Exit status:
  0   the records were shown
  2   malformed: the transcript breaks before the last of them, at this position, by this fault
  3   not shown: standard error says `error: memory` or `error: device`
  64  the command line is wrong, or a position is past the end: standard error says how";

const REPLAY_STATUSES: &str = "\
Exit status:
  0   yes: the script was played, and every reply in the transcript is right
  2   the script breaks, or no cache has its settings, by this fault
  3   no transcript: standard error says `error: memory` or `error: device`
  64  the command line is wrong: standard error says how";

const CONVERT_STATUSES: &str = "\
Exit status:
  0   the transcript was converted, or is in the first format already
  2   malformed: the transcript breaks at this position, by this fault, as standard error says
  3   not converted: standard error says `error: memory` or `error: device`
  64  the command line is wrong: standard error says how";

const SPLIT_STATUSES: &str = "\
Exit status:
  0   the folder has part-001.hct and so on, a table beside each, and at last the file manifest
  2   malformed: the transcript breaks at this position, by this fault
  3   not split: standard error says `error: memory` or `error: device`; without a manifest the files are no split
  64  the command line is wrong, the transcript is a pipe, or the folder isn't empty: standard error says how";

const JOIN_STATUSES: &str = "\
Exit status, by DIR/part-001.hct.verdict and so on, which have what `hcache audit` wrote for each part:
  0   yes: every reply in the transcript is right, and the counts are those of all parts
  1   no: the reply at this position of the transcript is wrong, by this reason
  3   no verdict: there is none on a part, or the part is lacking or changed, as standard error says
  4   too few: it is yes, but fewer replies were judged than is asked for, as standard error says
  64  the command line is wrong, or the folder has no manifest of a split: standard error says how";

const SERVE_STATUSES: &str = "\
Exit status:
  0   all connections were served
  3   not all were: standard error says `error: memory` or `error: device`
  64  the command line is wrong: standard error says how";

const PROXY_STATUSES: &str = "\
Exit status:
  0   it was stopped, or all of --connections came and went
  3   not served on: standard error says `error: memory` or `error: device`
  64  the command line is wrong, or --record names a pipe, say: standard error says how";

/// The whole command.
pub(crate) fn command<'a>(alloc: Global) -> Result<Command<'a>, AllocError>
    ensures { IsMade hcache result }
{
    let judging = judging_command(alloc);
    let showing = with_subcommand(judging, show_command(alloc));
    let replaying = with_subcommand(showing, replay_command(alloc));
    let serving = with_subcommand(replaying, serve_command(alloc));
    let proxying = with_subcommand(serving, proxy_command(alloc));
    let converting = with_subcommand(proxying, convert_command(alloc));
    let splitting = with_subcommand(converting, split_command(alloc));
    with_subcommand(splitting, join_command(alloc))
}

// The whole command, of its subcommands with those alone that judge.
fn judging_command<'a>(alloc: Global) -> Result<Command<'a>, AllocError>
    ensures { IsMade judges_alone result }
{
    let auditing = with_subcommand(program(alloc), audit_command(alloc));
    let reporting = with_subcommand(auditing, report_command(alloc));
    with_subcommand(reporting, explain_command(alloc))
}

/// The command of that name, without the one above it; the whole command where there is none.
pub(crate) fn command_named<'a>(
    alloc: Global,
    name: Option<&str>,
) -> Result<Command<'a>, AllocError> {
    let Some(name) = name else {
        return command(alloc);
    };
    match name {
        "audit" => audit_command(alloc),
        "report" => report_command(alloc),
        "explain" => explain_command(alloc),
        "show" => show_command(alloc),
        "replay" => replay_command(alloc),
        "serve" => serve_command(alloc),
        "proxy" => proxy_command(alloc),
        "convert" => convert_command(alloc),
        "split" => split_command(alloc),
        "join" => join_command(alloc),
        _ => command(alloc),
    }
}

/// The command `report`, without the one above it.
pub(crate) fn report_command<'a>(alloc: Global) -> Result<Command<'a>, AllocError>
    ensures { IsMade report result }
{
    let bare = begun(
        alloc,
        "report",
        "hcache report",
        REPORT_ABOUT,
        REPORT_STATUSES,
    );
    let filed = with_rows(alloc, bare, &[AUDITED]);
    let judging = with_rows(alloc, filed, &JUDGING);
    let counting = with_rows(alloc, judging, &COUNTING);
    with_rows(alloc, counting, &REPORTING)
}

// The command `explain`, without the one above it.
fn explain_command<'a>(alloc: Global) -> Result<Command<'a>, AllocError>
    ensures { IsMade explain result }
{
    let bare = begun(
        alloc,
        "explain",
        "hcache explain",
        EXPLAIN_ABOUT,
        EXPLAIN_STATUSES,
    );
    let placed = with_rows(alloc, bare, &EXPLAINING);
    let judging = with_rows(alloc, placed, &JUDGING);
    with_rows(alloc, judging, &EXPLAINING_FORM)
}

// The command `show`, without the one above it.
fn show_command<'a>(alloc: Global) -> Result<Command<'a>, AllocError>
    ensures { IsMade show result }
{
    let bare = begun(alloc, "show", "hcache show", SHOW_ABOUT, SHOW_STATUSES);
    with_rows(alloc, bare, &SHOWING)
}

// The command `replay`, without the one above it.
fn replay_command<'a>(alloc: Global) -> Result<Command<'a>, AllocError>
    ensures { IsMade replay result }
{
    let bare = begun(
        alloc,
        "replay",
        "hcache replay",
        REPLAY_ABOUT,
        REPLAY_STATUSES,
    );
    with_rows(alloc, bare, &[REPLAYED])
}

// The command `convert`, without the one above it.
fn convert_command<'a>(alloc: Global) -> Result<Command<'a>, AllocError>
    ensures { IsMade convert result }
{
    let bare = begun(
        alloc,
        "convert",
        "hcache convert",
        CONVERT_ABOUT,
        CONVERT_STATUSES,
    );
    with_rows(alloc, bare, &[CONVERTED])
}

// The command `split`, without the one above it.
fn split_command<'a>(alloc: Global) -> Result<Command<'a>, AllocError>
    ensures { IsMade split result }
{
    let bare = begun(alloc, "split", "hcache split", SPLIT_ABOUT, SPLIT_STATUSES);
    with_rows(alloc, bare, &SPLITTING)
}

// The command `join`, without the one above it.
fn join_command<'a>(alloc: Global) -> Result<Command<'a>, AllocError>
    ensures { IsMade join result }
{
    let bare = begun(alloc, "join", "hcache join", JOIN_ABOUT, JOIN_STATUSES);
    let placed = with_rows(alloc, bare, &[JOINED]);
    with_rows(alloc, placed, &COUNTING)
}

// The command `serve`, without the one above it.
fn serve_command<'a>(alloc: Global) -> Result<Command<'a>, AllocError>
    ensures { IsMade serve result }
{
    let bare = begun(alloc, "serve", "hcache serve", SERVE_ABOUT, SERVE_STATUSES);
    let serving = with_rows(alloc, bare, &SERVING);
    with_rows(alloc, serving, &CACHING)
}

// The command `proxy`, without the one above it.
fn proxy_command<'a>(alloc: Global) -> Result<Command<'a>, AllocError>
    ensures { IsMade proxy result }
{
    let bare = begun(alloc, "proxy", "hcache proxy", PROXY_ABOUT, PROXY_STATUSES);
    let proxying = with_rows(alloc, bare, &PROXYING);
    with_rows(alloc, proxying, &PROXY_CACHING)
}
