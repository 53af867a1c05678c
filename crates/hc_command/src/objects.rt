//! A verdict and an explanation as one JSON object.

ghost use Rattle.std.specs.Prelude.{◌≡◌, None, IfOk, codes, option_copied, string_bytes};
ghost use Rattle.std.specs.Option.{option_map};
ghost use Rattle.hc_command.specs.Report.{IsObject, reply_text};

use hc_auditing::verdict_line;
use hc_history::Verdict;
use std::alloc::{AllocError, Global};

/// The object on one line: `verdict` is the line of the verdict, as text, and `reply` what is told of a reply, which is an
/// object; each is null where there is none.
pub(crate) fn object(
    alloc: Global,
    verdict: Option<&Verdict>,
    told: Option<&str>,
) -> Result<String, AllocError>
    ensures { IfOk result (λ text. IsObject (option_copied verdict.entry) (option_map (λ t. t.now) told.entry) (string_bytes text)) }
{
    let verdict = verdict_text(alloc, verdict)?;
    let verdict = verdict.as_str();
    let told = reply_text(told);
    format!(in alloc; "{{\"verdict\":{verdict},\"reply\":{told}}}\n")
}

// What is told of a reply, or null.
fn reply_text<'a>(told: Option<&'a str>) -> &'a str
    ensures { result.now ≡ reply_text (option_map (λ t. t.now) told.entry) }
{
    match told {
        Some(told) => told,
        None => "null",
    }
}

// The line of the verdict, without its line feed, as a JSON string. It is printable ASCII without quotes.
fn verdict_text(alloc: Global, verdict: Option<&Verdict>) -> Result<String, AllocError>
    ensures { option_copied verdict.entry ≡ None → IfOk result (λ text. string_bytes text ≡ codes "null") }
{
    let Some(verdict) = verdict else {
        return String::from_str(alloc, "null");
    };
    let mut line = verdict_line(alloc, verdict)?;
    line.pop();
    let line = line.as_str();
    format!(in alloc; "\"{line}\"")
}
