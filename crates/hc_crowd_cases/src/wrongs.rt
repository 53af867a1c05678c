//! What was wrong with what came, as text.

use crate::telling::say_count;
use hc_crowd::{Counted, Troubles, Whose};
use hc_head::Target;
use hc_incoming::Trouble;
use std::alloc::{AllocError, Global};
use std::fmt::Write;

/// What was wrong, by kind: how often, and where it was last.
pub(crate) fn text_of(alloc: Global, troubles: &Troubles) -> Result<String, AllocError> {
    let mut text = String::new(alloc);
    'kinds: for kind in troubles.as_slice() {
        if !text.is_empty() {
            text.push_str("; ")?;
        }
        say_kind(kind, &mut text)?;
    }
    Ok(text)
}

/// How many forwards failed, and how many links were cut off, by kind.
pub(crate) fn counts_of(alloc: Global, troubles: &Troubles) -> Result<String, AllocError> {
    let mut text = String::new(alloc);
    let kinds = [
        (Trouble::Unreached, "not reached"),
        (Trouble::ConnectLate, "late"),
        (Trouble::Broken, "broken"),
        (Trouble::Silent, "silent"),
        (Trouble::Unfinished, "unfinished"),
        (Trouble::Unplaced, "without a place"),
        (Trouble::Heavy, "cut off"),
        (Trouble::Abandoned, "abandoned"),
    ];
    'kinds: for (trouble, what) in kinds.iter() {
        say_count(count_of(troubles, *trouble), what, &mut text)?;
    }
    Ok(text)
}

/// How often that befell forwards and links.
fn count_of(troubles: &Troubles, trouble: Trouble) -> u64 {
    let mut count: u64 = 0;
    'kinds: for kind in troubles.as_slice() {
        if kind.trouble == trouble {
            count = count.saturating_add(kind.count);
        }
    }
    count
}

fn say_kind(kind: &Counted, out: &mut String) -> Result<(), AllocError> {
    out.push_str(match kind.whose {
        Whose::Request => "requests: ",
        Whose::Response => "responses: ",
        Whose::Client => "clients: ",
    })?;
    out.push_str(kind.trouble.name())?;
    let count = kind.count;
    let last = kind.last;
    write!(out, ", {count}, the last {last}")?;
    match &kind.target {
        Some(target) => say_target(target, out),
        None => Ok(()),
    }
}

fn say_target(target: &Target, out: &mut String) -> Result<(), AllocError> {
    out.push_str(" for ")?;
    'host: for octet in target.host.as_slice() {
        out.push(char::from(*octet))?;
    }
    'path: for octet in target.path.as_slice() {
        out.push(char::from(*octet))?;
    }
    Ok(())
}
