//! Fields, by their names.

use crate::blocks::fields_of_block;
use crate::rules_describing::{bracketed, lines, optional};
use hc_cases::{Case, Unanswered, yes_or_no};
use hc_fields::Fields;
use std::alloc::{AllocError, Global};
use std::mem;

/// Answers a question of fields: a NAME and a BLOCK.
pub fn answer(case: &Case<'_>, out: &mut String) -> Result<(), Unanswered> {
    let [name, block] = case.about else {
        return Err(Unanswered::Unknown);
    };
    let mut fields = fields_of_block(case.alloc, block)?;
    Ok(asked(case, name, &mut fields, out)?)
}

fn asked(
    case: &Case<'_>,
    name: &[u8],
    fields: &mut Fields,
    out: &mut String,
) -> Result<(), AllocError> {
    match case.question {
        "values" => values(name, fields, out),
        "joined" => joined(case.alloc, name, fields, out),
        "only" => optional(fields.only(name), out),
        "without" => without(name, fields, out),
        "left-out" => left_out(name, fields, out),
        _ => updated(case.alloc, name, fields, out),
    }
}

fn values(name: &[u8], fields: &Fields, out: &mut String) -> Result<(), AllocError> {
    if !fields.contains(name) {
        return out.push_str("none");
    }
    for value in fields.values(name) {
        bracketed(value, out)?;
    }
    Ok(())
}

fn joined(alloc: Global, name: &[u8], fields: &Fields, out: &mut String) -> Result<(), AllocError> {
    match fields.joined(alloc, name)? {
        Some(value) => bracketed(value.as_slice(), out),
        None => out.push_str("none"),
    }
}

fn without(name: &[u8], fields: &mut Fields, out: &mut String) -> Result<(), AllocError> {
    fields.remove(name);
    if fields.is_empty() {
        return out.push_str("none");
    }
    lines(fields, out)
}

fn left_out(name: &[u8], fields: &Fields, out: &mut String) -> Result<(), AllocError> {
    out.push_str("of a message: ")?;
    yes_or_no(fields.removed(name), out)?;
    out.push_str("; of a store: ")?;
    yes_or_no(fields.left_out_of_store(name), out)
}

// Writes the older lines once they are updated by the newer ones.
fn updated(
    alloc: Global,
    older: &[u8],
    newer: &mut Fields,
    out: &mut String,
) -> Result<(), AllocError> {
    let mut fields = fields_of_block(alloc, older)?;
    fields.update(mem::replace(newer, Fields::new(alloc)))?;
    lines(&fields, out)
}
