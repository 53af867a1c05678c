//! Cache-Status, as a list of structured items and as a mark.

use hc_cases::{Case, Unanswered, show_short};
use hc_fields::{Field, Fields};
use hc_status::{Bare, Mark, MarkFault, Member, Parameters, SfFault, mark, read_list};
use std::alloc::{AllocError, Global};
use std::fmt::Write;

/// Answers a question of Cache-Status: what the lines are read as, or the mark that they are.
pub fn answer(case: &Case<'_>, out: &mut String) -> Result<(), Unanswered> {
    let fields = among_others(case.alloc, case.about)?;
    match case.question {
        "structured" => Ok(structured(case.alloc, &fields, out)?),
        _ => Ok(marked(case.alloc, &fields, out)?),
    }
}

// Lines of Cache-Status, with another field before them and one behind them.
fn among_others(alloc: Global, values: &[Vec<u8>]) -> Result<Fields, AllocError> {
    let mut fields = Fields::new(alloc);
    push_lines(alloc, values, &mut fields)?;
    Ok(fields)
}

fn push_lines(alloc: Global, values: &[Vec<u8>], fields: &mut Fields) -> Result<(), AllocError> {
    fields.push(Field::new(alloc, b"age", b"0")?)?;
    for value in values {
        fields.push(Field::new(alloc, b"cache-status", value)?)?;
    }
    fields.push(Field::new(alloc, b"vary", b"(")?)
}

fn list_fault(fault: SfFault, out: &mut String) -> Result<(), AllocError> {
    write!(out, "fault {fault:?}")
}

// Writes the members that the lines are, each with a stroke behind it.
fn structured(alloc: Global, fields: &Fields, out: &mut String) -> Result<(), AllocError> {
    match read_list(alloc, fields) {
        Ok(members) => shown(members.as_slice(), out),
        Err(fault) => list_fault(fault, out),
    }
}

fn shown(members: &[Member], out: &mut String) -> Result<(), AllocError> {
    for member in members {
        shown_item(&member.item, out)?;
        shown_parameters(&member.params, out)?;
        out.push_str("/")?;
    }
    Ok(())
}

fn shown_parameters(parameters: &Parameters, out: &mut String) -> Result<(), AllocError> {
    for parameter in parameters.as_slice() {
        out.push_str(";")?;
        show_short(parameter.key.as_slice(), out)?;
        out.push_str("=")?;
        shown_item(&parameter.value, out)?;
    }
    Ok(())
}

// Writes an item behind a letter that tells its type, unless that is a number or a Boolean.
fn shown_item(item: &Bare, out: &mut String) -> Result<(), AllocError> {
    let (letter, octets) = match item {
        Bare::Integer(number) => return write!(out, "{number}"),
        Bare::Bool(false) => return out.push_str("?0"),
        Bare::Bool(true) => return out.push_str("?1"),
        Bare::Decimal(octets) => ("d", octets),
        Bare::Str(octets) => ("s", octets),
        Bare::Token(octets) => ("t", octets),
        Bare::Bytes(octets) => ("b", octets),
    };
    out.push_str(letter)?;
    show_short(octets.as_slice(), out)
}

// Writes the mark of fields.
fn marked(alloc: Global, fields: &Fields, out: &mut String) -> Result<(), AllocError> {
    match mark(alloc, fields) {
        Ok(Mark::Hit { ttl: Some(ttl) }) => write!(out, "hit with ttl {ttl}"),
        Ok(Mark::Hit { ttl: None }) => out.push_str("hit"),
        Ok(Mark::Forwarded { collapsed: true }) => out.push_str("forwarded collapsed"),
        Ok(Mark::Forwarded { collapsed: false }) => out.push_str("forwarded"),
        Ok(Mark::Both) => out.push_str("both"),
        Ok(Mark::Unmarked) => out.push_str("unmarked"),
        Err(MarkFault::Memory) => Err(AllocError),
    }
}
