//! Heads that are read of octets.

use crate::messages_describing::{ShownHead, head_fault};
use crate::messages_parts::room;
use hc_cases::{Case, Unanswered};
use hc_head::{Room, Step};
use std::alloc::{AllocError, Global};
use std::fmt::Write;

/// Writes the head that octets begin with.
pub fn read<H: ShownHead>(case: &Case<'_>, out: &mut String) -> Result<(), Unanswered> {
    let [within, octets] = case.about else {
        return Err(Unanswered::Unknown);
    };
    let room = room(within)?;
    Ok(described::<H>(case.alloc, octets, room, out)?)
}

// Writes what is read, and of a head how many octets it takes.
fn described<H: ShownHead>(
    alloc: Global,
    octets: &[u8],
    room: Room,
    out: &mut String,
) -> Result<(), AllocError> {
    match H::read(alloc, octets, room) {
        Err(fault) => head_fault(fault, out),
        Ok(Step::More) => out.push_str("more"),
        Ok(Step::Whole(head, length)) => shown(&head, length, out),
    }
}

fn shown<H: ShownHead>(head: &H, length: usize, out: &mut String) -> Result<(), AllocError> {
    head.show(out)?;
    write!(out, "; {length} octets")
}
