//! After which octet the end of a request is known, or its fault.

use crate::messages_describing::frame_fault;
use crate::messages_parts::joined;
use hc_cases::{Case, Unanswered};
use hc_framing::{FrameFault, Kind, MessageReader, Progress};
use hc_head::{RequestHead, Room};
use std::alloc::Global;
use std::fmt::Write;

/// Writes after how many octets the end of a request or its fault is known.
pub fn octet_by_octet(case: &Case<'_>, out: &mut String) -> Result<(), Unanswered> {
    let octets = joined(case.alloc, case.about)?;
    let (fault, count) = first_answer(case.alloc, octets.as_slice());
    drop(octets);
    match fault {
        Some(fault) => frame_fault(fault, out)?,
        None => out.push_str("no fault")?,
    }
    Ok(write!(out, " after {count} octets")?)
}

// What ends the reading of a request octet by octet, and how many octets that took.
fn first_answer(alloc: Global, octets: &[u8]) -> (Option<FrameFault>, usize) {
    let mut reader = MessageReader::<RequestHead>::new(alloc, Kind::Request, Room::RECEIVED);
    'octets: for (index, octet) in octets.iter().enumerate() {
        match reader.feed(&[*octet]) {
            Ok(Progress::More) => {}
            Ok(Progress::Whole(_)) => return (None, index + 1),
            Err(fault) => return (Some(fault), index + 1),
        }
    }
    (None, octets.len())
}
