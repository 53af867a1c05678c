//! What those who watch over a proxy are told.

use hc_cases::{Unanswered, show_short};
use hc_monitor::{Figures, Stand, class_of, metrics_of, way_of};
use std::alloc::{AllocError, Global};

/// Writes the names of the numbers that are 1 once a reply of that Cache-Status and that status was counted.
pub(crate) fn say_counted(
    alloc: Global,
    about: &[Vec<u8>],
    out: &mut String,
) -> Result<(), Unanswered> {
    let [mark, status] = about else {
        return Err(Unanswered::Unknown);
    };
    let mut figures = Figures::none();
    figures
        .replies
        .count(way_of(mark.as_slice()), class_of(status.as_slice()));
    let told = metrics_of(alloc, &figures, &STILL, &[])?;
    Ok(say_ones(told.as_slice(), out)?)
}

/// Nothing is open, stored or held.
const STILL: Stand = Stand {
    clients: 0,
    most_clients: 0,
    guests: 0,
    awaiting: 0,
    forwards: 0,
    most_origin: 0,
    queued: 0,
    waiters: 0,
    targets: 0,
    most_targets: 0,
    stored: 0,
    most_stored: 0,
    evicted: 0,
    held: 0,
    most_held: 0,
    lost_lines: 0,
    records: false,
    record_ended: false,
    drains: false,
    failed_polls: 0,
    longest_turn: 0,
};

fn say_ones(told: &[u8], out: &mut String) -> Result<(), AllocError> {
    'lines: for line in told.split(|octet| *octet == b'\n') {
        if let Some(name) = line.strip_suffix(b" 1") {
            show_short(name, out)?;
        }
    }
    Ok(())
}
