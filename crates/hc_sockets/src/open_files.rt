//! How many files may be open.

use crate::process::{behind_name, fill};
use std::fs::File;
use std::rt::Files;

/// Where the system tells what this process may use.
const LIMITS: &str = "/proc/self/limits";

/// What stands before the limit.
const NAME: &str = "Max open files";

/// So many octets of the limits are read at most: there are fewer.
const MOST: usize = 4_096;

/// How many files this process may have open at once, sockets too: its soft limit. None, where the system doesn't tell.
pub fn most_open_files<R: Files>(rt: &R) -> Option<u64> {
    let mut file = File::open(rt, LIMITS).ok()?;
    let mut limits = [0; MOST];
    let count = fill(&mut file, &mut limits).ok()?;
    limit_of(behind_name(&limits[..count], NAME)?)
}

/// The first limit of a line of limits.
fn limit_of(line: &str) -> Option<u64> {
    let first = line.split_whitespace().next()?;
    if first == "unlimited" {
        return Some(u64::MAX);
    }
    first.parse::<u64>().ok()
}
