//! Lists of cases.

use std::alloc::{AllocError, Global};

/// The cases of a list: its lines, but for empty ones and those that begin with `#`.
pub fn cases_of(alloc: Global, list: &str) -> Result<Vec<&str>, AllocError> {
    list.lines().filter(|line| is_case(line)).collect(alloc)
}

// Whether a line is a case.
fn is_case(line: &str) -> bool {
    !line.is_empty() && !line.starts_with('#')
}

/// The parts of a case: what stands between its bars, without blanks around it.
pub fn parts_of(alloc: Global, case: &str) -> Result<Vec<&str>, AllocError> {
    case.split('|').map(|part| part.trim()).collect(alloc)
}
