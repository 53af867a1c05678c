//! The files of a split, in their folder.

use std::alloc::{AllocError, Global};
use std::io::{ErrorKind, Read};
use std::rt::Files;
use std::{fs, io};

/// The name of the file in that folder which says what its parts are.
pub(crate) fn manifest_name(alloc: Global, dir: &str) -> Result<String, AllocError> {
    format!(in alloc; "{dir}/manifest")
}

/// How the name of a part ends.
pub(crate) const PART: &str = "hct";

/// How that of its table ends.
pub(crate) const TABLE: &str = "table";

/// And that of the verdict on it.
pub(crate) const VERDICT: &str = "hct.verdict";

/// The name of the file of the part of that number, from 1 on, that ends so.
pub(crate) fn name_in(
    alloc: Global,
    dir: &str,
    number: usize,
    ending: &str,
) -> Result<String, AllocError> {
    format!(in alloc; "{dir}/part-{number:03}.{ending}")
}

/// What stands where a folder is wanted.
#[derive(Clone, Copy, PartialEq, Eq)]
pub(crate) enum Place {
    /// Nothing.
    Free,
    /// A folder without a file.
    Empty,
    /// Something else.
    Taken,
}

/// What stands there.
pub(crate) fn place_of<R: Files + AllocGlobal>(rt: &R, dir: &str) -> io::Result<Place> {
    let found = match fs::metadata(rt, dir) {
        Ok(found) => found,
        Err(error) if error.kind() == ErrorKind::NotFound => return Ok(Place::Free),
        Err(error) => return Err(error),
    };
    if !found.is_dir() {
        return Ok(Place::Taken);
    }
    if has_names(names_in(rt, dir)?.as_slice()) {
        return Ok(Place::Taken);
    }
    Ok(Place::Empty)
}

// The names in a folder, with an octet 0 behind each.
fn names_in<R: Files + AllocGlobal>(rt: &R, dir: &str) -> io::Result<Vec<u8>> {
    // By the slash the system follows a symbolic link to a folder.
    let path = format!(in rt.alloc(); "{dir}/")?;
    all_read(rt.alloc(), rt.open_dir(path.as_str()))
}

// What that gives up to its end.
fn all_read<D: Read + Drop>(alloc: Global, found: io::Result<D>) -> io::Result<Vec<u8>> {
    let mut names = found?;
    let mut all = Vec::new(alloc);
    names.read_to_end(&mut all)?;
    Ok(all)
}

// Whether there is one beside that of the folder itself and that of the one above it.
fn has_names(names: &[u8]) -> bool {
    for name in names.split(|octet| *octet == 0) {
        if !name.is_empty() && name != b".".as_slice() && name != b"..".as_slice() {
            return true;
        }
    }
    false
}
