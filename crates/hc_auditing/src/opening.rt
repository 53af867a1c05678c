//! How an input is opened.

use either::{Either, Left, Right};
use std::io::Input;
use std::rt::Files;
use std::{fs, io};

/// The input of that name: standard input for `-`, and else a file.
pub fn input_of<R: Files + Input>(rt: &R, name: &str) -> io::Result<Either<R::Reader, R::File>> {
    if name == "-" {
        return Ok(Left(rt.reader()));
    }
    Ok(Right(opened(rt, name)?))
}

/// What the input of that name is called where it fails.
pub fn input_name(name: &str) -> &str {
    if name == "-" { "standard input" } else { name }
}

/// The file of that name, to be read.
pub fn opened<R: Files>(rt: &R, name: &str) -> io::Result<R::File> {
    fs::open(rt, name)
}
