//! Arguments and options of a command line, as rows of a table.

use std::alloc::{AllocError, Global};
use std::fmt::Write;

/// How the value of a row is given.
#[derive(Clone, Copy)]
pub enum Kind {
    /// By a word that stands alone.
    Argument,
    /// By a word that begins with two hyphens, which has no value.
    Flag,
    /// By a word that begins with two hyphens, and a value.
    Valued,
    /// The same, as often as there are values.
    Repeated,
}

/// Which values a row takes.
#[derive(Clone, Copy)]
pub enum Takes {
    /// Any text, or for a flag none.
    AnyText,
    /// The name of a file, which isn't `-`.
    FileName,
    /// A decimal from 0 to 2147483648: seconds, or a number of replies.
    Count,
    /// A decimal from the first number to the second, which is at most 999999999999.
    Number(u64, u64),
    /// A decimal, by itself or with a unit, from so many octets, in whole MiB, to 999999999999.
    Size(u64),
    /// Words of what is allowed, with commas between them.
    AllowedWords,
    /// Names of fields with commas between them.
    Names,
    /// The same, of which none is `*`.
    VaryNames,
    /// The name of a cache. Which texts are one is said where caches are asked for.
    CacheName,
    /// Positions of records. Which texts are some is said where records are asked for.
    Positions,
    /// A host and a port of an origin. Which texts aren't is said where origins are asked for.
    OriginAddress,
}

/// An argument or an option that a command takes.
#[derive(Clone, Copy)]
pub struct Row {
    /// Its name: of an option what stands behind its two hyphens.
    pub name: &'static str,
    /// How its value is given.
    pub kind: Kind,
    /// What help calls its value, if it is an option that has one.
    pub value: &'static str,
    /// Which values it takes.
    pub takes: Takes,
    /// Whether the command can't go without it. A flag may always be left out.
    pub required: bool,
    /// What help says of it.
    pub help: &'static str,
}

impl Takes {
    // Writes why a value is none of these.
    fn put_complaint(self, text: &mut String) -> Result<(), AllocError> {
        match self {
            Takes::Number(least, most) => write!(text, "not a decimal from {least} to {most}"),
            Takes::Size(least) => put_size_complaint(least, text),
            other => text.push_str(other.complaint()),
        }
    }

    // The same of those of which it is one text.
    fn complaint(self) -> &'static str {
        match self {
            Takes::AnyText | Takes::Number(_, _) | Takes::Size(_) => "not text",
            Takes::FileName => "it is read twice, so it can't be standard input",
            Takes::Count => "not a decimal from 0 to 2147483648",
            Takes::AllowedWords => {
                "not added-fields, joined-lines and ranges with commas between them, nor all"
            }
            Takes::Names | Takes::VaryNames => "not names of fields with commas between them",
            Takes::CacheName => {
                "not a letter and then at most 31 letters, digits, '-', '_' and '.'"
            }
            Takes::OriginAddress => "no origin has port 0",
            Takes::Positions => {
                "not a decimal from 1 to 999999999999, nor two with a hyphen between them, of which the first is no \
                greater"
            }
        }
    }
}

// Writes why a value is no size of so many octets or more.
fn put_size_complaint(least: u64, text: &mut String) -> Result<(), AllocError> {
    text.push_str("not a decimal, by itself or with k, m or g behind it, from ")?;
    if least == 0 {
        return text.push_str("0 to 999999999999");
    }
    let mebibytes = least / 1_048_576;
    write!(text, "{mebibytes}m to 999999999999")
}

impl Row {
    /// What a usage error says of a value that it doesn't take.
    pub(crate) fn complaint(&self, alloc: Global) -> Result<String, AllocError> {
        let mut text = String::new(alloc);
        self.put_complaint(&mut text)?;
        Ok(text)
    }

    fn put_complaint(&self, text: &mut String) -> Result<(), AllocError> {
        text.push_str("invalid value for '")?;
        self.put_name(text)?;
        text.push_str("': ")?;
        self.takes.put_complaint(text)
    }

    // Writes what help calls it.
    fn put_name(&self, text: &mut String) -> Result<(), AllocError> {
        match self.kind {
            Kind::Argument => put_argument(self.name, self.required, text),
            Kind::Flag | Kind::Valued | Kind::Repeated => put_option(self.name, self.value, text),
        }
    }
}

fn put_argument(name: &str, required: bool, text: &mut String) -> Result<(), AllocError> {
    text.push(if required { '<' } else { '[' })?;
    text.push_str(name)?;
    text.push(if required { '>' } else { ']' })
}

fn put_option(name: &str, value: &str, text: &mut String) -> Result<(), AllocError> {
    write!(text, "--{name} <{value}>")
}
