//! A page on which words are written, piece by piece.

use crate::hidden::is_credential;
use crate::moment::push_moment;
use crate::octets::push_octets;
use crate::teller::{FieldOf, RecordName, Teller};
use crate::values::{push_target, push_value};
use hc_fields::Octets;
use hc_head::Target;
use std::alloc::{AllocError, Global};
use std::fmt::Write;

/// A text that grows. Where memory is refused for a piece of it, the whole is never given: `onto` and
/// `into_text` return that.
pub struct Page {
    alloc: Global,
    text: String,
    is_refused: bool,
}

impl Drop for Page {
    fn drop(self) {
        let Page {
            alloc: _,
            text,
            is_refused: _,
        } = self;
        drop(text);
    }
}

fn lines_of(field: &FieldOf<'_>) -> u64 {
    let mut lines: u64 = 0;
    for _line in field.fields.values(field.name) {
        lines = lines.saturating_add(1);
    }
    lines
}

impl Page {
    /// Nothing.
    pub fn new(alloc: Global) -> Self {
        Page {
            alloc,
            text: String::new(alloc),
            is_refused: false,
        }
    }

    /// Adds the whole to a text.
    pub fn onto(&self, out: &mut String) -> Result<(), AllocError> {
        if self.is_refused {
            return Err(AllocError);
        }
        out.push_str(self.text.as_str())
    }

    /// The whole, which is moved.
    pub fn into_text(self) -> Result<String, AllocError> {
        let Page {
            alloc: _,
            text,
            is_refused,
        } = self;
        if is_refused {
            Err(AllocError)
        } else {
            Ok(text)
        }
    }

    /// Takes in that memory was refused to another page, if it was.
    pub fn take_refusal(&mut self, other: &Page) {
        self.is_refused = self.is_refused || other.is_refused;
    }

    // Takes in whether a piece was written.
    fn note(&mut self, written: Result<(), AllocError>) {
        self.is_refused = self.is_refused || written.is_err();
    }

    /// How many columns of text there are, all in all.
    pub fn columns(&self) -> usize {
        self.text.len()
    }

    /// Writes spaces after that place, up to so many columns.
    pub fn pad(&mut self, begun: usize, width: usize) {
        for _ in self.text.len()..begun.saturating_add(width) {
            self.words(" ");
        }
    }

    /// Writes a text, and spaces up to so many columns.
    pub fn padded(&mut self, text: &str, width: usize) {
        let begun = self.text.len();
        self.words(text);
        self.pad(begun, width);
    }

    /// Writes a number at the end of eight columns, and a text after it.
    pub fn column(&mut self, number: u64, after: &str) {
        let written = write!(self.text, "{number:>8}{after}");
        self.note(written);
    }

    /// Writes a value of the field of that name as it is shown.
    pub fn shown_value(&mut self, name: &[u8], value: &[u8]) {
        let written = push_value(name, value, &mut self.text);
        self.note(written);
    }

    /// Writes what a message has of a field, with its lines joined by a comma and a space. Returns whether it has any.
    pub fn joined(&mut self, field: &FieldOf<'_>) -> bool {
        match joined(self.alloc, field) {
            Ok(Some(value)) => self.shown_value(field.name, value.as_slice()),
            Ok(None) => return false,
            Err(_) => self.is_refused = true,
        }
        true
    }

    /// Writes a target as it is shown.
    pub fn target(&mut self, target: &Target) {
        let written = push_target(target, &mut self.text);
        self.note(written);
    }
}

// The lines of a field joined, where there are any. Its name may be in any case.
fn joined(alloc: Global, field: &FieldOf<'_>) -> Result<Option<Octets>, AllocError> {
    let name = field.name.to_ascii_lowercase(alloc)?;
    field.fields.joined(alloc, name.as_slice())
}

impl Teller for Page {
    fn is_text(&self) -> bool {
        true
    }

    fn page(&self) -> Page {
        Page::new(self.alloc)
    }

    fn words(&mut self, words: &str) {
        let written = self.text.push_str(words);
        self.note(written);
    }

    fn count(&mut self, before: &str, number: u64, after: &str) {
        let written = write!(self.text, "{before}{number}{after}");
        self.note(written);
    }

    fn record(&mut self, before: &str, record: RecordName) {
        let (position, letter, number) = (record.position, record.letter(), record.number);
        let written = write!(self.text, "{before}{position} {letter} {number}");
        self.note(written);
    }

    fn moment(&mut self, moment: u64) {
        let written = push_moment(moment, &mut self.text);
        self.note(written);
    }

    fn said_octets(&mut self, before: &str, octets: &[u8], after: &str) {
        self.words(before);
        let written = push_octets(octets, &mut self.text);
        self.note(written);
        self.words(after);
    }

    fn said_value(&mut self, field: &FieldOf<'_>) {
        if !self.joined(field) {
            self.words("none");
        }
    }

    fn said(&mut self, _: &'static str, page: Page) {
        self.words(page.text.as_str());
        self.take_refusal(&page);
    }

    fn fill(&mut self) {
        let mut columns: usize = 0;
        for octet in self.text.as_bytes().iter().rev() {
            if *octet == b'\n' {
                break;
            }
            columns = columns.saturating_add(1);
        }
        self.padded("", 15_usize.saturating_sub(columns));
        self.words(" ");
    }

    fn signed(&mut self, _: &'static str, before: &str, number: i64) {
        let written = write!(self.text, "{before}{number}");
        self.note(written);
    }

    fn quoted(&mut self, _: &'static str, octets: &[u8]) {
        self.shown_value(b"", octets);
    }

    fn values(&mut self, _: &'static str, before: &str, field: &FieldOf<'_>) {
        self.words(before);
        let lines = lines_of(field);
        if lines == 0 {
            return self.words("none");
        }
        if is_credential(field.name) {
            let after = if lines == 1 {
                " value, hidden: "
            } else {
                " values, hidden: "
            };
            self.count("", lines, after);
        }
        let mut is_first = true;
        for line in field.fields.values(field.name) {
            self.separator(is_first, "", ", ");
            self.shown_value(field.name, line);
            is_first = false;
        }
    }
}
