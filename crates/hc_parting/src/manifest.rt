//! What a split says of its parts: a line for all, and one for each.

ghost use Rattle.std.specs.Prelude.{◌≡◌, ◌++◌, IfOk, IfSome, string_bytes, true};
ghost use Rattle.hc_parting.specs.Manifests.{head_text, none_told, lines_told, with_digit, with_line, with_mark, with_octet};

use hc_split::Extent;
use std::alloc::{AllocError, Global};
use std::fmt::Write;

/// The first line: how many parts there are, and how many records in all of them.
pub fn head_line(alloc: Global, parts: usize, records: u64) -> Result<String, AllocError>
    ensures { IfOk result (λ line. string_bytes line ≡ head_text parts records) }
{
    format!(in alloc; "hcache split parts={parts} records={records}\n")
}

/// The line of a part: its file, and what that and its table have.
pub fn entry_line(alloc: Global, number: usize, extent: &Extent) -> Result<String, AllocError> {
    let mut line = String::new(alloc);
    put_entry(number, extent, &mut line)?;
    Ok(line)
}

/// Puts that line behind a text.
pub(crate) fn put_entry(
    number: usize,
    extent: &Extent,
    text: &mut String,
) -> Result<(), AllocError> {
    let records = extent.records;
    let octets = extent.octets;
    write!(
        text,
        "part-{number:03}.hct records={records} octets={octets} sha256="
    )?;
    put_digest(&extent.text, text)?;
    text.push_str(" table=")?;
    put_digest(&extent.table, text)?;
    text.push_str("\n")
}

// Puts a digest behind a text, two digits for each octet.
fn put_digest(digest: &[u8; 32], text: &mut String) -> Result<(), AllocError> {
    for octet in digest.iter() {
        write!(text, "{octet:02x}")?;
    }
    Ok(())
}

/// Whether that is the line of a part.
pub(crate) fn is_entry(
    alloc: Global,
    number: usize,
    extent: &Extent,
    line: &[u8],
) -> Result<bool, AllocError> {
    let due = entry_line(alloc, number, extent)?;
    Ok(due.as_bytes() == line)
}

/// The first line, and what stands behind it.
pub(crate) fn split_line(text: &[u8]) -> Option<(&[u8], &[u8])>
    ensures { IfSome result (λ found. text.now ≡ found.0.now ++ found.1.now) }
{
    for (at, octet) in text.iter().enumerate() {
        if *octet == b'\n' {
            return Some(text.split_at(at + 1));
        }
    }
    None
}

/// What the lines of parts tell, as they are read octet by octet.
#[derive(Clone, Copy)]
pub(crate) struct Entries {
    /// How many lines there are.
    pub(crate) lines: usize,
    // How many records the parts of these lines have together, each of which tells its records by its first `=`.
    records: u64,
    // How many `=` there are in the line that is read, and the number behind the first one.
    marks: usize,
    number: u64,
}

impl Entries {
    // Of nothing.
    fn new() -> Self
        ensures { result ≡ none_told }
    {
        Entries {
            lines: 0,
            records: 0,
            marks: 0,
            number: 0,
        }
    }

    // What they tell with that octet.
    fn with(self, octet: u8) -> Self
        ensures { result ≡ with_octet octet self }
    {
        if octet == b'\n' {
            return self.with_line();
        }
        if octet == b'=' {
            return self.with_mark();
        }
        if self.marks == 1 && octet.is_ascii_digit() {
            return self.with_digit(octet);
        }
        self
    }

    fn with_line(self) -> Self
        ensures { result ≡ with_line self }
    {
        Entries {
            lines: self.lines.saturating_add(1),
            records: self.records.saturating_add(self.number),
            marks: 0,
            number: 0,
        }
    }

    fn with_mark(self) -> Self
        ensures { result ≡ with_mark self }
    {
        Entries {
            lines: self.lines,
            records: self.records,
            marks: self.marks.saturating_add(1),
            number: self.number,
        }
    }

    fn with_digit(self, digit: u8) -> Self
        ensures { result ≡ with_digit digit self }
    {
        let value = u64::from(digit.saturating_sub(b'0'));
        Entries {
            lines: self.lines,
            records: self.records,
            marks: self.marks,
            number: self.number.saturating_mul(10).saturating_add(value),
        }
    }
}

/// What these lines tell.
pub(crate) fn lines_told(entries: &[u8]) -> Entries
    ensures { result ≡ lines_told entries.now }
{
    let mut told = Entries::new();
    let mut left = entries;
    'octets: while let Some((octet, rest)) = left.split_first() {
        told = told.with(*octet);
        left = rest;
    }
    told
}

/// The lines of the parts behind the first one, if this is a whole manifest: its first line has how many they are, and the
/// sum of the records that they tell.
pub(crate) fn entries_of(alloc: Global, manifest: &[u8]) -> Result<Option<&[u8]>, AllocError>
    ensures { IfOk result (λ found. IfSome found (λ entries.
        manifest.now ≡ head_text (lines_told entries.now).lines (lines_told entries.now).records ++ entries.now)) }
{
    let Some((head, entries)) = split_line(manifest) else {
        return Ok(None);
    };
    let told = lines_told(entries);
    if told.lines == 0 || !entries.ends_with(b"\n") {
        return Ok(None);
    }
    if is_head(alloc, told, head)? {
        return Ok(Some(entries));
    }
    Ok(None)
}

// Whether that is the first line before lines that tell this.
fn is_head(alloc: Global, told: Entries, head: &[u8]) -> Result<bool, AllocError>
    ensures { IfOk result (λ is. is ≡ true → head.now ≡ head_text told.lines told.records) }
{
    let due = head_line(alloc, told.lines, told.records)?;
    Ok(due.as_bytes() == head)
}
