//! What the system tells of this process, in files of lines that each begin with a name.

ghost use Rattle.std.specs.Prelude.{◌≤◌, length, IfOk};

use std::io;
use std::io::Read;

/// Reads what the buffer takes, from where the file stands to its end at most. Returns how many octets that
/// are.
pub(crate) fn fill<F: Read>(file: &mut F, buffer: &mut [u8]) -> io::Result<usize>
    ensures { IfOk result (λ count. count ≤ length buffer.new) }
{
    let mut filled = 0;
    'reads: while filled < buffer.len() {
        match file.read(&mut buffer[filled..])? {
            0 => return Ok(filled),
            count => filled += count,
        }
    }
    Ok(filled)
}

/// What stands behind that name in the first line that begins with it.
pub(crate) fn behind_name<'a>(text: &'a [u8], name: &str) -> Option<&'a str> {
    let text = str::from_utf8(text).ok()?;
    'lines: for line in text.lines() {
        if let Some(rest) = line.strip_prefix(name) {
            return Some(rest);
        }
    }
    None
}
