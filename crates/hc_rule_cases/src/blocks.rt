//! Fields in cases.
ghost use Rattle.std.specs.Prelude.{◌<◌, length, IfSome};

use hc_fields::{Field, Fields};
use std::alloc::{AllocError, Global};

/// The fields of a block: lines `NAME: VALUE` with a line feed between them, as they stand.
pub fn fields_of_block(alloc: Global, block: &[u8]) -> Result<Fields, AllocError> {
    let mut fields = Fields::new(alloc);
    let mut rest = block;
    'lines: while let Some((line, behind)) = first_line(rest) {
        fields.push(field_of(alloc, line)?)?;
        rest = behind;
    }
    Ok(fields)
}

// The first line of a block, and what stands behind it.
fn first_line(block: &[u8]) -> Option<(&[u8], &[u8])>
    ensures { IfSome result (λ (line, behind). length behind.now < length block.now) }
{
    if block.is_empty() {
        return None;
    }
    match block.iter().position(|octet| *octet == b'\n') {
        Some(at) => Some((&block[..at], &block[at + 1..])),
        None => Some((block, &[])),
    }
}

/// The fields of those lines, each `NAME: VALUE`, as they stand.
pub fn fields_of_lines(alloc: Global, lines: &[Vec<u8>]) -> Result<Fields, AllocError> {
    let mut fields = Fields::new(alloc);
    for line in lines {
        fields.push(field_of(alloc, line.as_slice())?)?;
    }
    Ok(fields)
}

/// The field of a line: what stands before the first colon, and what stands behind it and a space.
fn field_of(alloc: Global, line: &[u8]) -> Result<Field, AllocError> {
    let (name, value) = name_and_value(line);
    Field::new(alloc, name, value)
}

fn name_and_value(line: &[u8]) -> (&[u8], &[u8]) {
    match line.iter().position(|octet| *octet == b':') {
        Some(at) => (&line[..at], without_space(&line[at + 1..])),
        None => (line, &[]),
    }
}

fn without_space(text: &[u8]) -> &[u8] {
    match text.split_first() {
        Some((b' ', rest)) => rest,
        _ => text,
    }
}
