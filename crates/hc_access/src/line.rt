//! A line of the access log.

ghost use Rattle.std.specs.Prelude.{◌≡◌, ◌++◌, ◌<◌, IfOk, OnOk, decimal};
ghost use Rattle.hc_fields.specs.Numbers.{end_of_moments};
ghost use Rattle.hc_access.specs.Lines.{begin_text, behind_text, day_and_time, front_text, replied_text};
ghost use Rattle.hc_access.specs.Values.{HasQuotes, end_text};

use crate::asked::Asked;
use crate::quoting::{push_quoted, push_value};
use hc_fresh::date_text;
use std::alloc::{AllocError, Global};
use std::io::Write;

/// What was replied.
#[derive(Clone, Copy)]
pub struct Replied<'a> {
    /// The three digits of its status.
    pub status: &'a [u8],
    /// How many octets its body has.
    pub size: u64,
    /// The value of its Cache-Status (RFC 9211).
    pub mark: &'a [u8],
    /// Why the request was refused, or no response came; empty where neither is so.
    pub trouble: &'a [u8],
}

/// Puts the day and the time of day of a moment before the year 10000 at the end, as in `26/Nov/2026:17:06:06 +0000`.
pub fn push_time(moment: u64, out: &mut Vec<u8>) -> Result<(), AllocError>
    requires { moment < end_of_moments }
    ensures { OnOk result (out.new.items ≡ out.old.items ++ day_and_time moment) }
{
    let date = date_text(moment);
    out.extend_from_slice(&date[5..7])?;
    out.push(b'/')?;
    out.extend_from_slice(&date[8..11])?;
    out.push(b'/')?;
    out.extend_from_slice(&date[12..16])?;
    out.push(b':')?;
    out.extend_from_slice(&date[17..25])?;
    out.extend_from_slice(b" +0000")
}

/// Puts a number at the end, as a decimal.
fn push_number(number: u64, out: &mut Vec<u8>) -> Result<(), AllocError>
    ensures { OnOk result (out.new.items ≡ out.old.items ++ decimal number) }
{
    write!(out, "{number}").map_err(|_| AllocError)
}

/// Puts who asked, when and what at the end.
fn push_begin(client: &[u8], time: &[u8], line: &[u8], out: &mut Vec<u8>) -> Result<(), AllocError>
    ensures { OnOk result (out.new.items ≡ out.old.items ++ begin_text client.now time.now line.now) }
{
    push_value(client, out)?;
    out.extend_from_slice(b" - - [")?;
    push_value(time, out)?;
    out.extend_from_slice(b"] ")?;
    out.extend_from_slice(line)
}

/// Puts the status and the size of a reply at the end.
fn push_replied(status: &[u8], size: u64, out: &mut Vec<u8>) -> Result<(), AllocError>
    ensures { OnOk result (out.new.items ≡ out.old.items ++ replied_text status.now size) }
{
    out.push(b' ')?;
    push_value(status, out)?;
    out.push(b' ')?;
    push_number(size, out)?;
    out.push(b' ')?;
    Ok(())
}

/// Puts what stands behind that at the end: two values of the request, which are in quotes, the mark and the trouble.
fn push_behind(
    beside: &[u8],
    mark: &[u8],
    trouble: &[u8],
    out: &mut Vec<u8>,
) -> Result<(), AllocError>
    ensures { OnOk result (out.new.items ≡ out.old.items ++ behind_text beside.now mark.now trouble.now) }
{
    out.extend_from_slice(beside)?;
    out.push(b' ')?;
    push_quoted(mark, out)?;
    out.push(b' ')?;
    push_quoted(trouble, out)?;
    out.push(b' ')?;
    Ok(())
}

/// Puts a line at the end, but for how long it took: who asked, when and what, and what was replied.
fn push_front(
    client: &[u8],
    time: &[u8],
    asked: &Asked,
    replied: Replied<'_>,
    out: &mut Vec<u8>,
) -> Result<(), AllocError>
    ensures { OnOk result (out.new.items ≡ out.old.items ++ front_text client.now time.now asked.now replied.entry) }
{
    push_begin(client, time, asked.line.as_slice(), out)?;
    push_replied(replied.status, replied.size, out)?;
    push_behind(asked.beside.as_slice(), replied.mark, replied.trouble, out)
}

/// The room that a line gets at first.
const ROOM: usize = 320;

/// A line but for how long it took: who asked, when and what, and what was replied.
pub(crate) fn front_of(
    alloc: Global,
    client: &[u8],
    time: &[u8],
    asked: &Asked,
    replied: Replied<'_>,
) -> Result<Vec<u8>, AllocError>
    ensures text { IfOk result (λ front. front.items ≡ front_text client.now time.now asked.now replied.entry) }
    ensures quotes { IfOk result (λ front. HasQuotes 10 front.items) }
{
    let mut front = Vec::with_capacity(alloc, ROOM)?;
    push_front(client, time, asked, replied, &mut front)?;
    Ok(front)
}

/// Puts how long it took, in milliseconds, at the end, and the line's end.
pub(crate) fn push_end(milliseconds: u64, out: &mut Vec<u8>) -> Result<(), AllocError>
    ensures { OnOk result (out.new.items ≡ out.old.items ++ end_text milliseconds) }
{
    push_number(milliseconds, out)?;
    out.push(b'\n')?;
    Ok(())
}
