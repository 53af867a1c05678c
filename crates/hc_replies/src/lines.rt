//! The field lines of replies.

ghost use Rattle.std.specs.Prelude.{◌≡◌, ◌++◌, ◌∷◌, [], IfOk, OnOk, not};
ghost use Rattle.std.specs.List.{list_any};
ghost use Rattle.std.specs.Str.{bytes_eq};
ghost use Rattle.hc_fields.specs.Connection.{removed};
ghost use Rattle.hc_rules.specs.Conditions.{repeated_names};
ghost use Rattle.hc_status.specs.Marks.{cache_status};
ghost use Rattle.hc_replies.specs.Lines.{age_line, closing, has_member, kept_statuses, lines_behind, own_line, passed_back, repeated};

use hc_fields::{Field, Fields, Octets, is_among};
use hc_rules::REPEATED_NAMES;
use hc_status::{CacheStatus, SfFault, read_list, write_member};
use std::alloc::{AllocError, Global};
use std::io::Write;

/// The name of the field that tells how a request was handled.
const CACHE_STATUS: &[u8] = b"cache-status";

/// The lines that aren't removed on forwarding (RFC 9110 section 7.6.1).
pub(crate) fn passed_back(alloc: Global, received: &Fields) -> Result<Fields, AllocError>
    ensures { IfOk result (λ kept. kept ≡ passed_back received.now) }
{
    let mut kept = Fields::new(alloc);
    for line in received.lines() {
        if !received.removed(line.name.as_slice()) {
            kept.push(line.copy(alloc)?)?;
        }
    }
    Ok(kept)
}

fn is_repeated(name: &[u8]) -> bool
    ensures { result ≡ list_any (λ known. bytes_eq known name.now) repeated_names }
{
    is_among(&REPEATED_NAMES, name)
}

/// The lines that a 304 has to repeat (RFC 9110 section 15.4.5).
pub(crate) fn repeated(alloc: Global, fields: &Fields) -> Result<Fields, AllocError>
    ensures { IfOk result (λ kept. kept ≡ repeated fields.now) }
{
    let mut kept = Fields::new(alloc);
    for line in fields.lines() {
        if is_repeated(line.name.as_slice()) {
            kept.push(line.copy(alloc)?)?;
        }
    }
    Ok(kept)
}

/// Whether the lines of Cache-Status read as a list of at least one member.
fn has_member(alloc: Global, fields: &Fields) -> Result<bool, AllocError>
    ensures { IfOk result (λ has. has ≡ has_member (cache_status fields.now)) }
{
    match read_list(alloc, fields) {
        Ok(members) => Ok(!members.is_empty()),
        Err(SfFault::Memory) => Err(AllocError),
        Err(SfFault::Syntax | SfFault::InnerList) => Ok(false),
    }
}

/// The lines, those of Cache-Status only where they read as a list of at least one member, behind
/// which the cache can put its own (RFC 9211 section 2).
pub(crate) fn kept_statuses(alloc: Global, fields: Fields) -> Result<Fields, AllocError>
    ensures { IfOk result (λ kept. kept ≡ kept_statuses fields) }
{
    if has_member(alloc, &fields)? {
        return Ok(fields);
    }
    let mut fields = fields;
    fields.remove(CACHE_STATUS);
    Ok(fields)
}

/// Adds how old the response is, in seconds (RFC 9111 section 5.1).
pub(crate) fn push_age(lines: &mut Fields, age: u32) -> Result<(), AllocError>
    ensures { OnOk result (lines.new ≡ lines.old ++ age_line age ∷ []) }
{
    let alloc = lines.alloc();
    let mut value = Vec::new(alloc);
    write!(value, "{age}").map_err(|_| AllocError)?;
    lines.push(Field::new(alloc, b"age", value.as_slice())?)
}

/// Adds that the connection closes, where it does (RFC 9112 section 9.6).
pub(crate) fn push_closing(lines: &mut Fields, closes: bool) -> Result<(), AllocError>
    ensures { OnOk result (lines.new ≡ lines.old ++ closing closes) }
{
    if !closes {
        return Ok(());
    }
    let close = Field::new(lines.alloc(), b"connection", b"close")?;
    lines.push(close)
}

/// Adds how the cache handled the request (RFC 9211 section 2).
fn push_status(lines: &mut Fields, status: &CacheStatus) -> Result<(), AllocError>
    ensures { OnOk result (lines.new ≡ lines.old ++ own_line status.now.name status.now.handling ∷ []) }
{
    let alloc = lines.alloc();
    let member = write_member(alloc, status)?;
    lines.push(Field::new(alloc, CACHE_STATUS, member.as_slice())?)
}

/// Adds how the cache handled the request, and that the connection closes, where it does.
pub(crate) fn push_lines_behind(
    lines: &mut Fields,
    status: &CacheStatus,
    closes: bool,
) -> Result<(), AllocError>
    ensures { OnOk result (lines.new
        ≡ lines.old ++ lines_behind status.now.name status.now.handling closes) }
{
    push_status(lines, status)?;
    push_closing(lines, closes)
}
