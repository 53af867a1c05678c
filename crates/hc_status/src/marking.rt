//! The list of Cache-Status, and what it says of a reply.

ghost use Rattle.std.specs.Prelude.{◌≡◌, IfOk, IfErr, Ok, Some, None, is_some, codes, option_copied, ℤ, Option};
ghost use Rattle.std.specs.List.{last_or};
ghost use Rattle.hc_status.specs.Faults.{Fails};
ghost use Rattle.hc_status.specs.Marks.{cache_status, is_true, mark_by, mark_of, mark_of_last, mark_of_member, names_cache, seconds_of};

use crate::fault::{MarkFault, SfFault};
use crate::items::{Bare, Member};
use crate::marks::Mark;
use crate::members::list;
use hc_fields::{FieldsView, Lines};
use std::alloc::Global;

/// The name of the field.
const CACHE_STATUS: &[u8] = b"cache-status";

/// The members of Cache-Status, of all its lines joined by comma and space; no line is the empty list
/// (RFC 9211 section 2). A fault drops the whole field (RFC 8941 section 4.2).
pub fn read_list<L: Lines>(alloc: Global, fields: &L) -> Result<Vec<Member>, SfFault>
    ensures ok { IfOk result (λ members. cache_status (L.lines fields.now) ≡ Ok members.items) }
    ensures err { IfErr result (λ fault. Fails fault (cache_status (L.lines fields.now))) }
{
    list_in(alloc, &fields.lent())
}

/// The members, where a line that stands alone isn't copied.
fn list_in(alloc: Global, fields: &FieldsView<'_>) -> Result<Vec<Member>, SfFault>
    ensures ok { IfOk result (λ members. cache_status fields.now ≡ Ok members.items) }
    ensures err { IfErr result (λ fault. Fails fault (cache_status fields.now)) }
{
    if let Some(alone) = fields.only(CACHE_STATUS) {
        return list(alloc, alone);
    }
    match fields.joined(alloc, CACHE_STATUS)? {
        None => Ok(Vec::new(alloc)),
        Some(text) => list(alloc, text.as_slice()),
    }
}

fn names_cache(item: &Bare) -> bool
    ensures { result ≡ names_cache item.now }
{
    match item {
        Bare::Str(_) | Bare::Token(_) => true,
        Bare::Integer(_) | Bare::Decimal(_) | Bare::Bytes(_) | Bare::Bool(_) => false,
    }
}

fn is_true(value: Option<&Bare>) -> bool
    ensures { result ≡ is_true (option_copied value.entry) }
{
    matches!(value, Some(Bare::Bool(true)))
}

fn seconds_of(value: Option<&Bare>) -> Option<i64>
    ensures { result ≡ seconds_of (option_copied value.entry) }
{
    match value {
        Some(Bare::Integer(seconds)) => Some(*seconds),
        _ => None,
    }
}

fn mark_by(hit: bool, forwarded: bool, ttl: Option<i64>, collapsed: bool) -> Mark
    ensures { result ≡ mark_by hit forwarded ttl collapsed }
{
    match (hit, forwarded) {
        (true, true) => Mark::Both,
        (true, false) => Mark::Hit { ttl },
        (false, true) => Mark::Forwarded { collapsed },
        (false, false) => Mark::Unmarked,
    }
}

fn mark_of_member(member: &Member) -> Mark
    ensures { result ≡ mark_of_member member.now }
{
    if !names_cache(&member.item) {
        return Mark::Unmarked;
    }
    let hit = is_true(member.params.get(b"hit"));
    let forwarded = member.params.get(b"fwd").is_some();
    let ttl = seconds_of(member.params.get(b"ttl"));
    let collapsed = is_true(member.params.get(b"collapsed"));
    mark_by(hit, forwarded, ttl, collapsed)
}

fn mark_of_last(members: &[Member]) -> Mark
    ensures { result ≡ mark_of_last (last_or None members.now) }
{
    match members.last() {
        None => Mark::Unmarked,
        Some(last) => mark_of_member(last),
    }
}

/// What Cache-Status says of a reply with these fields. A list that can't be read says nothing.
pub fn mark<L: Lines>(alloc: Global, fields: &L) -> Result<Mark, MarkFault>
    ensures { IfOk result (λ mark. mark ≡ mark_of (L.lines fields.now)) }
{
    mark_in(alloc, &fields.lent())
}

fn mark_in(alloc: Global, fields: &FieldsView<'_>) -> Result<Mark, MarkFault>
    ensures { IfOk result (λ mark. mark ≡ mark_of fields.now) }
{
    match list_in(alloc, fields) {
        Ok(members) => Ok(mark_of_last(members.as_slice())),
        Err(SfFault::Memory) => Err(MarkFault::Memory),
        Err(SfFault::Syntax | SfFault::InnerList) => Ok(Mark::Unmarked),
    }
}
