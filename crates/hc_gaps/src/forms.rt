//! Values that mean the same though they are written in other ways, and fields that a directive names.

ghost use Rattle.std.specs.Prelude.{◌≡◌, ◌||◌, ◌++◌, [], IfOk, OnOk, codes, map, option_copied, if◌then◌else◌};
ghost use Rattle.std.specs.List.{list_any};
ghost use Rattle.std.specs.Str.{str_eq_ignore_ascii_case};
ghost use Rattle.hc_fields.specs.Lists.{is_blank, list_members, members_of};
ghost use Rattle.hc_gaps.specs.Forms.{argument_in, behind_directive, has_any_case, has_argument, is_bare, is_preference, is_said_of, is_separator, is_space, leaves_out, means_the_same, names_common, need_not_be_stored, place_behind, same_lines, same_meaning, same_members, separates, tight_form, tight_lines, unquoted};

use hc_fields::{Fields, FieldsView, is_among, list_members};
use std::alloc::{AllocError, Global};

/// The fields that are lists without an order, in which letters may be of either case (RFC 9110 section 12.5).
const PREFERENCES: [&[u8]; 4] = [
    b"accept",
    b"accept-charset",
    b"accept-encoding",
    b"accept-language",
];

fn is_blank(octet: u8) -> bool
    ensures { result ≡ is_blank octet }
{
    octet == b' ' || octet == b'\t'
}

fn is_separator(octet: u8) -> bool
    ensures { result ≡ is_separator octet }
{
    octet == b',' || octet == b';'
}

// Where an octet of a value stands.
#[derive(Clone, Copy)]
enum Place {
    Plain,
    Quoted,
    Escaped,
}

impl Place {
    // Where the octet behind that one stands.
    fn behind(self, octet: u8) -> Place
        ensures { result ≡ place_behind self octet }
    {
        match self {
            Place::Plain if octet == b'"' => Place::Quoted,
            Place::Plain => Place::Plain,
            Place::Quoted if octet == b'"' => Place::Plain,
            Place::Quoted if octet == b'\\' => Place::Escaped,
            Place::Quoted | Place::Escaped => Place::Quoted,
        }
    }

    // Whether that octet is a blank outside of quoted strings.
    fn is_space(self, octet: u8) -> bool
        ensures { result ≡ is_space self octet }
    {
        matches!(self, Place::Plain) && is_blank(octet)
    }

    // Whether it is a comma or a semicolon there.
    fn separates(self, octet: u8) -> bool
        ensures { result ≡ separates self octet }
    {
        matches!(self, Place::Plain) && is_separator(octet)
    }
}

// Those blanks, or none of them where a separator stands before them or behind them.
fn kept(blanks: &[u8], is_before: bool, is_behind: bool) -> &[u8]
    ensures { result.now ≡ (if is_before || is_behind then [] else blanks.now) }
{
    if is_before || is_behind { b"" } else { blanks }
}

// Puts those octets at the end, without the blanks beside commas and semicolons, but for those in quoted strings.
fn tighten(octets: &[u8], tight: &mut Vec<u8>) -> Result<(), AllocError>
    ensures { OnOk result (tight.new.items ≡ tight.old.items ++ tight_form octets.now) }
{
    let mut behind = 0;
    let mut is_separated = true;
    let mut place = Place::Plain;
    for (index, octet) in octets.iter().enumerate() {
        if place.is_space(*octet) {
            continue;
        }
        let is_separator = place.separates(*octet);
        tight.extend_from_slice(kept(&octets[behind..index], is_separated, is_separator))?;
        tight.push(*octet)?;
        behind = index + 1;
        is_separated = is_separator;
        place = place.behind(*octet);
    }
    Ok(())
}

// A value in that form.
fn tight_form(alloc: Global, octets: &[u8]) -> Result<Vec<u8>, AllocError>
    ensures { IfOk result (λ tight. tight.items ≡ tight_form octets.now) }
{
    let mut tight = Vec::new(alloc);
    tighten(octets, &mut tight)?;
    Ok(tight)
}

// What those fields have of a name in lower case in that form; nothing where they have none.
fn tight_lines(alloc: Global, name: &[u8], fields: &FieldsView<'_>) -> Result<Vec<u8>, AllocError>
    ensures { IfOk result (λ tight. tight.items ≡ tight_lines name.now fields.now) }
{
    match fields.joined(alloc, name)? {
        Some(value) => tight_form(alloc, value.as_slice()),
        None => Ok(Vec::new(alloc)),
    }
}

// The things of a list, in order.
fn members_in<'a>(alloc: Global, list: &'a [u8]) -> Result<Vec<&'a [u8]>, AllocError>
    ensures { IfOk result (λ found. map (λ member. member.now) found.items ≡ list_members list.now) }
{
    let mut members = Vec::new(alloc);
    for member in list_members(list) {
        members.push(member)?;
    }
    Ok(members)
}

// Whether the same things stand in both lists, each equally often.
fn same_members(alloc: Global, one: &[u8], other: &[u8]) -> Result<bool, AllocError>
    ensures { IfOk result (λ same. same ≡ same_members (list_members one.now) (list_members other.now)) }
{
    let mut one = members_in(alloc, one)?;
    let mut other = members_in(alloc, other)?;
    one.sort_unstable();
    other.sort_unstable();
    Ok(one.as_slice() == other.as_slice())
}

// Whether both values mean the same, of which the blanks that mean nothing are left out: as lists of preferences, or octet by octet.
fn same_meaning(
    alloc: Global,
    is_preference: bool,
    one: &[u8],
    other: &[u8],
) -> Result<bool, AllocError>
    ensures { IfOk result (λ same. same ≡ same_meaning is_preference one.now other.now) }
{
    if !is_preference {
        return Ok(one == other);
    }
    let one = one.to_ascii_lowercase(alloc)?;
    let other = other.to_ascii_lowercase(alloc)?;
    same_members(alloc, one.as_slice(), other.as_slice())
}

// Whether Vary selects by a list of preferences of that name.
fn is_preference(is_selector: bool, name: &[u8]) -> bool
    ensures { result ≡ is_preference is_selector name.now }
{
    is_selector && is_among(&PREFERENCES, name)
}

// The same of a name in lower case.
fn same_lines(
    alloc: Global,
    name: &[u8],
    one: &FieldsView<'_>,
    other: &FieldsView<'_>,
    is_selector: bool,
) -> Result<bool, AllocError>
    ensures { IfOk result (λ same. same ≡ same_lines name.now one.now other.now is_selector) }
{
    if !one.contains(name) {
        return Ok(false);
    }
    if !other.contains(name) {
        return Ok(false);
    }
    let one = tight_lines(alloc, name, one)?;
    let other = tight_lines(alloc, name, other)?;
    let is_preference = is_preference(is_selector, name);
    same_meaning(alloc, is_preference, one.as_slice(), other.as_slice())
}

/// Whether both have the field, and mean the same by it though it may be written in other ways: with blanks beside commas and
/// semicolons, or in several lines (RFC 9110 sections 5.3 and 5.6.1). Where Vary selects by it, the order and the case of letters
/// mean nothing either in a list of preferences (RFC 9111 section 4.1, RFC 9110 section 12.5).
#[tactic(auto, unfolding(crate::specs::Forms::means_the_same))]
pub fn means_the_same(
    alloc: Global,
    name: &[u8],
    one: &FieldsView<'_>,
    other: &FieldsView<'_>,
    is_selector: bool,
) -> Result<bool, AllocError>
    ensures { IfOk result (λ same. same ≡ means_the_same name.now one.now other.now is_selector) }
{
    let name = name.to_ascii_lowercase(alloc)?;
    same_lines(alloc, name.as_slice(), one, other, is_selector)
}

// Whether both are the same, be letters of either case.
fn is_same(one: &[u8], other: &[u8]) -> bool
    ensures { result ≡ str_eq_ignore_ascii_case one.now other.now }
{
    one.eq_ignore_ascii_case(other)
}

// Whether a field of that name, in any case, is among those.
fn has_any_case(name: &[u8], fields: &FieldsView<'_>) -> bool
    ensures { result ≡ has_any_case name.now fields.now }
{
    let mut rest = fields.again();
    while let Some((one, _)) = rest.pass() {
        if is_same(one, name) {
            return true;
        }
    }
    false
}

// An argument without the quotes about it.
fn unquoted(argument: &[u8]) -> &[u8]
    ensures { result.now ≡ unquoted argument.now }
{
    match argument {
        [b'"', inner @ .., b'"'] => inner,
        _ => argument,
    }
}

// What stands in a member behind that directive; none where it begins otherwise.
fn behind_directive<'a>(directive: &[u8], member: &'a [u8]) -> Option<&'a [u8]>
    ensures { option_copied result ≡ behind_directive directive.now member.now }
{
    let (name, rest) = member.split_at_checked(directive.len())?;
    if is_same(name, directive) {
        Some(rest)
    } else {
        None
    }
}

// The argument of that directive in a member, if it has one there.
fn argument_in<'a>(directive: &[u8], member: &'a [u8]) -> Option<&'a [u8]>
    ensures { option_copied result ≡ argument_in (behind_directive directive.now member.now) }
{
    match behind_directive(directive, member)?.split_first()? {
        (b'=', argument) => Some(argument),
        _ => None,
    }
}

// Whether a member is that directive, said of the field of that name in lower case.
fn is_said_of(name: &[u8], directive: &[u8], member: &[u8]) -> bool
    ensures { result ≡ is_said_of name.now directive.now member.now }
{
    let Some(argument) = argument_in(directive, member) else {
        return false;
    };
    for named in list_members(unquoted(argument)) {
        if is_same(named, name) {
            return true;
        }
    }
    false
}

/// Whether those of a response say `no-cache` or `private` of the field of that name in lower case, so that a cache need not store
/// it (RFC 9111 section 3.1).
#[tactic(auto, unfolding(crate::specs::Forms::need_not_be_stored))]
pub fn need_not_be_stored(name: &[u8], response: &Fields) -> bool
    ensures { result ≡ need_not_be_stored name.now response.now }
{
    for member in response.members(b"cache-control") {
        if is_said_of(name, b"no-cache", member) || is_said_of(name, b"private", member) {
            return true;
        }
    }
    false
}

// Whether a member is that directive without an argument.
fn is_bare(directive: &[u8], member: &[u8]) -> bool
    ensures { result ≡ is_bare directive.now member.now }
{
    match behind_directive(directive, member) {
        Some(behind) => behind.is_empty(),
        None => false,
    }
}

// Whether a member says that directive of a field that both have.
fn names_common(
    directive: &[u8],
    response: &FieldsView<'_>,
    reply: &FieldsView<'_>,
    member: &[u8],
) -> bool
    ensures { result ≡ names_common directive.now response.now reply.now member.now }
{
    let Some(argument) = argument_in(directive, member) else {
        return false;
    };
    for named in list_members(unquoted(argument)) {
        if has_any_case(named, response) && has_any_case(named, reply) {
            return true;
        }
    }
    false
}

// Whether a member is that directive with an argument.
fn has_argument(directive: &[u8], member: &[u8]) -> bool
    ensures { result ≡ has_argument directive.now member.now }
{
    argument_in(directive, member).is_some()
}

// Whether those of a response say that directive of some fields.
fn is_said(directive: &[u8], response: &FieldsView<'_>) -> bool
    ensures { result ≡ list_any (has_argument directive.now) (members_of (codes "cache-control") response.now) }
{
    for member in response.members(b"cache-control") {
        if has_argument(directive, member) {
            return true;
        }
    }
    false
}

/// Whether those of a response say that directive of some fields alone, of which the reply to which these belong has none that
/// the response has (RFC 9111 sections 5.2.2.4 and 5.2.2.7).
#[tactic(auto, unfolding(crate::specs::Forms::leaves_out))]
pub fn leaves_out(directive: &[u8], response: &FieldsView<'_>, reply: &FieldsView<'_>) -> bool
    ensures { result ≡ leaves_out directive.now response.now reply.now }
{
    if !is_said(directive, response) {
        return false;
    }
    for member in response.members(b"cache-control") {
        if is_bare(directive, member) || names_common(directive, response, reply, member) {
            return false;
        }
    }
    true
}
