//! The members of lists in the values of fields (RFC 9110 section 5.6.1).

ghost use Rattle.std.specs.Prelude.{◌≡◌, ℕ, List, [], ◌∷◌, ◌≤◌, ◌+◌, MatchOption, length, take, drop};
ghost use Rattle.std.specs.Iterator.{YieldsFirstRef, item_count};
ghost use Rattle.hc_fields.specs.Lists.{is_blank, without_leading_blanks, without_trailing_blanks, trimmed, piece_len, list_members};
ghost use Rattle.hc_fields.specs.declared.lists.Quoting.TheVariants.{Outside};

use std::marker::Model;

/// Where an octet of a list stands.
#[derive(Clone, Copy, PartialEq, Eq)]
enum Quoting {
    /// Outside quoted strings.
    Outside,
    /// Inside a quoted string.
    Inside,
    /// Behind a backslash inside a quoted string.
    Escaped,
}

impl Quoting {
    ghost use Rattle.hc_fields.specs.Lists.{quoting_behind, ends_piece};

    /// Where the octet behind this one stands.
    fn behind(self, octet: u8) -> Quoting
        ensures { result ≡ quoting_behind self octet }
    {
        match self {
            Quoting::Outside if octet == b'"' => Quoting::Inside,
            Quoting::Outside => Quoting::Outside,
            Quoting::Inside if octet == b'"' => Quoting::Outside,
            Quoting::Inside if octet == b'\\' => Quoting::Escaped,
            Quoting::Inside | Quoting::Escaped => Quoting::Inside,
        }
    }

    /// Whether the octet ends a piece of the list.
    fn ends_piece(self, octet: u8) -> bool
        ensures { result ≡ ends_piece self octet }
    {
        matches!(self, Quoting::Outside) && octet == b','
    }
}

fn is_blank(octet: u8) -> bool
    ensures { result ≡ is_blank octet }
{
    octet == b' ' || octet == b'\t'
}

fn without_leading_blanks(mut text: &[u8]) -> &[u8]
    ensures { result.now ≡ without_leading_blanks text.entry.now }
{
    while let Some((first, rest)) = text.split_first() {
        if !is_blank(*first) {
            break;
        }
        text = rest;
    }
    text
}

fn without_trailing_blanks(mut text: &[u8]) -> &[u8]
    ensures { result.now ≡ without_trailing_blanks text.entry.now }
{
    while let Some((last, front)) = text.split_last() {
        if !is_blank(*last) {
            break;
        }
        text = front;
    }
    text
}

/// The text without the spaces and tabs around it (RFC 9110 section 5.6.3).
pub fn trimmed(text: &[u8]) -> &[u8]
    ensures { result.now ≡ trimmed text.now }
{
    without_trailing_blanks(without_leading_blanks(text))
}

/// How many octets stand before the first comma outside quoted strings.
fn piece_len(value: &[u8]) -> usize
    ensures is { result ≡ piece_len Outside value.now }
    ensures within { result ≤ length value.now }
{
    let mut quoting = Quoting::Outside;
    for (index, octet) in value.iter().enumerate() {
        if quoting.ends_piece(*octet) {
            return index;
        }
        quoting = quoting.behind(*octet);
    }
    value.len()
}

/// The octets before that comma, and those behind it.
fn split_first_piece(value: &[u8]) -> (&[u8], &[u8])
    ensures piece { result.0.now ≡ take (piece_len Outside value.now) value.now }
    ensures rest { result.1.now ≡ drop (piece_len Outside value.now + 1) value.now }
{
    let (piece, rest) = value.split_at(piece_len(value));
    match rest.split_first() {
        Some((_, behind)) => (piece, behind),
        None => (piece, rest),
    }
}

/// The first member, and the octets behind it.
fn split_first_member(mut value: &[u8]) -> Option<(&[u8], &[u8])>
    ensures { MatchOption result (list_members value.entry.now ≡ [])
        (λ p. list_members value.entry.now ≡ p.0.now ∷ list_members p.1.now) }
{
    while !value.is_empty() {
        let (piece, rest) = split_first_piece(value);
        let member = trimmed(piece);
        if !member.is_empty() {
            return Some((member, rest));
        }
        value = rest;
    }
    None
}

/// An iterator over the members of a list, which contracts see as the list of those that are left.
#[derive(Drop)]
pub struct ListMembers<'a> {
    rest: &'a [u8],
}

impl<'a> Model for ListMembers<'a> {
    ghost Value = { List (List ℕ) };

    ghost view = { λ m. list_members m.rest.now };
}

impl<'a> Iterator for ListMembers<'a> {
    type Item = &'a [u8];

    ghost next_gives = { YieldsFirstRef (λ members. members) };

    ghost remaining = { item_count (λ members. members) };

    fn next(&mut self) -> Option<&'a [u8]> {
        let (member, rest) = split_first_member(self.rest)?;
        self.rest = rest;
        Some(member)
    }
}

/// The members of a list (RFC 9110 section 5.6.1), in order: what stands between the commas outside
/// quoted strings, without the spaces and tabs around it. Empty members are passed over, and a
/// quoted string that isn't closed reaches to the end.
pub fn list_members(value: &[u8]) -> ListMembers<'_>
    ensures { result ≡ list_members value.now }
{
    ListMembers { rest: value }
}
