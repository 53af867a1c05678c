//! Field lines that are lent in one form, whoever keeps them.

ghost use Rattle.std.specs.Prelude.{◌≡◌, ◌==◌, ◌++◌, ℕ, List, [], ◌∷◌, IfOk, MatchOption, map, option_copied};
ghost use Rattle.hc_fields.specs.declared.fields.Field.{Field};
ghost use Rattle.hc_fields.specs.Values.{has_name, joined_values, line, only_value, values_of};
ghost use Rattle.hc_fields.specs.Views.{line_at, piece};

use crate::fields::{Field, Fields, Values, has_line};
use crate::octets::Octets;
use std::alloc::{AllocError, Global};
use std::marker::Model;

/// Where the value of a field line stands in the octets of its head, and where its name stands among the names, which are
/// in lower case.
#[derive(Clone, Copy)]
pub struct LineSpan {
    /// Where the name begins, and how many octets it has.
    pub name_start: usize,
    pub name_len: usize,
    /// Where the value begins, without the white space around it, and how many octets it has.
    pub value_start: usize,
    pub value_len: usize,
}

/// Field lines that are lent, which contracts see as the list of them: first those that somebody owns, and then those that
/// lie in octets. One of the two is empty.
#[derive(Drop)]
pub struct FieldsView<'a> {
    owned: &'a [Field],
    names: &'a [u8],
    octets: &'a [u8],
    spans: &'a [LineSpan],
}

impl<'a> Model for FieldsView<'a> {
    ghost use Rattle.std.specs.Prelude.{List, map, ◌++◌};
    ghost use Rattle.hc_fields.specs.declared.fields.Field.{Field};
    ghost use Rattle.hc_fields.specs.Views.{line_at};

    ghost Value = { List Field };

    ghost view = { λ v. v.owned.now ++ map (line_at v.names.now v.octets.now) v.spans.now };
}

/// So many octets from a place on, or those of them that are there.
pub fn piece(octets: &[u8], start: usize, len: usize) -> &[u8]
    ensures { result.now ≡ piece octets.now start len }
{
    let (_, behind) = octets.split_at(start.min(octets.len()));
    let (piece, _) = behind.split_at(len.min(behind.len()));
    piece
}

/// The value of the first of those lines that has the name, and the lines behind it.
fn first_owned<'a>(mut lines: &'a [Field], name: &[u8]) -> Option<(&'a [u8], &'a [Field])>
    ensures { MatchOption result (values_of name.now lines.entry.now ≡ [])
        (λ p. values_of name.now lines.entry.now ≡ p.0.now ∷ values_of name.now p.1.now) }
{
    while let Some((first, behind)) = lines.split_first() {
        if first.name.as_slice() == name {
            return Some((first.value.as_slice(), behind));
        }
        lines = behind;
    }
    None
}

/// The first of those spans whose line has the name, and the spans behind it.
fn first_lent<'a>(
    mut spans: &'a [LineSpan],
    names: &[u8],
    name: &[u8],
) -> Option<(LineSpan, &'a [LineSpan])>
    ensures { (octets : List ℕ) → MatchOption result (values_of name.now (map (line_at names.now octets) spans.entry.now) ≡ [])
        (λ p. values_of name.now (map (line_at names.now octets) spans.entry.now)
        ≡ piece octets p.0.value_start p.0.value_len ∷ values_of name.now (map (line_at names.now octets) p.1.now)) }
{
    while let Some((span, behind)) = spans.split_first() {
        if piece(names, span.name_start, span.name_len) == name {
            return Some((*span, behind));
        }
        spans = behind;
    }
    None
}

impl<'a> FieldsView<'a> {
    ghost use Rattle.std.specs.Prelude.{None};
    ghost use Rattle.hc_fields.specs.Views.{line_at};

    /// Lines that lie in octets.
    pub fn at(names: &'a [u8], octets: &'a [u8], spans: &'a [LineSpan]) -> Self
        ensures { result ≡ map (line_at names.now octets.now) spans.now }
    {
        FieldsView {
            owned: &[],
            names,
            octets,
            spans,
        }
    }

    /// Lines that somebody owns.
    pub fn of(owned: &'a [Field]) -> Self
        ensures { result ≡ owned.now }
    {
        FieldsView {
            owned,
            names: &[],
            octets: &[],
            spans: &[],
        }
    }

    /// The same lines, lent once more.
    pub fn again(&self) -> FieldsView<'a>
        ensures { result ≡ self.now }
    {
        FieldsView {
            owned: self.owned,
            names: self.names,
            octets: self.octets,
            spans: self.spans,
        }
    }

    /// The name and the value of the first line, which is passed over.
    pub fn pass(&mut self) -> Option<(&'a [u8], &'a [u8])>
        ensures { MatchOption result ((self.old ≡ []) × (self.new ≡ []))
            (λ p. self.old ≡ line p.0.now p.1.now ∷ self.new) }
    {
        let names = self.names;
        let octets = self.octets;
        if let Some((first, rest)) = self.owned.split_first() {
            self.owned = rest;
            return Some((first.name.as_slice(), first.value.as_slice()));
        }
        let (span, behind) = self.spans.split_first()?;
        self.spans = behind;
        let name = piece(names, span.name_start, span.name_len);
        let value = piece(octets, span.value_start, span.value_len);
        Some((name, value))
    }

    /// The value of the first line of that name: it is passed over, and those before it are, or all where none has
    /// the name. No octet of another value is looked at. The name is one in lower case.
    #[tactic(auto, using(crate::proofs::UpdateLemmas::values_append))]
    pub fn pass_to(&mut self, name: &[u8]) -> Option<&'a [u8]>
        ensures { MatchOption result ((values_of name.now self.old ≡ []) × (self.new ≡ []))
            (λ v. values_of name.now self.old ≡ v.now ∷ values_of name.now self.new) }
    {
        let octets = self.octets;
        if let Some((value, behind)) = first_owned(self.owned, name) {
            self.owned = behind;
            return Some(value);
        }
        self.owned = &[];
        let Some((span, behind)) = first_lent(self.spans, self.names, name) else {
            self.spans = &[];
            return None;
        };
        self.spans = behind;
        Some(piece(octets, span.value_start, span.value_len))
    }

    /// Whether there is a line of that name.
    #[tactic(auto, using(crate::proofs::ValueLemmas::has_name_append, crate::proofs::ValueLemmas::no_value, crate::proofs::ValueLemmas::some_value))]
    pub fn contains(&self, name: &[u8]) -> bool
        ensures { result ≡ has_name name.now self.now }
    {
        has_line(self.owned, name) || first_lent(self.spans, self.names, name).is_some()
    }

    /// The values of the lines of that name, in order. The name is one in lower case.
    pub fn values(&self, name: &'a [u8]) -> Values<'a>
        ensures { values_of result.name.now result.lines ≡ values_of name.now self.now }
    {
        Values {
            name,
            lines: self.again(),
        }
    }

    /// The value of the line of that name, where there is exactly one. The name is one in lower
    /// case.
    #[tactic(auto, using(crate::proofs::ValueLemmas::one_value, crate::proofs::ValueLemmas::several_values))]
    pub fn only(&self, name: &'a [u8]) -> Option<&'a [u8]>
        ensures { option_copied result ≡ only_value name.now self.now }
    {
        let mut rest = self.again();
        let value = rest.pass_to(name)?;
        if rest.contains(name) {
            return None;
        }
        Some(value)
    }

    /// The values of the lines of that name as one (RFC 9110 section 5.3), or `None` where there is
    /// no such line. The name is one in lower case.
    pub fn joined(&self, alloc: Global, name: &[u8]) -> Result<Option<Octets>, AllocError>
        ensures { IfOk result (λ o. o ≡ joined_values (values_of name.now self.now)) }
    {
        let mut values = self.values(name);
        let Some(first) = values.next() else {
            return Ok(None);
        };
        let mut joined = Octets::from_slice(alloc, first)?;
        for value in values {
            joined.extend_from_slice(b", ")?;
            joined.extend_from_slice(value)?;
        }
        Ok(Some(joined))
    }

    /// The same lines in memory of their own.
    pub fn copy(&self, alloc: Global) -> Result<Fields, AllocError>
        ensures { IfOk result (λ f. f ≡ self.now) }
    {
        let mut copies = Fields::new(alloc);
        let mut rest = self.again();
        while let Some((name, value)) = rest.pass() {
            copies.push(Field::new(alloc, name, value)?)?;
        }
        Ok(copies)
    }
}

/// Whoever has field lines.
pub trait Lines {
    /// The lines, with their names in lower case.
    ghost lines: { Self → List Field };

    /// The lines, lent.
    fn lent(&self) -> FieldsView<'_>
        ensures { result ≡ lines self.now };
}

impl<'a> Lines for FieldsView<'a> {
    ghost lines = { λ v. v };

    fn lent(&self) -> FieldsView<'_> {
        self.again()
    }
}

impl Lines for Fields {
    ghost lines = { λ f. f };

    fn lent(&self) -> FieldsView<'_> {
        FieldsView::of(self.lines())
    }
}
