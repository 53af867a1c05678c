//! The members of all lines of a name.

ghost use Rattle.std.specs.Prelude.{◌≡◌, ◌++◌, ℕ, List, IsTrue};
ghost use Rattle.std.specs.Iterator.{YieldsFirstRef, item_count};
ghost use Rattle.std.specs.List.{list_all};
ghost use Rattle.hc_fields.specs.declared.fields.Field.{Field};
ghost use Rattle.hc_fields.specs.Values.{values_of, joined_values};
ghost use Rattle.hc_fields.specs.Lists.{list_members, members_of, closes_quotes};

use crate::fields::{Fields, Values};
use crate::lists::{ListMembers, list_members};
use crate::views::{FieldsView, Lines};
use std::marker::Model;

/// An iterator over the members of the lists in all lines of a name, which contracts see as the
/// list of those that are left.
#[derive(Drop)]
pub struct Members<'a> {
    line: ListMembers<'a>,
    values: Values<'a>,
}

impl<'a> Model for Members<'a> {
    ghost Value = { List (List ℕ) };

    ghost view = { λ m. m.line ++ members_of m.values.name.now m.values.lines };
}

impl<'a> Iterator for Members<'a> {
    type Item = &'a [u8];

    ghost next_gives = { YieldsFirstRef (λ members. members) };

    ghost remaining = { item_count (λ members. members) };

    fn next(&mut self) -> Option<&'a [u8]> {
        loop {
            if let Some(member) = self.line.next() {
                return Some(member);
            }
            self.line = list_members(self.values.next()?);
        }
    }
}

impl<'a> FieldsView<'a> {
    /// The members of the lists in the lines of that name, in order. Each line is a list of its
    /// own: a quoted string that isn't closed doesn't reach into the next. The name is one in
    /// lower case.
    pub fn members(&self, name: &'a [u8]) -> Members<'a>
        ensures { result ≡ members_of name.now self.now }
    {
        Members {
            line: list_members(b""),
            values: self.values(name),
        }
    }
}

impl Fields {
    /// The members of the lists in the lines of that name, in order, as of lines that are lent.
    pub fn members<'a>(&'a self, name: &'a [u8]) -> Members<'a>
        ensures { result ≡ members_of name.now self.now }
    {
        self.lent().members(name)
    }
}

/// Where each line of a name closes its quoted strings, the members of the lines are those of their
/// values joined (RFC 9110 section 5.3).
pub fn joined_lines_have_the_members()
    ensures { (name : List ℕ) (fields : List Field) (value : List ℕ)
        → IsTrue (list_all closes_quotes (values_of name fields))
        → joined_values (values_of name fields) ≡ Some value
        → list_members value ≡ members_of name fields }
{}
