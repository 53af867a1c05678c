ghost use Rattle.std.specs.Prelude.{◌≡◌, ◌==◌, ◌++◌, ◌≤◌, not, List, [], ◌∷◌, length, filter, IfOk, OnOk, OnErr};
ghost use Rattle.std.specs.Vec.{vec_len, vec_capacity};
ghost use Rattle.std.specs.Iterator.{YieldsFirstRef, item_count};
ghost use Rattle.hc_fields.specs.Values.{has_name, line, lines_of, without};

use crate::octets::Octets;
use crate::views::{FieldsView, Lines};
use std::alloc::{AllocError, Global};
use std::marker::Model;

/// A field line (RFC 9110 section 5): its name, in lower case, and its value without the white
/// space around it.
pub struct Field {
    /// In lower case.
    pub name: Octets,
    /// Without the white space around it.
    pub value: Octets,
}

impl Drop for Field {
    fn drop(self) {
        let Field { name, value } = self;
        drop(name);
        drop(value);
    }
}

impl Field {
    /// A line of that name, which is in lower case, and that value.
    pub fn new(alloc: Global, name: &[u8], value: &[u8]) -> Result<Field, AllocError>
        ensures { IfOk result (λ f. f ≡ line name.now value.now) }
    {
        Ok(Field {
            name: Octets::from_slice(alloc, name)?,
            value: Octets::from_slice(alloc, value)?,
        })
    }

    /// The same line in memory of its own.
    pub fn copy(&self, alloc: Global) -> Result<Field, AllocError>
        ensures { IfOk result (λ f. f ≡ self.now) }
    {
        Ok(Field {
            name: self.name.copy(alloc)?,
            value: self.value.copy(alloc)?,
        })
    }
}

/// Field lines in order, which contracts see as the list of them.
pub struct Fields {
    lines: Vec<Field>,
}

impl Drop for Fields {
    fn drop(self) {
        let Fields { lines } = self;
        drop(lines);
    }
}

impl Model for Fields {
    ghost use Rattle.std.specs.Prelude.{List};
    ghost use Rattle.hc_fields.specs.declared.fields.Field.{Field};

    ghost Value = { List Field };

    ghost view = { λ f. f.lines.items };
}

fn remove_from(lines: &mut Vec<Field>, name: &[u8])
    ensures { lines.new.items ≡ without name.now lines.old.items }
{
    lines.retain(|line| line.name.as_slice() != name)
}

fn keep_in(lines: &mut Vec<Field>, name: &[u8])
    ensures { lines.new.items ≡ lines_of name.now lines.old.items }
{
    lines.retain(|line| line.name.as_slice() == name)
}

/// Whether one of those lines has the name.
pub(crate) fn has_line(lines: &[Field], name: &[u8]) -> bool
    ensures { result ≡ has_name name.now lines.now }
{
    lines.iter().any(|line| line.name.as_slice() == name)
}

/// Removes the lines of the names that the others have.
fn remove_names_of(lines: &mut Vec<Field>, others: &Fields)
    ensures names { lines.new.items ≡ filter (λ f. not (has_name f.name others.now)) lines.old.items }
    ensures room { vec_capacity lines.new ≡ vec_capacity lines.old }
    ensures bound { vec_len lines.new ≤ vec_len lines.old }
{
    lines.retain(|line| !others.contains(line.name.as_slice()))
}

impl Fields {
    ghost use Rattle.std.specs.Prelude.{option_copied};
    ghost use Rattle.hc_fields.specs.Values.{values_of, has_name, joined_values, only_value, updated};

    /// No lines, which take no memory.
    pub fn new(alloc: Global) -> Self
        ensures { result ≡ [] }
    {
        Fields {
            lines: Vec::new(alloc),
        }
    }

    /// The allocator that the lines were made with.
    pub fn alloc(&self) -> Global {
        *self.lines.allocator()
    }

    /// The same lines in memory of their own.
    pub fn copy(&self, alloc: Global) -> Result<Fields, AllocError>
        ensures { IfOk result (λ f. f ≡ self.now) }
    {
        self.lent().copy(alloc)
    }

    /// The lines in order.
    pub fn lines(&self) -> &[Field]
        ensures { result.now ≡ self.now }
    {
        self.lines.as_slice()
    }

    /// How many lines there are.
    pub fn len(&self) -> usize
        ensures { result ≡ length self.now }
    {
        self.lines.len()
    }

    /// Whether there is no line.
    pub fn is_empty(&self) -> bool
        ensures { result ≡ (length self.now == 0) }
    {
        self.lines.is_empty()
    }

    /// Adds a line at the end.
    pub fn push(&mut self, field: Field) -> Result<(), AllocError>
        ensures ok { OnOk result (self.new ≡ self.old ++ field ∷ []) }
        ensures err { OnErr result (self.new ≡ self.old) }
    {
        self.lines.push(field)?;
        Ok(())
    }

    /// Removes the lines of that name.
    pub fn remove(&mut self, name: &[u8])
        ensures { self.new ≡ without name.now self.old }
    {
        remove_from(&mut self.lines, name)
    }

    /// Removes all lines but those of that name.
    pub fn keep(&mut self, name: &[u8])
        ensures { self.new ≡ lines_of name.now self.old }
    {
        keep_in(&mut self.lines, name)
    }

    /// Whether there is a line of that name.
    pub fn contains(&self, name: &[u8]) -> bool
        ensures { result ≡ has_name name.now self.now }
    {
        has_line(self.lines(), name)
    }

    /// The values of the lines of that name, in order. The name is one in lower case.
    pub fn values<'a>(&'a self, name: &'a [u8]) -> Values<'a>
        ensures { values_of result.name.now result.lines ≡ values_of name.now self.now }
    {
        self.lent().values(name)
    }

    /// The value of the line of that name, where there is exactly one. The name is one in lower
    /// case.
    pub fn only<'a>(&'a self, name: &'a [u8]) -> Option<&'a [u8]>
        ensures { option_copied result ≡ only_value name.now self.now }
    {
        self.lent().only(name)
    }

    /// Removes the lines whose names newer ones have, and puts those at the end (RFC 9111 section
    /// 3.2). Where memory was refused, nothing has changed.
    pub fn update(&mut self, newer: Fields) -> Result<(), AllocError>
        ensures ok { OnOk result (self.new ≡ updated self.old newer) }
        ensures err { OnErr result (self.new ≡ self.old) }
    {
        let mut newer = newer;
        self.lines.reserve(newer.lines.len())?;
        remove_names_of(&mut self.lines, &newer);
        self.lines.append(&mut newer.lines)
    }

    /// The values of the lines of that name as one (RFC 9110 section 5.3), or `None` where there is
    /// no such line. The name is one in lower case.
    pub fn joined(&self, alloc: Global, name: &[u8]) -> Result<Option<Octets>, AllocError>
        ensures { IfOk result (λ o. o ≡ joined_values (values_of name.now self.now)) }
    {
        self.lent().joined(alloc, name)
    }
}

/// An iterator over the values of a name.
#[derive(Drop)]
pub struct Values<'a> {
    pub(crate) name: &'a [u8],
    pub(crate) lines: FieldsView<'a>,
}

impl<'a> Iterator for Values<'a> {
    ghost use Rattle.hc_fields.specs.Values.{values_of};

    type Item = &'a [u8];

    ghost next_gives = { YieldsFirstRef (λ s. values_of s.name.now s.lines) };

    ghost remaining = { item_count (λ s. values_of s.name.now s.lines) };

    fn next(&mut self) -> Option<&'a [u8]> {
        self.lines.pass_to(self.name)
    }
}
