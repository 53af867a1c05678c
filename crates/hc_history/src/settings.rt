//! What an audit is asked to let pass.

ghost use Rattle.std.specs.Prelude.{◌≡◌, ◌++◌, List, ℕ, [], ◌∷◌, map, IfOk, OnOk, OnErr};
ghost use Rattle.std.specs.List.{list_any};
ghost use Rattle.std.specs.Str.{bytes_eq};

use crate::allowed::Allowed;
use hc_fields::Octets;
use std::alloc::{AllocError, Global};
use std::marker::Model;

/// Names of fields, in lower case, which contracts see as the list of them.
pub struct FieldNames {
    names: Vec<Octets>,
}

impl Drop for FieldNames {
    fn drop(self) {
        let FieldNames { names } = self;
        drop(names);
    }
}

impl Model for FieldNames {
    ghost Value = { List (List ℕ) };

    ghost view = { λ n. n.names.items };
}

impl FieldNames {
    /// No names, which take no memory.
    pub fn new(alloc: Global) -> Self
        ensures { result ≡ [] }
    {
        FieldNames {
            names: Vec::new(alloc),
        }
    }

    /// Adds a name, which is one in lower case.
    pub fn push(&mut self, name: Octets) -> Result<(), AllocError>
        ensures ok { OnOk result (self.new ≡ self.old ++ name ∷ []) }
        ensures err { OnErr result (self.new ≡ self.old) }
    {
        self.names.push(name)?;
        Ok(())
    }

    /// The names, in the order in which they were added.
    pub fn names(&self) -> &[Octets]
        ensures { result.now ≡ self.now }
    {
        self.names.as_slice()
    }

    /// The same names in memory of their own.
    pub fn copy(&self, alloc: Global) -> Result<Self, AllocError>
        ensures { IfOk result (λ names. names ≡ self.now) }
    {
        let mut copies = FieldNames::new(alloc);
        for name in self.names() {
            copies.push(name.copy(alloc)?)?;
        }
        Ok(copies)
    }

    /// Whether the name is among them.
    pub fn contains(&self, name: &[u8]) -> bool
        ensures { result ≡ list_any (λ known. bytes_eq known name.now) self.now }
    {
        self.names.iter().any(|known| known.as_slice() == name)
    }
}

/// Which replies may have no mark.
#[derive(Clone, Copy, PartialEq, Eq)]
pub enum UnmarkedReplies {
    /// All.
    Allow,
    /// Those of a status of 400 or more.
    ErrorsOnly,
}

/// What an audit is asked to let pass.
pub struct Settings {
    /// By how many seconds an Age, the seconds that are left, a lifetime and what permits staleness may be
    /// off.
    pub slack: u32,
    /// The fields that aren't compared.
    pub ignored: FieldNames,
    /// Which replies may have no mark.
    pub unmarked: UnmarkedReplies,
    /// What is allowed beside the strict rules.
    pub allowed: Allowed,
}

impl Drop for Settings {
    fn drop(self) {
        let Settings {
            slack: _,
            ignored,
            unmarked: _,
            allowed,
        } = self;
        drop(ignored);
        drop(allowed);
    }
}

impl Settings {
    /// The same settings in memory of their own.
    pub fn copy(&self, alloc: Global) -> Result<Self, AllocError>
        ensures { IfOk result (λ settings. settings ≡ self.now) }
    {
        Ok(Settings {
            slack: self.slack,
            ignored: self.ignored.copy(alloc)?,
            unmarked: self.unmarked,
            allowed: self.allowed.copy(alloc)?,
        })
    }
}
