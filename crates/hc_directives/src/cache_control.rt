//! What the Cache-Control lines of a message say.

ghost use Rattle.std.specs.Prelude.{◌≡◌, min, option_map};
ghost use Rattle.hc_directives.specs.Directives.{CacheControl, cache_control, read_members, has_directive, first_directive, seconds_of};
ghost use Rattle.hc_directives.specs.Spellings.{directive_meant};
ghost use Rattle.hc_directives.specs.Known.{known_directives};

use crate::known::KnownDirectives;
use crate::spelling::{Spelling, read_directive};
use hc_fields::{FieldsView, Lines, Members};
use std::marker::Model;

/// What a directive says of seconds.
#[derive(Clone, Copy, PartialEq, Eq)]
pub enum Seconds {
    /// No directive has the name.
    Absent,
    /// The first directive of the name has no argument.
    Bare,
    /// Its argument is a number; one over `LARGEST_NUMBER` is that number.
    Value(u32),
    /// Its argument is no number.
    Unreadable,
}

impl Seconds {
    ghost use Rattle.hc_directives.specs.Known.{is_there};

    /// Whether a directive has the name, whatever it says.
    pub fn is_there(self) -> bool
        ensures { result ≡ is_there self }
    {
        self != Seconds::Absent
    }
}

/// The directives in the Cache-Control lines of a message (RFC 9111 section 5.2), which contracts
/// see as the list of them, with their names in lower case and their arguments unescaped, and the
/// count of the members that are no directives. It lends the fields and takes no memory.
#[derive(Drop)]
pub struct Directives<'a> {
    fields: FieldsView<'a>,
}

impl<'a> Model for Directives<'a> {
    ghost Value = { CacheControl };

    ghost view = { λ d. cache_control d.fields };
}

impl<'a> Directives<'a> {
    /// The directives in those fields, which are read anew by each call.
    pub fn read<L: Lines>(fields: &'a L) -> Self
        ensures { result ≡ cache_control (L.lines fields.now) }
    {
        Directives {
            fields: fields.lent(),
        }
    }

    /// The members of the Cache-Control lines.
    fn members(&self) -> Members<'a>
        ensures { read_members result ≡ self.now }
    {
        self.fields.members(b"cache-control")
    }

    /// The first directive of that name.
    fn first(&self, name: &[u8]) -> Option<Spelling<'a>>
        ensures { option_map directive_meant result ≡ first_directive name.now self.now.directives }
    {
        for member in self.members() {
            if let Some(directive) = read_directive(member)
                && directive.is_named(name)
            {
                return Some(directive);
            }
        }
        None
    }

    /// Whether there is a directive of that name, whatever its argument. Names are compared in any
    /// case.
    pub fn has(&self, name: &[u8]) -> bool
        ensures { result ≡ has_directive name.now self.now.directives }
    {
        self.first(name).is_some()
    }

    /// The seconds that the first directive of that name says. Names are compared in any case.
    pub fn seconds(&self, name: &[u8]) -> Seconds
        ensures { result ≡ seconds_of (first_directive name.now self.now.directives) }
    {
        match self.first(name) {
            Some(directive) => directive.seconds(),
            None => Seconds::Absent,
        }
    }

    /// What the rules of a cache ask for, read at once.
    #[tactic(auto, using(crate::proofs::KnownLemmas::all_known))]
    pub fn known(&self) -> KnownDirectives
        ensures { result ≡ known_directives self.now.directives }
    {
        let mut known = KnownDirectives::none();
        for member in self.members() {
            let Some(directive) = read_directive(member) else {
                continue;
            };
            known = known.with(&directive);
        }
        known
    }

    /// How many members are no directives, at most `usize::MAX`.
    pub fn unreadable(&self) -> usize
        ensures { result ≡ min self.now.unreadable usize.MAX }
    {
        let mut count: usize = 0;
        for member in self.members() {
            if read_directive(member).is_none() {
                count = count.saturating_add(1);
            }
        }
        count
    }
}
