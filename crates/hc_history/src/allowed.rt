//! What an audit allows beside its strict rules.

ghost use Rattle.std.specs.Prelude.{◌≡◌, IfOk};
ghost use Rattle.hc_history.specs.Allowed.{nothing_allowed};

use crate::settings::FieldNames;
use std::alloc::{AllocError, Global};

/// What an audit allows beside its strict rules, which are narrower than the RFCs where these leave a choice.
pub struct Allowed {
    /// Whether a reply may have fields that the stored response lacks, but for those that say what its body is
    /// (RFC 9110 sections 7.7 and 15.4.5).
    pub added_fields: bool,
    /// Whether the lines of a name may be joined, or parted, but for Set-Cookie (RFC 9110 section 5.3).
    pub joined_lines: bool,
    /// Whether a reply that went forward may be a part of what the origin answered, and whether a reply may say
    /// that there is no such part (RFC 9110 sections 14.2, 15.3.7 and 15.5.17).
    pub ranges: bool,
    /// The lifetime in seconds of what states none, if it is public, or of a status that may be stored where
    /// nothing says so (RFC 9111 section 4.2.2).
    pub default_lifetime: Option<u32>,
    /// By how many seconds a response may be stale where nothing forbids that (RFC 9111 section 4.2.4).
    pub grace: Option<u32>,
    /// The fields that a cache normalizes before Vary selects by them (RFC 9111 section 4.1).
    pub normalized: FieldNames,
    /// Whether a reply without a mark is judged by whether a forward was made for its exchange (RFC 9211
    /// section 2).
    pub inferred_marks: bool,
    /// By how many seconds an Age may be off, where that is more than the slack (RFC 9111 section 4.2.3).
    pub age_slack: u32,
}

impl Drop for Allowed {
    fn drop(self) {
        let Allowed {
            added_fields: _,
            joined_lines: _,
            ranges: _,
            default_lifetime: _,
            grace: _,
            normalized,
            inferred_marks: _,
            age_slack: _,
        } = self;
        drop(normalized);
    }
}

impl Allowed {
    /// Nothing: each rule is the strict one.
    pub fn nothing(alloc: Global) -> Self
        ensures { result ≡ nothing_allowed }
    {
        Allowed {
            added_fields: false,
            joined_lines: false,
            ranges: false,
            default_lifetime: None,
            grace: None,
            normalized: FieldNames::new(alloc),
            inferred_marks: false,
            age_slack: 0,
        }
    }

    /// The same in memory of its own.
    pub fn copy(&self, alloc: Global) -> Result<Self, AllocError>
        ensures { IfOk result (λ allowed. allowed ≡ self.now) }
    {
        Ok(Allowed {
            added_fields: self.added_fields,
            joined_lines: self.joined_lines,
            ranges: self.ranges,
            default_lifetime: self.default_lifetime,
            grace: self.grace,
            normalized: self.normalized.copy(alloc)?,
            inferred_marks: self.inferred_marks,
            age_slack: self.age_slack,
        })
    }
}
