//! The rules that a stored response keeps, one after another, to be what a reply carries.

ghost use Rattle.std.specs.Prelude.{◌≡◌};
ghost use Rattle.hc_use.specs.Rules.{IsRuleBehind, reason_of};

use hc_history::Reason;

/// A rule that a stored response has to keep, in the order in which they are asked.
#[derive(Clone, Copy, PartialEq, Eq)]
pub enum Rule {
    /// The request is GET or HEAD, of the response's target.
    Asked,
    /// Its Vary selects the request (RFC 9111 section 4.1).
    Selected,
    /// It isn't invalidated (RFC 9111 section 4.4).
    Valid,
    /// It states a lifetime, or may be used without (RFC 9111 section 4.2.1).
    Lifetime,
    /// It is fresh, was validated, or may be served stale (RFC 9111 section 4).
    Use,
    /// The reply has its status and its body, or is a 304 that it earns (RFC 9111 section 4.3.2).
    Body,
    /// The reply has its fields.
    Fields,
    /// The reply has its Age (RFC 9111 section 5.1).
    Age,
    /// The reply's mark tells the seconds for which it is fresh still (RFC 9211 section 2.4).
    Ttl,
}

impl Rule {
    /// The reason of a reply for which no response keeps it.
    pub fn reason(&self) -> Reason
        ensures { result ≡ reason_of self.now }
    {
        match self {
            Rule::Asked => Reason::NoResponse,
            Rule::Selected => Reason::Vary,
            Rule::Valid => Reason::Invalidated,
            Rule::Lifetime => Reason::NoExplicitFreshness,
            Rule::Use => Reason::NotAllowed,
            Rule::Body => Reason::Body,
            Rule::Fields => Reason::Fields,
            Rule::Age => Reason::Age,
            Rule::Ttl => Reason::Ttl,
        }
    }
}

/// The rule that a response breaks first that keeps so many, one after another; none where it keeps all.
pub fn rule_behind(kept: u32) -> Option<Rule>
    ensures { IsRuleBehind kept result }
{
    match kept {
        0 => Some(Rule::Asked),
        1 => Some(Rule::Selected),
        2 => Some(Rule::Valid),
        3 => Some(Rule::Lifetime),
        4 => Some(Rule::Use),
        5 => Some(Rule::Body),
        6 => Some(Rule::Fields),
        7 => Some(Rule::Age),
        8 => Some(Rule::Ttl),
        _ => None,
    }
}
