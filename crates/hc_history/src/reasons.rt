//! Why a reply is wrong.

/// Why a reply is wrong. The first nine are those of the filters that an earlier response has to pass,
/// of which the first that leaves nobody is told.
#[derive(Clone, Copy, PartialEq, Eq)]
pub enum Reason {
    /// No earlier response that may be stored is of its target, or the request is no GET and no HEAD.
    NoResponse,
    /// None of those is selected by the request.
    Vary,
    /// Each of those is invalid.
    Invalidated,
    /// None of those states a lifetime, or may be used without.
    NoExplicitFreshness,
    /// None of those was fresh, validated or allowed stale then.
    NotAllowed,
    /// None of those has the status and the body, or earns the 304.
    Body,
    /// None of those has the fields.
    Fields,
    /// None of those has the Age.
    Age,
    /// None of those has the seconds that are left.
    Ttl,
    /// It went forward, by its mark or by an inferred one, and carries no answer of its window, and no stored
    /// response that it may carry then.
    NotForwarded,
    /// It counts as unmarked, though only errors may.
    Unmarked,
    /// It is marked as a hit and as forwarded.
    BothMarks,
    /// It is marked as collapsed, and no one response that came behind its request passes the filters but that of the
    /// seconds left.
    NotCollapsible,
}

impl Reason {
    ghost use Rattle.std.specs.Prelude.{◌≡◌};
    ghost use Rattle.hc_history.specs.Names.{reason_number, reason_name};

    /// The number that stands for the reason in reports.
    pub fn number(&self) -> u32
        ensures { result ≡ reason_number self.now }
    {
        match self {
            Reason::NoResponse => 1,
            Reason::Vary => 2,
            Reason::Invalidated => 3,
            Reason::NoExplicitFreshness => 4,
            Reason::NotAllowed => 5,
            Reason::Body => 6,
            Reason::Fields => 7,
            Reason::Age => 8,
            Reason::Ttl => 9,
            Reason::NotForwarded => 10,
            Reason::Unmarked => 11,
            Reason::BothMarks => 12,
            Reason::NotCollapsible => 13,
        }
    }

    /// The name that stands for the reason in reports.
    pub fn name(&self) -> &'static str
        ensures { result.now ≡ reason_name self.now }
    {
        match self {
            Reason::NoResponse => "NoResponse",
            Reason::Vary => "Vary",
            Reason::Invalidated => "Invalidated",
            Reason::NoExplicitFreshness => "NoExplicitFreshness",
            Reason::NotAllowed => "NotAllowed",
            Reason::Body => "Body",
            Reason::Fields => "Fields",
            Reason::Age => "Age",
            Reason::Ttl => "Ttl",
            Reason::NotForwarded => "NotForwarded",
            Reason::Unmarked => "Unmarked",
            Reason::BothMarks => "BothMarks",
            Reason::NotCollapsible => "NotCollapsible",
        }
    }
}
