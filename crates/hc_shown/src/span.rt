//! Positions from one to another.

ghost use Rattle.std.specs.Prelude.{◌≡◌};
ghost use Rattle.hc_shown.specs.Shown.{is_within};

/// The positions from one to another.
#[derive(Clone, Copy)]
pub struct Span {
    /// The least of them.
    pub first: u64,
    /// The greatest. Where it is less there is none.
    pub last: u64,
}

impl Span {
    /// Whether the position is one of them.
    pub fn contains(self, position: u64) -> bool
        ensures { result ≡ is_within self position }
    {
        self.first <= position && position <= self.last
    }
}
