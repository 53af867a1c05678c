//! What was seen of calls.

/// What was seen of calls, one after another.
#[derive(Clone, Copy)]
pub enum Seen {
    /// Each did what it was asked for. So does a cache whose store finds no memory, in another way.
    Answered,
    /// Memory was refused, and all that came behind is as it has to be.
    Refused,
    /// Something else.
    Other,
}

impl Seen {
    /// The words that say so.
    pub fn words(self) -> &'static str {
        match self {
            Seen::Answered => "each call is answered",
            Seen::Refused => "memory is refused, and what stands behind it is as it has to be",
            Seen::Other => "another answer than wanted",
        }
    }

    /// What is seen behind the next call, which did what it was asked for, or was refused memory, or returned
    /// that it was refused before.
    pub fn then(self, next: Next) -> Self {
        match (self, next) {
            (Seen::Answered, Next::Answered) => Seen::Answered,
            (Seen::Answered, Next::Memory) => Seen::Refused,
            (Seen::Refused, Next::Failed) => Seen::Refused,
            _ => Seen::Other,
        }
    }
}

/// What the next call of what fails for ever returns.
#[derive(Clone, Copy)]
pub enum Next {
    /// It does what it is asked for.
    Answered,
    /// It is refused memory.
    Memory,
    /// It says that memory was refused before.
    Failed,
    /// It returns something else.
    Other,
}
