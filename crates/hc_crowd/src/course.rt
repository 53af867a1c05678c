//! How far a crowd has come.

ghost use Rattle.std.specs.Prelude.{◌≡◌, true};
ghost use Rattle.hc_crowd.specs.Courses.{ends_idle, is_late, stops};

/// How far a crowd has come.
#[derive(Clone, Copy, PartialEq, Eq)]
pub(crate) enum Course {
    /// Clients are served.
    Serving,
    /// A stop was asked. Until the first of these milliseconds a client that is idle may ask once more, and until the
    /// second what is awaited, or has begun to come, is served.
    Ceasing { idle_until: u64, until: u64 },
    /// Clients that are idle end. What is awaited, or has begun to come, is served still, until that millisecond.
    Draining(u64),
    /// The time for that is over.
    Late,
}

impl Course {
    /// Whether a stop was asked.
    pub(crate) fn stops(self) -> bool
        ensures { result ≡ stops self }
    {
        match self {
            Course::Serving => false,
            Course::Ceasing { .. } => true,
            Course::Draining(_) => true,
            Course::Late => true,
        }
    }

    /// Whether clients end that are idle.
    pub(crate) fn ends_idle(self) -> bool
        ensures { result ≡ ends_idle self }
    {
        match self {
            Course::Serving => false,
            Course::Ceasing { .. } => false,
            Course::Draining(_) => true,
            Course::Late => true,
        }
    }

    /// Whether the time for what is awaited is over.
    pub(crate) fn is_late(self) -> bool
        ensures late { result ≡ is_late self }
        ensures stops { result ≡ true → stops self ≡ true }
    {
        match self {
            Course::Serving => false,
            Course::Ceasing { .. } => false,
            Course::Draining(_) => false,
            Course::Late => true,
        }
    }

    /// The millisecond at which it goes on by itself.
    pub(crate) fn until(self) -> Option<u64> {
        match self {
            Course::Serving => None,
            Course::Ceasing { idle_until, .. } => Some(idle_until),
            Course::Draining(until) => Some(until),
            Course::Late => None,
        }
    }
}
