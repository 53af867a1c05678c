//! When somebody is looked at, and which time-out that is of.

ghost use Rattle.std.specs.Prelude.{◌≡◌};
ghost use Rattle.hc_agenda.specs.Earliest.{earlier_of};

/// Which time-out a deadline has.
#[derive(Clone, Copy, PartialEq, Eq, PartialOrd, Ord)]
pub enum Timeout {
    /// That of a guest, of whom no octet has come.
    Guest,
    /// That of a link of one who was turned away, by the number of a guest.
    TurnedAway,
    /// That of a client, of whom something is wanted.
    Client,
    /// That of a client's link that lingers.
    ClientLingering,
    /// That of a forward that waits for a place.
    Place,
    /// That of a link to the origin, which has to be made.
    Connect,
    /// That of a forward that has a link.
    Origin,
    /// That of a link to the origin that lingers.
    OriginLingering,
}

/// A number that is due at a millisecond. Those of one time-out follow one another in the order of time.
#[derive(Clone, Copy, PartialEq, Eq, PartialOrd, Ord)]
pub struct Deadline {
    pub timeout: Timeout,
    pub tick: u64,
    pub number: u64,
}

/// The earlier of two times, if there are any.
pub fn earlier(one: Option<u64>, other: Option<u64>) -> Option<u64>
    ensures { result ≡ earlier_of one other }
{
    match (one, other) {
        (Some(one), Some(other)) => Some(one.min(other)),
        (Some(one), None) => Some(one),
        (None, other) => other,
    }
}
