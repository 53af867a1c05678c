//! Notes of what has happened.

use hc_order::{Occurrence, Reason};
use hc_service::{Event, Happening};
use std::alloc::{AllocError, Global};

/// Notes of what has happened.
pub struct Notes {
    /// What has happened.
    pub events: Vec<Event>,
    /// Why each of that was told.
    pub reasons: Vec<Reason>,
    /// Whether memory was refused for a note, which is missing.
    pub torn: bool,
}

impl Drop for Notes {
    fn drop(self) {
        let Notes {
            events,
            reasons,
            torn: _,
        } = self;
        drop(events);
        drop(reasons);
    }
}

impl Notes {
    /// Nothing has happened yet.
    pub fn new(alloc: Global) -> Self {
        Notes {
            events: Vec::new(alloc),
            reasons: Vec::new(alloc),
            torn: false,
        }
    }

    /// Notes that behind the others.
    pub(crate) fn put(&mut self, alloc: Global, occurrence: &Occurrence) -> Result<(), AllocError> {
        self.events.push(copy_of(alloc, &occurrence.event)?)?;
        self.reasons.push(occurrence.reason)?;
        Ok(())
    }
}

/// The same event once more.
fn copy_of(alloc: Global, event: &Event) -> Result<Event, AllocError> {
    let of = match &event.of {
        Happening::ClientOpened(c) => Happening::ClientOpened(*c),
        Happening::ClientBytes(c, octets) => Happening::ClientBytes(*c, octets.copy(alloc)?),
        Happening::ClientEnd(c) => Happening::ClientEnd(*c),
        Happening::OriginBytes(f, octets) => Happening::OriginBytes(*f, octets.copy(alloc)?),
        Happening::OriginEnd(f) => Happening::OriginEnd(*f),
        Happening::OriginFailed(f) => Happening::OriginFailed(*f),
        Happening::Stopping => Happening::Stopping,
    };
    Ok(Event {
        moment: event.moment,
        of,
    })
}
