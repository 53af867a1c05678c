//! What is counted.

ghost use Rattle.std.specs.Prelude.{◌≡◌, ◌+◌, ◌-◌, ◌^◌, min};
ghost use Rattle.hc_monitor.specs.Counts.{counted_in, counted_of, more};

use crate::marks::{Class, Way};

/// How many replies were sent of each class.
#[derive(Clone, Copy)]
pub struct Classes {
    /// 2xx.
    pub successful: u64,
    /// 3xx.
    pub redirection: u64,
    /// 4xx.
    pub client_error: u64,
    /// 5xx.
    pub server_error: u64,
    /// Any other.
    pub other: u64,
}

impl Classes {
    /// None.
    fn none() -> Self {
        Classes {
            successful: 0,
            redirection: 0,
            client_error: 0,
            server_error: 0,
            other: 0,
        }
    }

    /// One more was sent of that class.
    fn count(&mut self, class: Class)
        ensures { self.new ≡ counted_in class self.old }
    {
        match class {
            Class::Successful => self.successful = more(self.successful),
            Class::Redirection => self.redirection = more(self.redirection),
            Class::ClientError => self.client_error = more(self.client_error),
            Class::ServerError => self.server_error = more(self.server_error),
            Class::Other => self.other = more(self.other),
        }
    }
}

/// How many replies were sent of each way, by class.
#[derive(Clone, Copy)]
pub struct Ways {
    /// Hits.
    pub hit: Classes,
    /// Hits that were given out stale.
    pub stale_hit: Classes,
    /// Those that another request's forward answered, too.
    pub collapsed: Classes,
    /// Those of whose target nothing was stored.
    pub uri_miss: Classes,
    /// Those for which nothing was stored that is for such a request.
    pub vary_miss: Classes,
    /// Those for which a stale response was stored.
    pub stale: Classes,
    /// Those whose method isn't answered from a store.
    pub method: Classes,
    /// Those whose request didn't want what was stored.
    pub request: Classes,
    /// Those for which the store isn't.
    pub bypass: Classes,
    /// Those without such a mark.
    pub unmarked: Classes,
}

impl Ways {
    /// None.
    fn none() -> Self {
        let none = Classes::none();
        Ways {
            hit: none,
            stale_hit: none,
            collapsed: none,
            uri_miss: none,
            vary_miss: none,
            stale: none,
            method: none,
            request: none,
            bypass: none,
            unmarked: none,
        }
    }

    /// One more was sent of that way and class.
    pub fn count(&mut self, way: Way, class: Class)
        ensures { self.new ≡ counted_of way class self.old }
    {
        match way {
            Way::Hit => self.hit.count(class),
            Way::StaleHit => self.stale_hit.count(class),
            Way::Collapsed => self.collapsed.count(class),
            Way::UriMiss => self.uri_miss.count(class),
            Way::VaryMiss => self.vary_miss.count(class),
            Way::Stale => self.stale.count(class),
            Way::Method => self.method.count(class),
            Way::Request => self.request.count(class),
            Way::Bypass => self.bypass.count(class),
            Way::Unmarked => self.unmarked.count(class),
        }
    }
}

/// What is counted from the start on. No count goes past 2^64 - 1.
#[derive(Clone, Copy)]
pub struct Figures {
    /// Replies that were sent.
    pub replies: Ways,
    /// Clients who were turned away.
    pub turned_away: u64,
    /// Octets that came from clients.
    pub from_clients: u64,
    /// Octets that were sent to clients.
    pub to_clients: u64,
    /// Octets that came from the origin.
    pub from_origin: u64,
    /// Octets that were sent to the origin.
    pub to_origin: u64,
    /// Forwards that were made.
    pub forwards: u64,
}

impl Figures {
    /// Nothing has happened.
    pub fn none() -> Self {
        Figures {
            replies: Ways::none(),
            turned_away: 0,
            from_clients: 0,
            to_clients: 0,
            from_origin: 0,
            to_origin: 0,
            forwards: 0,
        }
    }
}

/// One more.
fn more(count: u64) -> u64
    ensures { result ≡ more count }
{
    count.saturating_add(1)
}
