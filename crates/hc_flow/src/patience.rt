//! How long others may take.

ghost use Rattle.std.specs.Prelude.{◌≡◌};
ghost use Rattle.hc_flow.specs.Paces.{shortest};

/// How long clients and the origin may take, in milliseconds.
#[derive(Clone, Copy)]
pub struct Patience {
    /// So long a client may send nothing before a request: from when it connected, or all was written to it.
    pub idle_timeout: u64,
    /// So long a request may take to come, from its first octet, and a second more for each KiB of it.
    pub request_timeout: u64,
    /// So long a client to which octets are owed may take none.
    pub send_timeout: u64,
    /// So long the origin may give no octet on a forward's link, and take none.
    pub origin_timeout: u64,
    /// So long a forward may take in all, from when the first link was begun for it.
    pub origin_total: u64,
}

impl Patience {
    /// The least of what a client may take for anything.
    pub fn shortest(self) -> u64
        ensures { result ≡ shortest self }
    {
        self.idle_timeout
            .min(self.request_timeout)
            .min(self.send_timeout)
    }
}
