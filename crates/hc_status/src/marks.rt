//! The mark of a reply.

/// What Cache-Status says of a reply, by the last member of its list (RFC 9211 section 2).
#[derive(Clone, Copy, PartialEq, Eq)]
pub enum Mark {
    /// The reply came out of the cache (RFC 9211 section 2.1).
    Hit {
        /// The seconds for which it is fresh still, negative where it is stale (RFC 9211 section 2.4).
        ttl: Option<i64>,
    },
    /// The request went forward (RFC 9211 section 2.2).
    Forwarded {
        /// Whether it waited for the forward of another one, in place of a forward of its own (RFC 9211 section 2.6).
        collapsed: bool,
    },
    /// Both are said, which contradict each other.
    Both,
    /// Nothing is said, or nothing that can be read.
    Unmarked,
}
