//! The member of Cache-Status that the cache writes.

use hc_fields::Octets;

/// How a cache handled a request (RFC 9211 section 2).
#[derive(Drop)]
pub enum Handling {
    /// The reply came out of the cache.
    Hit {
        /// The seconds for which it is fresh still, negative where it is stale (RFC 9211 section 2.4).
        ttl: Option<i64>,
    },
    /// The request went forward.
    Fwd {
        /// Why it did, a Token such as `uri-miss` (RFC 9211 section 2.2).
        word: Octets,
        /// The status that the origin gave (RFC 9211 section 2.3).
        fwd_status: Option<u16>,
        /// Whether the response was stored (RFC 9211 section 2.5).
        stored: bool,
        /// Whether it waited for the forward of another request, in place of a forward of its own (RFC 9211 section
        /// 2.6).
        collapsed: bool,
    },
}

/// A member of Cache-Status: the name of the cache, a Token, and how it handled the request.
#[derive(Drop)]
pub struct CacheStatus {
    pub name: Octets,
    pub handling: Handling,
}
