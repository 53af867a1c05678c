//! Statuses, and those which caches treat each in its own way (RFC 9110 section 15).

ghost use Rattle.std.specs.Prelude.{◌≡◌};
ghost use Rattle.std.specs.Option.{SomeIff};
ghost use Rattle.hc_head.specs.Statuses.{IsStatus, is_interim, is_error_status};

use std::marker::Model;

/// The status of a response, from 100 to 999, which contracts see as the number.
#[derive(Clone, Copy, PartialEq, Eq)]
pub struct StatusCode(u16);

impl Model for StatusCode {
    ghost use Rattle.std.specs.Prelude.{ℕ};

    ghost Value = { ℕ };

    ghost view = { λ status. status.0 };

    ghost use Rattle.hc_head.specs.Statuses.{IsStatus};

    ghost invariant = { λ status. IsStatus status.0 };

    ghost inverse = { λ number. record { 0 = number } };
}

impl StatusCode {
    /// The status of that number, if it's one.
    pub fn from_u16(number: u16) -> Option<StatusCode>
        ensures { SomeIff result (IsStatus number) number }
    {
        if let 100..=999 = number {
            return Some(StatusCode(number));
        }
        None
    }

    /// Its number.
    pub fn as_u16(&self) -> u16
        ensures value { result ≡ self.now }
        ensures valid { IsStatus result }
    {
        self.0
    }
}

impl StatusCode {
    /// Switching Protocols (RFC 9110 section 15.2.2).
    pub const SWITCHING_PROTOCOLS: StatusCode = StatusCode(101);

    /// OK (RFC 9110 section 15.3.1).
    pub const OK: StatusCode = StatusCode(200);

    /// Non-Authoritative Information (RFC 9110 section 15.3.4).
    pub const NON_AUTHORITATIVE_INFORMATION: StatusCode = StatusCode(203);

    /// No Content (RFC 9110 section 15.3.5).
    pub const NO_CONTENT: StatusCode = StatusCode(204);

    /// Partial Content (RFC 9110 section 15.3.7).
    pub const PARTIAL_CONTENT: StatusCode = StatusCode(206);

    /// Multiple Choices (RFC 9110 section 15.4.1).
    pub const MULTIPLE_CHOICES: StatusCode = StatusCode(300);

    /// Moved Permanently (RFC 9110 section 15.4.2).
    pub const MOVED_PERMANENTLY: StatusCode = StatusCode(301);

    /// Found (RFC 9110 section 15.4.3).
    pub const FOUND: StatusCode = StatusCode(302);

    /// Not Modified (RFC 9110 section 15.4.5).
    pub const NOT_MODIFIED: StatusCode = StatusCode(304);

    /// Temporary Redirect (RFC 9110 section 15.4.8).
    pub const TEMPORARY_REDIRECT: StatusCode = StatusCode(307);

    /// Permanent Redirect (RFC 9110 section 15.4.9).
    pub const PERMANENT_REDIRECT: StatusCode = StatusCode(308);

    /// Bad Request (RFC 9110 section 15.5.1).
    pub const BAD_REQUEST: StatusCode = StatusCode(400);

    /// Not Found (RFC 9110 section 15.5.5).
    pub const NOT_FOUND: StatusCode = StatusCode(404);

    /// Method Not Allowed (RFC 9110 section 15.5.6).
    pub const METHOD_NOT_ALLOWED: StatusCode = StatusCode(405);

    /// Gone (RFC 9110 section 15.5.11).
    pub const GONE: StatusCode = StatusCode(410);

    /// Precondition Failed (RFC 9110 section 15.5.13).
    pub const PRECONDITION_FAILED: StatusCode = StatusCode(412);

    /// Content Too Large (RFC 9110 section 15.5.14).
    pub const CONTENT_TOO_LARGE: StatusCode = StatusCode(413);

    /// URI Too Long (RFC 9110 section 15.5.15).
    pub const URI_TOO_LONG: StatusCode = StatusCode(414);

    /// Range Not Satisfiable (RFC 9110 section 15.5.17).
    pub const RANGE_NOT_SATISFIABLE: StatusCode = StatusCode(416);

    /// Expectation Failed (RFC 9110 section 15.5.18).
    pub const EXPECTATION_FAILED: StatusCode = StatusCode(417);

    /// Request Header Fields Too Large (RFC 6585 section 5).
    pub const REQUEST_HEADER_FIELDS_TOO_LARGE: StatusCode = StatusCode(431);

    /// Internal Server Error (RFC 9110 section 15.6.1).
    pub const INTERNAL_SERVER_ERROR: StatusCode = StatusCode(500);

    /// Not Implemented (RFC 9110 section 15.6.2).
    pub const NOT_IMPLEMENTED: StatusCode = StatusCode(501);

    /// Bad Gateway (RFC 9110 section 15.6.3).
    pub const BAD_GATEWAY: StatusCode = StatusCode(502);

    /// Service Unavailable (RFC 9110 section 15.6.4).
    pub const SERVICE_UNAVAILABLE: StatusCode = StatusCode(503);

    /// Gateway Timeout (RFC 9110 section 15.6.5).
    pub const GATEWAY_TIMEOUT: StatusCode = StatusCode(504);
}

/// Whether a response of that status comes before the final one (RFC 9110 section 15.2).
pub fn is_interim(status: StatusCode) -> bool
    ensures { result ≡ is_interim status }
{
    (100..=199).contains(&status.as_u16())
}

/// The statuses that say that the origin can't answer now.
const ERRORS: [StatusCode; 4] = [
    StatusCode::INTERNAL_SERVER_ERROR,
    StatusCode::BAD_GATEWAY,
    StatusCode::SERVICE_UNAVAILABLE,
    StatusCode::GATEWAY_TIMEOUT,
];

/// Whether a stored response may take the place of an origin's response of that status (RFC 5861
/// section 4): 500, 502, 503 or 504.
pub fn is_error_status(status: StatusCode) -> bool
    ensures { result ≡ is_error_status status }
{
    ERRORS.contains(&status)
}
