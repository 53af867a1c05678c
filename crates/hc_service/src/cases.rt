//! The cases of a request, and why it goes to the origin.

ghost use Rattle.std.specs.Prelude.{◌≡◌, option_copied};
ghost use Rattle.hc_service.specs.Cases.{asks_store, case_before_store, case_by_store, case_of, cause_of_stored, word_of};

use crate::asking::is_bypass;
use crate::serving::{is_fresh, may_be_served};
use hc_fields::Fields;
use hc_framing::Message;
use hc_fresh::says;
use hc_head::{RequestHead, is_get_or_head};
use hc_update::Stored;

/// Why a request goes to the origin.
#[derive(Clone, Copy, PartialEq, Eq)]
pub enum Cause {
    /// Its method is one that the cache doesn't answer.
    Method,
    /// It asks for a part, on a condition that only the origin can judge, or it has a body.
    Bypass,
    /// It says that nothing of it may be stored.
    NoStore,
    /// Nothing was stored of its target when it came.
    UriMiss,
    /// Of its target something is stored, but nothing that it selects.
    VaryMiss,
    /// What it selects isn't fresh, or isn't to be served before it is validated.
    Stale,
    /// What it selects is fresh, but the request asks for more.
    Request,
}

/// What becomes of a request.
#[derive(Clone, Copy)]
pub enum Case<'a> {
    /// The stored response that it selects is its reply.
    Hit(&'a Stored),
    /// It goes to the origin.
    Forward(Cause),
}

impl Cause {
    /// How Cache-Status says it (RFC 9211 section 2.2).
    pub fn word(self) -> &'static str
        ensures { result.now ≡ word_of self }
    {
        match self {
            Cause::Method => "method",
            Cause::Bypass => "bypass",
            Cause::NoStore => "bypass",
            Cause::UriMiss => "uri-miss",
            Cause::VaryMiss => "vary-miss",
            Cause::Stale => "stale",
            Cause::Request => "request",
        }
    }

    /// Whether the store was asked before the request went to the origin, so that what answers it may
    /// be stored, and what is stored may take its place.
    pub fn asks_store(self) -> bool
        ensures { result ≡ asks_store self }
    {
        match self {
            Cause::Method => false,
            Cause::Bypass => false,
            Cause::NoStore => false,
            Cause::UriMiss => true,
            Cause::VaryMiss => true,
            Cause::Stale => true,
            Cause::Request => true,
        }
    }
}

/// Why a request goes to the origin before the store is asked, if it does.
pub fn case_before_store(request: &Message<RequestHead>) -> Option<Cause>
    ensures { result ≡ case_before_store request.now }
{
    if !is_get_or_head(&request.head.method) {
        return Some(Cause::Method);
    }
    if is_bypass(request) {
        return Some(Cause::Bypass);
    }
    if says(b"no-store", &request.head.fields) {
        return Some(Cause::NoStore);
    }
    None
}

/// Why a request goes to the origin in spite of the stored response that it selects.
fn cause_of_stored(stored: &Stored, moment: u64) -> Cause
    ensures { result ≡ cause_of_stored stored.now moment }
{
    if !is_fresh(stored, moment) || says(b"no-cache", &stored.fields) {
        return Cause::Stale;
    }
    Cause::Request
}

/// What becomes of a request once the store was asked: `known` tells whether anything is stored of its
/// target, and `chosen` is the stored response that the store chose.
pub fn case_by_store<'a>(
    asked: &Fields,
    known: bool,
    chosen: Option<&'a Stored>,
    moment: u64,
) -> Case<'a>
    ensures { case_of result ≡ case_by_store asked.now known (option_copied chosen.entry) moment }
{
    match chosen {
        None => {
            if known {
                return Case::Forward(Cause::VaryMiss);
            }
            Case::Forward(Cause::UriMiss)
        }
        Some(stored) => {
            if may_be_served(asked, stored, moment) {
                return Case::Hit(stored);
            }
            Case::Forward(cause_of_stored(stored, moment))
        }
    }
}
