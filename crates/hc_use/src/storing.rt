//! What forbids a shared cache to store a response (RFC 9111 section 3).

ghost use Rattle.std.specs.Prelude.{◌≡◌, ◌==◌};
ghost use Rattle.hc_rules.specs.Storing.{may_store};
ghost use Rattle.hc_use.specs.Demanding.{status_sections, storing_sections, stricter_sections};
ghost use Rattle.hc_use.specs.Forbidding.{forbids_nothing, forbids_of, is_uncacheable};

use crate::demand::{Demand, UNRECORDED};
use hc_directives::Directives;
use hc_fields::is_among;
use hc_fresh::{explicit, says};
use hc_head::{Method, RequestHead, ResponseHeadView, StatusCode, is_get, is_head};
use hc_rules::{invites_storing, is_storable, is_understood, permits_authorized};
use hc_shown::Teller;

/// The methods of which no response is cacheable (RFC 9110 sections 9.3.4 to 9.3.8).
const UNCACHEABLE: [&[u8]; 5] = [b"CONNECT", b"DELETE", b"OPTIONS", b"PUT", b"TRACE"];

/// What forbids to store a response: each by itself.
#[derive(Clone, Copy)]
pub struct Forbids {
    /// The request is no GET.
    pub method: bool,
    /// The request is HEAD.
    pub by_head: bool,
    /// The method is one of which no response is cacheable, or no such one.
    pub uncacheable: bool,
    /// The request says `no-store`.
    pub request_no_store: bool,
    /// The status is none that may be stored.
    pub status: bool,
    /// The status is 206.
    pub partial: bool,
    /// It says `must-understand`, and its status isn't understood.
    pub must_understand: bool,
    /// It says `no-store`.
    pub no_store: bool,
    /// It says `private`.
    pub private: bool,
    /// The request is authorized, and the response doesn't say that it may be shared all the same.
    pub authorization: bool,
    /// Neither its status nor what it says invites to store it.
    pub uninvited: bool,
}

// Whether the response to a request of that method isn't cacheable: to POST one is that states a lifetime, and has a
// Content-Location (RFC 9110 section 9.3.3).
fn is_uncacheable(method: &Method, response: &ResponseHeadView<'_>) -> bool
    ensures { result ≡ is_uncacheable method.now response.now }
{
    let is_post = method.as_slice() == b"POST".as_slice();
    let has_both = explicit(&response.fields) && response.fields.contains(b"content-location");
    is_among(&UNCACHEABLE, method.as_slice()) || (is_post && !has_both)
}

// Whether a response of that status is a part.
fn is_partial(status: StatusCode) -> bool
    ensures { result ≡ (status == 206) }
{
    status == StatusCode::PARTIAL_CONTENT
}

/// What forbids a shared cache to store the response to that request, which is the one that was sent to the origin.
#[tactic(auto, using(hc_directives::proofs::KnownLemmas::seconds_are_there))]
pub fn what_forbids(forward: &RequestHead, response: &ResponseHeadView<'_>) -> Forbids
    ensures each { result ≡ forbids_of forward.now response.now }
    // It may be stored where nothing forbids it.
    ensures stored { may_store forward.now response.now ≡ forbids_nothing result }
{
    let known = Directives::read(&response.fields).known();
    Forbids {
        method: !is_get(&forward.method),
        by_head: is_head(&forward.method),
        uncacheable: is_uncacheable(&forward.method, response),
        request_no_store: says(b"no-store", &forward.fields),
        status: !is_storable(response.status),
        partial: is_partial(response.status),
        must_understand: known.must_understand && !is_understood(response.status),
        no_store: known.no_store && !known.must_understand,
        private: known.private,
        authorization: forward.fields.contains(b"authorization") && !permits_authorized(&known),
        uninvited: !invites_storing(&known, response),
    }
}

/// The rest of what says `private` of fields alone may be stored.
pub const PRIVATE_FIELDS: Demand = Demand {
    sections: "no RFC (RFC 9111 section 5.2.2.7 lets the rest be stored of what says private of some fields), but this auditor's stricter rule",
    words: "what says private, of whichever fields, comes out of no store",
};

impl Forbids {
    /// Whether nothing forbids to store it.
    pub fn is_nothing(&self) -> bool
        ensures { result ≡ forbids_nothing self.now }
    {
        let by_request = self.method || self.request_no_store || self.authorization;
        let by_response = self.status || self.must_understand || self.no_store || self.private;
        !by_request && !by_response && !self.uninvited
    }

    /// What is asked by the first that forbids, as RFCs go.
    pub fn demand(&self) -> Demand
        ensures { result.sections.now ≡ storing_sections self.now }
    {
        if self.request_no_store {
            Demand::of(
                "RFC 9111 section 5.2.1.5",
                "what answers a request that says no-store MUST NOT be stored",
            )
        } else if self.authorization {
            Demand::of(
                "RFC 9111 section 3.5",
                "a shared cache MUST NOT use for a later request what answers one with Authorization, but where that says that it may be shared",
            )
        } else if self.no_store {
            Demand::of(
                "RFC 9111 section 5.2.2.5",
                "what says no-store MUST NOT be stored",
            )
        } else if self.private {
            Demand::of(
                "RFC 9111 section 5.2.2.7",
                "a shared cache MUST NOT store what says private",
            )
        } else {
            self.demand_of_status()
        }
    }

    // What is asked by what isn't whole, or else by what invites to store it, or by the method.
    fn demand_of_status(&self) -> Demand
        ensures { result.sections.now ≡ status_sections self.now }
    {
        if self.partial {
            Demand::of(
                "RFC 9111 section 3.3",
                "what isn't whole MUST NOT be used as if it were",
            )
        } else if self.uninvited {
            Demand::of(
                "RFC 9111 section 3",
                "what neither its status nor its fields invite to store MUST NOT be stored",
            )
        } else if self.uncacheable {
            Demand::of(
                "RFC 9110 section 9.3",
                "answers to PUT, DELETE, CONNECT, OPTIONS and TRACE aren't cacheable, nor are those to POST without a lifetime and a Content-Location",
            )
        } else if self.by_head {
            Demand::of(
                "RFC 9111 section 4",
                "what answers HEAD MUST NOT be used for a request of another method",
            )
        } else {
            self.stricter_demand()
        }
    }

    // What is asked where a cache that understands the status or the method may store it.
    fn stricter_demand(&self) -> Demand
        ensures { result.sections.now ≡ stricter_sections self.now }
    {
        if self.must_understand {
            Demand::of(
                "no RFC (RFC 9111 section 5.2.2.3 lets what says must-understand be stored by a cache that understands its status), but this auditor's stricter rule",
                "what says must-understand is stored where its status is 200, 203, 204, 300, 301, 302, 307, 308, 404, 405, 410, 414 or 501",
            )
        } else if self.status {
            Demand::of(
                "no RFC (RFC 9111 section 3 lets parts and other statuses be stored by a cache that understands them), but this auditor's stricter rule",
                "what is stored is whole, and has a status up to 599",
            )
        } else if self.method {
            Demand::of(
                "no RFC (RFC 9111 section 3 permits this), but this auditor's stricter rule",
                "a hit is made of an answer to GET alone",
            )
        } else {
            UNRECORDED
        }
    }

    // Words for each that forbids, and the section that says so, or that leaves it to caches.
    fn rows(&self) -> [(bool, &'static str, &'static str); 8] {
        let by_method = if self.uncacheable {
            "RFC 9110 section 9.3"
        } else {
            "this auditor's stricter rule: RFC 9111 section 3 leaves other methods to the cache"
        };
        let by_status =
            "this auditor's stricter rule: RFC 9111 section 3 leaves other statuses to the cache";
        let not_understood =
            "this auditor's stricter rule: RFC 9111 section 5.2.2.3 leaves that to the cache";
        let authorized =
            "its forward has Authorization, and none of public, s-maxage and must-revalidate permits to share it";
        [
            (self.method, "its forward is no GET", by_method),
            (
                self.request_no_store,
                "its forward says no-store",
                "RFC 9111 section 5.2.1.5",
            ),
            (self.status, "its status must not be stored", by_status),
            (
                self.must_understand,
                "must-understand, and its status is not understood",
                not_understood,
            ),
            (
                self.no_store,
                "it says no-store",
                "RFC 9111 section 5.2.2.5",
            ),
            (self.private, "it says private", "RFC 9111 section 5.2.2.7"),
            (self.authorization, authorized, "RFC 9111 section 3.5"),
            (
                self.uninvited,
                "nothing invites to store it",
                "RFC 9111 section 3",
            ),
        ]
    }

    /// Tells words for each that forbids, and the sections that say so, if these are asked for.
    pub fn tell<T: Teller>(&self, with_sections: bool, teller: &mut T) {
        let mut is_first = true;
        for (forbids, words, section) in self.rows() {
            if forbids {
                teller.separator(is_first, "", " and ");
                teller.words(words);
                if with_sections {
                    teller.words(" (");
                    teller.words(section);
                    teller.words(")");
                }
                is_first = false;
            }
        }
    }
}
