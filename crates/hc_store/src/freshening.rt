//! What a 304 makes of the variants of a key (RFC 9111 section 4.3.4).

ghost use Rattle.std.specs.Prelude.{◌≡◌, ◌<◌, true, false, List, map};
ghost use Rattle.std.specs.List.{list_any};
ghost use Rattle.hc_fields.specs.Numbers.{end_of_moments};
ghost use Rattle.hc_update.specs.declared.stored.Stored.{Stored};
ghost use Rattle.hc_store.specs.Changes.{Leaves, after_validation, is_validated, may_become, may_go, renewed};
ghost use Rattle.hc_store.specs.Fates.{HasFate, IsLeft};
ghost use Rattle.hc_store.specs.Views.{validation_seen};

use crate::cookies::may_hold;
use hc_head::{RequestHead, ResponseHead};
use hc_update::{Stored, fits, identifies};

/// A 304 that came for a target.
#[derive(Clone, Copy)]
pub struct NotModified<'a> {
    /// The request that it answers, as it was sent to the origin.
    pub forward: &'a RequestHead,
    /// Its head.
    pub head: &'a ResponseHead,
    /// When the request was sent, in seconds since 1970.
    pub request_time: u64,
    /// When it came, in seconds since 1970.
    pub response_time: u64,
    /// The position of its record.
    pub position: u64,
}

/// What becomes of a variant.
#[derive(Clone, Copy)]
enum Fate {
    /// The 304 isn't about it.
    Stays,
    /// It is freshened.
    Freshened,
    /// It found no memory, or may not be what it became.
    Goes,
}

/// Whether a response may be what a 304 made of a variant: it fits, and sets no cookie where such responses
/// aren't kept.
fn may_become(keeps_cookies: bool, freshened: &Stored) -> bool
    ensures { result ≡ may_become keeps_cookies freshened.now }
{
    fits(freshened) && may_hold(keeps_cookies, freshened)
}

/// Freshens a variant, if the 304 is about it. Where it goes, nothing is known of it any more.
fn freshen_variant(variant: &mut Stored, validation: NotModified<'_>, keeps_cookies: bool) -> Fate
    requires { validation.response_time < end_of_moments }
    ensures { HasFate keeps_cookies (validation_seen validation.entry) variant.old result variant.new }
{
    let alloc = variant.fields.alloc();
    match identifies(alloc, variant, validation.forward, validation.head) {
        Err(_) => Fate::Goes,
        Ok(false) => Fate::Stays,
        Ok(true) => freshen_identified(variant, validation, keeps_cookies),
    }
}

/// Freshens a variant that the 304 is about.
fn freshen_identified(
    variant: &mut Stored,
    validation: NotModified<'_>,
    keeps_cookies: bool,
) -> Fate
    requires in_time { validation.response_time < end_of_moments }
    requires is_about_it { is_validated (validation_seen validation) variant.old ≡ true }
    ensures { HasFate keeps_cookies (validation_seen validation.entry) variant.old result variant.new }
{
    let freshened = variant.freshen(
        validation.head,
        validation.request_time,
        validation.response_time,
        validation.position,
    );
    if freshened.is_ok() && may_become(keeps_cookies, variant) {
        Fate::Freshened
    } else {
        Fate::Goes
    }
}

/// Freshens the variants that the 304 is about, and removes those that found no memory or may not be what
/// they became. Returns whether one was freshened.
pub(crate) fn freshen_all(
    variants: &mut Vec<Stored>,
    validation: NotModified<'_>,
    keeps_cookies: bool,
) -> bool
    requires { validation.response_time < end_of_moments }
    ensures { IsLeft keeps_cookies (validation_seen validation.entry) variants.old.items result variants.new.items }
{
    let mut freshened = false;
    let mut place = variants.len();
    while place > 0 {
        place -= 1;
        match freshen_variant(&mut variants[place], validation, keeps_cookies) {
            Fate::Stays => {}
            Fate::Freshened => freshened = true,
            Fate::Goes => drop(variants.remove(place)),
        }
    }
    freshened
}
