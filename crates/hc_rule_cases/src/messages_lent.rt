//! Messages that are read where they lie: the slices that a body is lent in, and rules that read fields which are lent as they
//! read those that are owned.

use crate::rules_states::{request, unread};
use hc_cases::{Case, Unanswered, show};
use hc_directives::Directives;
use hc_fields::{Fields, Lines, Octets};
use hc_framing::{Message, Places, ResponseView, whole_response};
use hc_fresh::{age_value, date_stated, explicit, lifetime, says, seconds_said, stale_forbidden};
use hc_head::{ResponseHead, StatusCode, Target};
use hc_rules::{
    Validator, client_condition, conditional_request, is_met, last_modified, selects, tag,
    validator,
};
use hc_status::{mark, read_list};
use std::alloc::{AllocError, Global};

/// Answers a question of the octets of a response to GET that is lent.
pub fn answer(case: &Case<'_>, out: &mut String) -> Result<(), Unanswered> {
    let [octets] = case.about else {
        return Err(Unanswered::Unknown);
    };
    let mut places = Places::new(case.alloc);
    if let Err(fault) = places.find_response(octets.as_slice(), false) {
        return Err(unread(fault));
    }
    let lent = places.response(octets.as_slice());
    if case.question == "slices" {
        return Ok(slices(&lent, out)?);
    }
    match whole_response(case.alloc, octets.as_slice(), false) {
        Ok(owned) => both(case.alloc, &owned, &lent, out),
        Err(fault) => Err(unread(fault)),
    }
}

// Writes the slices in which the body is lent that have octets.
fn slices(lent: &ResponseView<'_>, out: &mut String) -> Result<(), AllocError> {
    let mut is_first = true;
    for slice in lent.body.slices() {
        if !slice.is_empty() {
            out.push_str(if is_first { "" } else { "; " })?;
            show(slice, out)?;
            is_first = false;
        }
    }
    Ok(())
}

// Writes what rules tell of the fields, if they tell the same where these are lent.
fn both(
    alloc: Global,
    owned: &Message<ResponseHead>,
    lent: &ResponseView<'_>,
    out: &mut String,
) -> Result<(), Unanswered> {
    let one = told(alloc, &owned.head.fields)?;
    let other = told(alloc, &lent.head.fields)?;
    if one.as_str() != other.as_str() {
        out.push_str("other answers: ")?;
    }
    Ok(out.push_str(other.as_str())?)
}

// What rules tell of fields, a word each.
fn told<L: Lines>(alloc: Global, fields: &L) -> Result<String, Unanswered> {
    let mut told = String::new(alloc);
    tell_freshness(fields, &mut told)?;
    tell_validators(fields, &mut told)?;
    tell_selecting(alloc, fields, &mut told)?;
    tell_forwarding(alloc, fields, &mut told)?;
    Ok(told)
}

fn flag(name: &str, is: bool, told: &mut String) -> Result<(), AllocError> {
    if !is {
        return Ok(());
    }
    if !told.is_empty() {
        told.push_str(" ")?;
    }
    told.push_str(name)
}

fn tell_freshness<L: Lines>(fields: &L, told: &mut String) -> Result<(), AllocError> {
    let known = Directives::read(fields).known();
    flag("no-store", known.no_store, told)?;
    flag("no-cache", says(b"no-cache", fields), told)?;
    flag("max-age", seconds_said(b"max-age", fields).is_there(), told)?;
    flag("aged", age_value(fields) > 0, told)?;
    flag("dated", date_stated(fields).is_some(), told)?;
    flag("explicit", explicit(fields), told)?;
    flag("lasting", lifetime(fields, 1_000) > 0, told)?;
    flag("never-stale", stale_forbidden(fields), told)
}

fn tell_validators<L: Lines>(fields: &L, told: &mut String) -> Result<(), AllocError> {
    flag("tag", tag(fields).is_some(), told)?;
    flag("modified", last_modified(fields).is_some(), told)?;
    let has_one = !matches!(validator(fields), Validator::Neither);
    flag("validator", has_one, told)?;
    let earns = client_condition(fields, StatusCode::OK, fields);
    flag("condition", earns, told)
}

fn tell_selecting<L: Lines>(
    alloc: Global,
    fields: &L,
    told: &mut String,
) -> Result<(), AllocError> {
    let none = Fields::new(alloc);
    flag("selects", selects(alloc, fields, &none, &none)?, told)?;
    flag("met", is_met(alloc, b"etag", fields, &none)?, told)?;
    flag("listed", read_list(alloc, fields).is_ok(), told)?;
    flag("marked", mark(alloc, fields).is_ok(), told)
}

fn tell_forwarding<L: Lines>(
    alloc: Global,
    fields: &L,
    told: &mut String,
) -> Result<(), Unanswered> {
    let target = Target {
        host: Octets::from_slice(alloc, b"h")?,
        path: Octets::from_slice(alloc, b"/a")?,
    };
    let received = request(alloc, b"GET", b"")?;
    let asked = conditional_request(alloc, b"hcache", &target, &received, fields)?;
    Ok(flag("asks", asked.fields.contains(b"if-none-match"), told)?)
}
