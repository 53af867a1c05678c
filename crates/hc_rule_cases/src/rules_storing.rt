//! Storing, selecting and validating.

use crate::blocks::fields_of_block;
use crate::rules_describing::optional;
use crate::starts::{method_of, status_of};
use hc_cases::{Case, Unanswered, yes_or_no};
use hc_fields::{Fields, Octets};
use hc_head::{RequestHead, ResponseHead, StatusCode, Version};
use hc_rules::{
    Validator, asks_for_storable, client_condition, last_modified, may_store, selects, tag,
    validator,
};
use std::alloc::{AllocError, Global};

/// Answers a question of storing, selecting or validating.
pub fn answer(case: &Case<'_>, out: &mut String) -> Result<(), Unanswered> {
    match case.about {
        [block] => validated(case.alloc, block, out),
        [vary, forwarded, presented] if case.question == "selects" => {
            selected(case.alloc, vary, forwarded, presented, out)
        }
        [presented, status, answered] => condition(case.alloc, presented, status, answered, out),
        [method, asked, status, answered] => {
            let forward = request(case.alloc, method, asked);
            storable(case.alloc, forward, status, answered, out)
        }
        _ => Err(Unanswered::Unknown),
    }
}

fn request(alloc: Global, method: &[u8], block: &[u8]) -> Result<RequestHead, Unanswered> {
    let fields = fields_of_block(alloc, block)?;
    let target = Octets::from_slice(alloc, b"/a")?;
    let method = method_of(alloc, method)?;
    Ok(RequestHead {
        method,
        target,
        version: Version::Http11,
        fields,
    })
}

fn response(alloc: Global, status: &[u8], block: &[u8]) -> Result<ResponseHead, Unanswered> {
    let status = status_of(status)?;
    Ok(ResponseHead {
        status,
        version: Version::Http11,
        fields: fields_of_block(alloc, block)?,
    })
}

fn storable(
    alloc: Global,
    forward: Result<RequestHead, Unanswered>,
    status: &[u8],
    answered: &[u8],
    out: &mut String,
) -> Result<(), Unanswered> {
    let forward = forward?;
    let response = response(alloc, status, answered)?;
    Ok(stored(&forward, &response, out)?)
}

fn stored(
    forward: &RequestHead,
    response: &ResponseHead,
    out: &mut String,
) -> Result<(), AllocError> {
    out.push_str("asked for: ")?;
    yes_or_no(asks_for_storable(forward), out)?;
    out.push_str("; stored: ")?;
    yes_or_no(may_store(forward, response), out)
}

fn selected(
    alloc: Global,
    vary: &[u8],
    forwarded: &[u8],
    presented: &[u8],
    out: &mut String,
) -> Result<(), Unanswered> {
    let vary = fields_of_block(alloc, vary)?;
    Ok(selected_from(alloc, &vary, forwarded, presented, out)?)
}

fn selected_from(
    alloc: Global,
    fields: &Fields,
    forwarded: &[u8],
    presented: &[u8],
    out: &mut String,
) -> Result<(), AllocError> {
    let forwarded = fields_of_block(alloc, forwarded)?;
    selected_by(alloc, fields, &forwarded, presented, out)
}

fn selected_by(
    alloc: Global,
    fields: &Fields,
    forwarded: &Fields,
    presented: &[u8],
    out: &mut String,
) -> Result<(), AllocError> {
    let presented = fields_of_block(alloc, presented)?;
    let is = selects(alloc, fields, forwarded, &presented);
    drop(presented);
    yes_or_no(is?, out)
}

fn validated(alloc: Global, block: &[u8], out: &mut String) -> Result<(), Unanswered> {
    let fields = fields_of_block(alloc, block)?;
    Ok(validated_by(&fields, out)?)
}

// Writes the entity-tag, the date, and which of them validates.
fn validated_by(fields: &Fields, out: &mut String) -> Result<(), AllocError> {
    out.push_str("tag ")?;
    optional(tag(fields), out)?;
    out.push_str("; date ")?;
    optional(last_modified(fields), out)?;
    match validator(fields) {
        Validator::Tag(value) => by("; by the tag ", value, out),
        Validator::Modified(value) => by("; by the date ", value, out),
        Validator::Neither => out.push_str("; by neither"),
    }
}

fn by(what: &str, value: &[u8], out: &mut String) -> Result<(), AllocError> {
    out.push_str(what)?;
    optional(Some(value), out)
}

fn condition(
    alloc: Global,
    presented: &[u8],
    status: &[u8],
    answered: &[u8],
    out: &mut String,
) -> Result<(), Unanswered> {
    let status = status_of(status)?;
    Ok(condition_of(alloc, presented, status, answered, out)?)
}

fn condition_of(
    alloc: Global,
    presented: &[u8],
    status: StatusCode,
    answered: &[u8],
    out: &mut String,
) -> Result<(), AllocError> {
    let presented = fields_of_block(alloc, presented)?;
    let answered = fields_of_block(alloc, answered)?;
    yes_or_no(client_condition(&presented, status, &answered), out)
}
