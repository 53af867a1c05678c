//! Dates, ages and lifetimes.

use crate::blocks::fields_of_block;
use crate::rules_describing::lines;
use crate::rules_parts::{moment, number, seconds};
use hc_cases::{Case, Unanswered, show, yes_or_no};
use hc_fields::Fields;
use hc_fresh::{
    Times, age_value, current_age, date_stated, date_text, dated, explicit, fresh, lifetime,
    read_date, stale_forbidden, staleness,
};
use std::alloc::{AllocError, Global};
use std::fmt::Write;

/// Answers a question of dates, ages or lifetimes.
pub fn answer(case: &Case<'_>, out: &mut String) -> Result<(), Unanswered> {
    match case.about {
        [one] if case.question == "date" => date(one, out),
        [one] => aged(case.alloc, one, out),
        [first, second] => answer_of_two(case, first, second, out),
        [date, age, request, response, now] => {
            age_at(times(date, age, request, response), now, out)
        }
        _ => Err(Unanswered::Unknown),
    }
}

fn answer_of_two(
    case: &Case<'_>,
    first: &[u8],
    second: &[u8],
    out: &mut String,
) -> Result<(), Unanswered> {
    match case.question {
        "lifetime" => lasting(case.alloc, first, second, out),
        "fresh" => compared(first, second, out),
        _ => with_date(case.alloc, first, second, out),
    }
}

// Writes the moment that a text is, and the date of that moment.
fn date(text: &[u8], out: &mut String) -> Result<(), Unanswered> {
    let Some(found) = read_date(text) else {
        return Ok(out.push_str("none")?);
    };
    write!(out, "{found}")?;
    if found >= 253_402_300_800 {
        return Ok(());
    }
    out.push_str(", ")?;
    Ok(show(&date_text(found), out)?)
}

fn lasting(alloc: Global, date: &[u8], block: &[u8], out: &mut String) -> Result<(), Unanswered> {
    let date = number(date)?;
    let fields = fields_of_block(alloc, block)?;
    Ok(lasts(&fields, date, out)?)
}

fn lasts(fields: &Fields, date: u64, out: &mut String) -> Result<(), AllocError> {
    let count = lifetime(fields, date);
    write!(out, "{count}; stated: ")?;
    yes_or_no(explicit(fields), out)?;
    out.push_str("; never stale: ")?;
    yes_or_no(stale_forbidden(fields), out)
}

fn aged(alloc: Global, block: &[u8], out: &mut String) -> Result<(), Unanswered> {
    let fields = fields_of_block(alloc, block)?;
    let count = age_value(&fields);
    Ok(write!(out, "{count}")?)
}

fn times(date: &[u8], age: &[u8], request: &[u8], response: &[u8]) -> Result<Times, Unanswered> {
    Ok(Times {
        date: number(date)?,
        age_value: seconds(age)?,
        request_time: number(request)?,
        response_time: number(response)?,
    })
}

fn age_at(
    times: Result<Times, Unanswered>,
    now: &[u8],
    out: &mut String,
) -> Result<(), Unanswered> {
    let age = current_age(times?, number(now)?);
    Ok(write!(out, "{age}")?)
}

fn compared(lifetime: &[u8], age: &[u8], out: &mut String) -> Result<(), Unanswered> {
    let (lifetime, age) = (seconds(lifetime)?, seconds(age)?);
    yes_or_no(fresh(lifetime, age), out)?;
    let count = staleness(lifetime, age);
    Ok(write!(out, ", stale by {count}")?)
}

// Writes the date that the fields state, and the fields with exactly one date.
fn with_date(alloc: Global, now: &[u8], block: &[u8], out: &mut String) -> Result<(), Unanswered> {
    let now = moment(now)?;
    let fields = fields_of_block(alloc, block)?;
    let date = date_stated(&fields);
    let fields = dated(fields, now)?;
    Ok(both_dates(date, &fields, out)?)
}

fn both_dates(date: Option<u64>, fields: &Fields, out: &mut String) -> Result<(), AllocError> {
    stated(date, out)?;
    out.push_str("; ")?;
    stated(date_stated(fields), out)?;
    out.push_str("; ")?;
    lines(fields, out)
}

fn stated(date: Option<u64>, out: &mut String) -> Result<(), AllocError> {
    match date {
        Some(date) => write!(out, "{date}"),
        None => out.push_str("none"),
    }
}
