//! What a parse found of a row.

ghost use Rattle.std.specs.Prelude.{◌≡◌, IfOk, IfErr, None, Some};
ghost use Rattle.clap.specs.Words.{first_value, found_of};
ghost use Rattle.hc_options.specs.Values.{count_by, count_or_zero, flag_by, number_by, number_or};
ghost use Rattle.hc_options.specs.declared.refusal.Refusal.TheVariants.{Missing, Value};

use crate::refusal::Refusal;
use crate::rows::Row;
use crate::values;
use crate::values::{flag_by, number_of};
use clap::ArgMatches;

/// The value of that name, which has to be there.
pub fn required<'a>(found: &ArgMatches<'a>, name: &str) -> Result<&'a str, Refusal>
    ensures ok { IfOk result (λ text. first_value (found_of found.now) name.now ≡ Some text.now) }
    ensures err { IfErr result (λ refusal. (refusal ≡ Missing) × (first_value (found_of found.now) name.now ≡ None)) }
{
    match found.get_str(name) {
        Some(text) => Ok(text),
        None => Err(Refusal::Missing),
    }
}

/// Whether the flag of that name was given.
pub fn flag_in(found: &ArgMatches<'_>, name: &str) -> bool
    ensures { result ≡ flag_by (first_value (found_of found.now) name.now) }
{
    flag_by(found.get_str(name))
}

/// The number of a row that takes numbers or sizes, if it is given.
pub fn number_if_given(found: &ArgMatches<'_>, row: &'static Row) -> Result<Option<u64>, Refusal>
    ensures ok { IfOk result (λ number. number_by row.now.takes (first_value (found_of found.now) row.now.name.now) ≡ Some number) }
    ensures err { IfErr result (λ refusal. (refusal ≡ Value row.entry)
        × (number_by row.now.takes (first_value (found_of found.now) row.now.name.now) ≡ None)) }
{
    let Some(text) = found.get_str(row.name) else {
        return Ok(None);
    };
    match number_of(row.takes, text.as_bytes()) {
        Some(number) => Ok(Some(number)),
        None => Err(Refusal::Value(row)),
    }
}

/// The same, or the usual number without it.
pub fn number_or(found: &ArgMatches<'_>, row: &'static Row, usual: u64) -> Result<u64, Refusal>
    ensures ok { IfOk result (λ number. number_or row.now.takes usual (first_value (found_of found.now) row.now.name.now) ≡ Some number) }
    ensures err { IfErr result (λ refusal. (refusal ≡ Value row.entry)
        × (number_or row.now.takes usual (first_value (found_of found.now) row.now.name.now) ≡ None)) }
{
    let Some(text) = found.get_str(row.name) else {
        return Ok(usual);
    };
    match number_of(row.takes, text.as_bytes()) {
        Some(number) => Ok(number),
        None => Err(Refusal::Value(row)),
    }
}

/// The seconds of a row, or whatever else is counted, and 0 without it.
pub(crate) fn count_or_zero(found: &ArgMatches<'_>, row: &'static Row) -> Result<u32, Refusal>
    ensures ok { IfOk result (λ count. count_or_zero (first_value (found_of found.now) row.now.name.now) ≡ Some count) }
    ensures err { IfErr result (λ refusal. (refusal ≡ Value row.entry)
        × (count_or_zero (first_value (found_of found.now) row.now.name.now) ≡ None)) }
{
    match values::count_or_zero(found.get_str(row.name)) {
        Some(count) => Ok(count),
        None => Err(Refusal::Value(row)),
    }
}

/// The same, if it is given.
pub(crate) fn count_if_given(
    found: &ArgMatches<'_>,
    row: &'static Row,
) -> Result<Option<u32>, Refusal>
    ensures ok { IfOk result (λ count. count_by (first_value (found_of found.now) row.now.name.now) ≡ Some count) }
    ensures err { IfErr result (λ refusal. (refusal ≡ Value row.entry)
        × (count_by (first_value (found_of found.now) row.now.name.now) ≡ None)) }
{
    match values::count_by(found.get_str(row.name)) {
        Some(count) => Ok(count),
        None => Err(Refusal::Value(row)),
    }
}
