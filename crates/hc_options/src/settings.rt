//! The settings by which a command judges.

ghost use Rattle.std.specs.Prelude.{◌≡◌, IfErr, IfOk, Some, codes};
ghost use Rattle.clap.specs.Words.{first_value, found_of};
ghost use Rattle.hc_options.specs.Allowing.{AsksAllowed, normalized_by};
ghost use Rattle.hc_options.specs.Refusals.{Refuses};
ghost use Rattle.hc_options.specs.Rows.{is_taken, judging};
ghost use Rattle.hc_options.specs.Settings.{AsksSettings};
ghost use Rattle.hc_options.specs.Values.{ignored_by};

use crate::allowing::{allow_by, normalized_by};
use crate::finding::{count_if_given, count_or_zero, flag_in};
use crate::refusal::Refusal;
use crate::tables::{AGE_SLACK, ALLOW, DEFAULT_TTL, GRACE, IGNORE, NORMALIZED, SLACK};
use crate::values::{ignored_by, unmarked_by};
use clap::ArgMatches;
use hc_history::{Allowed, FieldNames, Settings};
use std::alloc::Global;

/// By which settings a command judges.
pub fn settings_in(alloc: Global, found: &ArgMatches<'_>) -> Result<Settings, Refusal>
    ensures ok { IfOk result (AsksSettings (first_value (found_of found.now))) }
    ensures err { IfErr result (Refuses is_taken judging (first_value (found_of found.now))) }
{
    let slack = count_or_zero(found, &SLACK)?;
    let ignored = ignored_in(alloc, found)?;
    let unmarked = unmarked_by(found.get_str("errors-only"));
    let allowed = allowed_in(alloc, found)?;
    Ok(Settings {
        slack,
        ignored,
        unmarked,
        allowed,
    })
}

// The names of the fields that aren't compared.
fn ignored_in(alloc: Global, found: &ArgMatches<'_>) -> Result<FieldNames, Refusal>
    ensures ok { IfOk result (λ names. ignored_by (first_value (found_of found.now) (codes "ignore")) ≡ Some names) }
    ensures err { IfErr result (Refuses is_taken judging (first_value (found_of found.now))) }
{
    let Some(names) = ignored_by(alloc, found.get_str("ignore"))? else {
        return Err(Refusal::Value(&IGNORE));
    };
    Ok(names)
}

// What is allowed beside the strict rules.
fn allowed_in(alloc: Global, found: &ArgMatches<'_>) -> Result<Allowed, Refusal>
    ensures ok { IfOk result (AsksAllowed (first_value (found_of found.now))) }
    ensures err { IfErr result (Refuses is_taken judging (first_value (found_of found.now))) }
{
    let Some(words) = allow_by(found.get_str("allow")) else {
        return Err(Refusal::Value(&ALLOW));
    };
    let default_lifetime = count_if_given(found, &DEFAULT_TTL)?;
    let grace = count_if_given(found, &GRACE)?;
    let normalized = normalized_in(alloc, found)?;
    let age_slack = count_or_zero(found, &AGE_SLACK)?;
    let inferred_marks = flag_in(found, "infer-marks");
    Ok(Allowed {
        added_fields: words.added_fields,
        joined_lines: words.joined_lines,
        ranges: words.ranges,
        default_lifetime,
        grace,
        normalized,
        inferred_marks,
        age_slack,
    })
}

// The names of the fields that the cache normalizes.
fn normalized_in(alloc: Global, found: &ArgMatches<'_>) -> Result<FieldNames, Refusal>
    ensures ok { IfOk result (λ names. normalized_by (first_value (found_of found.now) (codes "normalized")) ≡ Some names) }
    ensures err { IfErr result (Refuses is_taken judging (first_value (found_of found.now))) }
{
    let Some(names) = normalized_by(alloc, found.get_str("normalized"))? else {
        return Err(Refusal::Value(&NORMALIZED));
    };
    Ok(names)
}
