//! What the cache is that a command asks for.

ghost use Rattle.std.specs.Prelude.{◌≡◌, IfErr, IfOk, option_map};
ghost use Rattle.clap.specs.Words.{first_value, found_of};
ghost use Rattle.hc_options.specs.Refusals.{Refuses};
ghost use Rattle.hc_arguments.specs.Cache.{AsksCache, name_by, name_of};
ghost use Rattle.hc_arguments.specs.Tables.{caching, taken_by};

use crate::rows::{BYTES, KEYS, NAME};
use clap::ArgMatches;
use hc_fields::Octets;
use hc_options::{Refusal, number_or};
use hc_service::{CoreSettings, is_name};
use std::alloc::{AllocError, Global};

/// The most octets that are kept, without `--bytes`.
const USUAL_BYTES: u64 = 67_108_864;

/// The name of the cache, without `--name`.
const USUAL_NAME: &[u8] = b"hcache";

/// What the cache is that a command asks for, which keeps so many targets without `--keys`.
pub(crate) fn cache_in(
    alloc: Global,
    found: &ArgMatches<'_>,
    usual_keys: u64,
) -> Result<CoreSettings, Refusal>
    ensures ok { IfOk result (AsksCache usual_keys (first_value (found_of found.now))) }
    ensures err { IfErr result (Refuses taken_by caching (first_value (found_of found.now))) }
{
    let keys = number_or(found, &KEYS, usual_keys)?;
    let bytes = number_or(found, &BYTES, USUAL_BYTES)?;
    let Some(name) = name_by(alloc, found.get_str("name"))? else {
        return Err(Refusal::Value(&NAME));
    };
    Ok(CoreSettings {
        name,
        keys: keys as usize,
        bytes,
    })
}

// The name of `--name`, where a cache may have it.
fn name_by(alloc: Global, value: Option<&str>) -> Result<Option<Octets>, AllocError>
    ensures { IfOk result (λ name. name ≡ name_by (option_map (λ text. text.now) value.entry)) }
{
    match value {
        Some(text) => name_of(alloc, text.as_bytes()),
        None => Ok(Some(Octets::from_slice(alloc, USUAL_NAME)?)),
    }
}

// The name, where a cache may have it.
fn name_of(alloc: Global, name: &[u8]) -> Result<Option<Octets>, AllocError>
    ensures { IfOk result (λ taken. taken ≡ name_of name.now) }
{
    if !is_name(name) {
        return Ok(None);
    }
    Ok(Some(Octets::from_slice(alloc, name)?))
}
