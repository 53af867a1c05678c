//! The line of the settings.

ghost use Rattle.std.specs.Prelude.{ℕ, IfSome, IfNone, IfOk, IfErr};
ghost use Rattle.hc_scripts.specs.Scripts.{IsSettingsLine};
ghost use Rattle.hc_scripts.specs.ScriptFaults.{IsLineOfSettings, LineBreaks};
ghost use Rattle.hc_scripts.specs.ScriptParts.{BeginsSettings};

use crate::fault::ScriptFault;
use crate::first_line::first_line;
use crate::limits::{GREATEST_COUNT, GREATEST_KEYS};
use crate::numeral::{numeral, numeral_before_space};
use crate::splitting::split_at_mark;

/// How large the store of a cache may be.
#[derive(Clone, Copy)]
pub(crate) struct StoreSize {
    pub keys: u64,
    pub bytes: u64,
}

/// The settings that the text says, without its line feed.
fn parse_settings(text: &[u8]) -> Option<StoreSize>
    ensures found { IfSome result (λ size. IsSettingsLine text.now size.keys size.bytes) }
    ensures none { IfNone result ((keys bytes : ℕ) → ¬ (IsSettingsLine text.now keys bytes)) }
{
    let (word, rest) = split_at_mark(text, b' ')?;
    if word != b"settings".as_slice() {
        return None;
    }
    let (keys, rest) = numeral_before_space(rest, GREATEST_KEYS)?;
    let bytes = numeral(rest, GREATEST_COUNT)?;
    Some(StoreSize { keys, bytes })
}

/// The settings whose line begins the octets, and what stands behind it.
pub(crate) fn read_settings(octets: &[u8]) -> Result<(StoreSize, &[u8]), ScriptFault>
    ensures ok { IfOk result (λ parts. BeginsSettings octets.now parts.0.keys parts.0.bytes parts.1.now) }
    ensures err { IfErr result (λ f. LineBreaks IsLineOfSettings f octets.now) }
{
    let (text, behind) = first_line(octets)?;
    match parse_settings(text) {
        Some(size) => Ok((size, behind)),
        None => Err(ScriptFault::Line),
    }
}
