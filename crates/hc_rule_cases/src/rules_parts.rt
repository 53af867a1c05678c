//! What the parts of a case of rules say.
ghost use Rattle.std.specs.Prelude.{◌<◌, ◌^◌, IfOk};

use hc_cases::Unanswered;
use hc_fields::decimal;

/// A number that a text writes in decimal digits, or the greatest one for `max`.
pub fn number(text: &[u8]) -> Result<u64, Unanswered> {
    if text == b"max".as_slice() {
        return Ok(u64::MAX);
    }
    decimal(text).ok_or(Unanswered::Unknown)
}

/// The same, of 32 bits.
pub fn seconds(text: &[u8]) -> Result<u32, Unanswered> {
    if text == b"max".as_slice() {
        return Ok(u32::MAX);
    }
    u32::try_from(number(text)?).map_err(|_| Unanswered::Unknown)
}

/// The same, of a moment before the year 10000.
pub fn moment(text: &[u8]) -> Result<u64, Unanswered>
    ensures { IfOk result (λ moment. moment < 253_402_300_800) }
{
    let moment = number(text)?;
    if moment >= 253_402_300_800 {
        return Err(Unanswered::Unknown);
    }
    Ok(moment)
}
