ghost use Rattle.std.specs.Prelude.{◌≡◌, ◌<◌, ◌*◌, ◌^◌, ◌+◌};
ghost use Rattle.hc_fields.specs.Numbers.{capped_number, number_of, decimal_of};

/// The largest number of a field, and of seconds: greater ones are read as this one (RFC 9111
/// section 1.2.2).
pub const LARGEST_NUMBER: u32 = 2_147_483_648;

/// The moment at which the year 10000 begins, in seconds since 1970. No date is so late (RFC 9110
/// section 5.6.7).
pub const END_OF_MOMENTS: u64 = 253_402_300_800;

/// Greater decimals are read as this one.
const GREATEST_DECIMAL: u64 = 1_000_000_000_000_000_000;

/// The number that one or more digits write, or the limit where that is less.
fn capped(text: &[u8], limit: u64) -> Option<u64>
    requires { limit * 10 + 10 < 2 ^ 64 }
    ensures { result ≡ capped_number limit text.now }
{
    if text.is_empty() {
        return None;
    }
    let mut value: u64 = 0;
    for digit in text {
        if !digit.is_ascii_digit() {
            return None;
        }
        let next = value * 10 + u64::from(*digit - b'0');
        value = next.min(limit);
    }
    Some(value)
}

/// The number that one or more digits write; a value over `LARGEST_NUMBER` is that number.
pub fn number(text: &[u8]) -> Option<u32>
    ensures { result ≡ number_of text.now }
{
    let value = capped(text, u64::from(LARGEST_NUMBER))?;
    Some(value as u32)
}

/// The number that one or more digits write; a value over 10 ^ 18 is that number.
pub fn decimal(text: &[u8]) -> Option<u64>
    ensures { result ≡ decimal_of text.now }
{
    capped(text, GREATEST_DECIMAL)
}
