//! Dates in fields (RFC 9110 section 5.6.7). A moment is a count of seconds since 1 January 1970.

ghost use Rattle.std.specs.Prelude.{◌≡◌, ◌<◌, IfSome, Some};
ghost use Rattle.hc_fields.specs.Numbers.{end_of_moments};
ghost use Rattle.hc_fresh.specs.Dates.{date_of, imf_fixdate_at};

use httpdate::HttpDate;

/// The moment of a date in any of the three formats, with no white space around it. A year of two
/// digits lies from 1970 to 2069.
pub fn read_date(value: &[u8]) -> Option<u64>
    ensures gives { result ≡ date_of value.now }
    ensures limit { IfSome result (λ moment. moment < end_of_moments) }
{
    let date = HttpDate::parse_ascii(value).ok()?;
    Some(date.unix_secs())
}

/// The date of a moment before the year 10000, as IMF-fixdate.
pub fn date_text(moment: u64) -> [u8; 29]
    requires { moment < end_of_moments }
    ensures gives { result ≡ imf_fixdate_at moment }
    ensures read_back { date_of result ≡ Some moment }
{
    HttpDate::from_unix_secs(moment).unwrap().to_bytes()
}
