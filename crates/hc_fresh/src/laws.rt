//! What is written is read back, and what holds of every lifetime and age.

ghost use Rattle.std.specs.Prelude.{◌≡◌, ◌<◌, ◌≤◌, ℕ, Bool, false, List, Some, unwrap_or};
ghost use Rattle.hc_fields.specs.declared.fields.Field.{Field};
ghost use Rattle.hc_fields.specs.Numbers.{end_of_moments, largest_number};
ghost use Rattle.hc_fresh.specs.declared.ages.Times.{Times};
ghost use Rattle.hc_fresh.specs.Dates.{date_of, imf_fixdate_at};
ghost use Rattle.hc_fresh.specs.DateLines.{date_stated, dated};
ghost use Rattle.hc_fresh.specs.Lifetimes.{freshness_lifetime};
ghost use Rattle.hc_fresh.specs.Ages.{age_value, current_age, fresh};

/// The date of a moment before the year 10000, as it is written, is read as that moment.
pub fn written_date_read_back()
    ensures { (moment : ℕ) → moment < end_of_moments
        → date_of (imf_fixdate_at moment) ≡ Some moment }
{}

/// Fields with exactly one Date state it: the date that they stated before, else the moment that
/// was put in its place.
pub fn dated_fields_state_a_date()
    ensures { (fields : List Field) (moment : ℕ) → moment < end_of_moments
        → date_stated (dated moment fields) ≡ Some (unwrap_or (date_stated fields) moment) }
{}

/// No freshness lifetime is over `LARGEST_NUMBER` seconds (RFC 9111 section 1.2.2).
pub fn lifetime_has_a_limit()
    ensures { (fields : List Field) (date : ℕ) → freshness_lifetime fields date ≤ largest_number }
{}

/// No Age tells an age over `LARGEST_NUMBER` seconds.
pub fn age_value_has_a_limit()
    ensures { (fields : List Field) → age_value fields ≤ largest_number }
{}

/// A response that is stale stays so for as long as its times do.
pub fn stale_response_stays_stale()
    ensures { (lifetime : ℕ) (times : Times) (now later : ℕ) → now ≤ later
        → fresh lifetime (current_age times now) ≡ false
        → fresh lifetime (current_age times later) ≡ false }
{}
