//! What holds of a moment from which on a response is stale.

ghost use Rattle.std.specs.Prelude.{◌≡◌, ◌<◌, ◌≤◌, ◌+◌, ◌^◌, ℕ, nat_lt};
ghost use Rattle.hc_fields.specs.Numbers.{largest_number};
ghost use Rattle.hc_fresh.specs.Ages.{current_age, fresh};
ghost use Rattle.hc_fresh.specs.declared.ages.Times.{Times};
ghost use Rattle.hc_timelines.specs.Standings.{stale_from};

/// A response is fresh at a moment since it came exactly if that is before the one from which on it is stale.
pub fn stale_from_is_when()
    ensures { (lifetime now : ℕ) (times : Times) → lifetime ≤ largest_number → times.response_time + lifetime < 2 ^ 64 → times.response_time ≤ now
        → fresh lifetime (current_age times now) ≡ nat_lt now (stale_from lifetime times) }
{}
