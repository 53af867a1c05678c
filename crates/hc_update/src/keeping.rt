//! What is kept of a response (RFC 9111 section 3.1).

ghost use Rattle.std.specs.Prelude.{◌≡◌, ◌<◌, ◌||◌, not, codes, IfOk};
ghost use Rattle.hc_fields.specs.Numbers.{end_of_moments};
ghost use Rattle.std.specs.Str.{bytes_eq};
ghost use Rattle.hc_fields.specs.Connection.{left_out_of_store};
ghost use Rattle.hc_update.specs.States.{kept_lines, stored_fields, times_of};

use hc_fields::Fields;
use hc_fresh::{Times, age_value, date_stated, dated};
use std::alloc::{AllocError, Global};

/// Whether a line of that name is kept.
fn is_kept(received: &Fields, name: &[u8]) -> bool
    ensures { result ≡ not (left_out_of_store name.now received.now || bytes_eq name.now (codes "age")) }
{
    !(received.left_out_of_store(name) || name == b"age".as_slice())
}

/// The lines that are kept.
fn kept_lines(alloc: Global, received: &Fields) -> Result<Fields, AllocError>
    ensures { IfOk result (λ kept. kept ≡ kept_lines received.now) }
{
    let mut kept = Fields::new(alloc);
    for line in received.lines() {
        if is_kept(received, line.name.as_slice()) {
            kept.push(line.copy(alloc)?)?;
        }
    }
    Ok(kept)
}

/// What is kept of the fields of a response, with exactly one Date, and what its age is counted from.
pub(crate) fn kept(
    alloc: Global,
    received: &Fields,
    request_time: u64,
    response_time: u64,
) -> Result<(Fields, Times), AllocError>
    requires { response_time < end_of_moments }
    ensures fields { IfOk result (λ p. p.0 ≡ stored_fields received.now response_time) }
    ensures times { IfOk result (λ p. p.1 ≡ times_of received.now request_time response_time) }
{
    let kept = kept_lines(alloc, received)?;
    let times = Times {
        date: date_stated(&kept).unwrap_or(response_time),
        age_value: age_value(received),
        request_time,
        response_time,
    };
    Ok((dated(kept, response_time)?, times))
}
