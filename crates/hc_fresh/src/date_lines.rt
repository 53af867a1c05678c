//! The Date of a response (RFC 9110 section 6.6.1).

ghost use Rattle.std.specs.Prelude.{◌≡◌, ◌<◌, IfOk};
ghost use Rattle.hc_fields.specs.Numbers.{end_of_moments};
ghost use Rattle.hc_fresh.specs.DateLines.{date_stated, date_line, dated};

use crate::dates::{date_text, read_date};
use hc_fields::{Field, Fields, FieldsView, Lines, Octets};
use std::alloc::{AllocError, Global};

/// The moment of the Date, where there is exactly one Date line and it is a date.
pub fn date_stated<L: Lines>(fields: &L) -> Option<u64>
    ensures { result ≡ date_stated (L.lines fields.now) }
{
    date_in(&fields.lent())
}

fn date_in(fields: &FieldsView<'_>) -> Option<u64>
    ensures { result ≡ date_stated fields.now }
{
    read_date(fields.only(b"date")?)
}

/// A Date line of that moment.
fn date_line(alloc: Global, moment: u64) -> Result<Field, AllocError>
    requires { moment < end_of_moments }
    ensures { IfOk result (λ line. line ≡ date_line moment) }
{
    Ok(Field {
        name: Octets::from_slice(alloc, b"date")?,
        value: Octets::from_slice(alloc, date_text(moment).as_slice())?,
    })
}

/// The fields with exactly one Date: where they state none, their Date lines are removed, and a line
/// of that moment, which lies before the year 10000, follows the others.
pub fn dated(fields: Fields, moment: u64) -> Result<Fields, AllocError>
    requires { moment < end_of_moments }
    ensures { IfOk result (λ f. f ≡ dated moment fields) }
{
    if date_stated(&fields).is_some() {
        return Ok(fields);
    }
    let mut fields = fields;
    let line = date_line(fields.alloc(), moment)?;
    fields.remove(b"date");
    fields.push(line)?;
    Ok(fields)
}
