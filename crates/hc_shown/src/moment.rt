//! Moments.

ghost use Rattle.std.specs.Prelude.{◌≡◌, ◌++◌, OnOk, codes, string_bytes};
ghost use Rattle.hc_shown.specs.Moments.{AddsMoment, date_text, date_time_text, time_text};

use jiff_core::civil::{Date, DateTime, Time};
use std::alloc::AllocError;
use std::fmt::Write;

fn push_date(date: Date, out: &mut String) -> Result<(), AllocError>
    ensures { OnOk result (string_bytes out.new ≡ string_bytes out.old ++ date_text date) }
{
    let (year, month, day) = (date.year, date.month, date.day);
    write!(out, "{year:04}-{month:02}-{day:02}")
}

fn push_time(time: Time, out: &mut String) -> Result<(), AllocError>
    ensures { OnOk result (string_bytes out.new ≡ string_bytes out.old ++ (codes " " ++ time_text time)) }
{
    let (hour, minute, second) = (time.hour, time.minute, time.second);
    write!(out, " {hour:02}:{minute:02}:{second:02}")
}

fn push_date_time(at: DateTime, out: &mut String) -> Result<(), AllocError>
    ensures { OnOk result (string_bytes out.new ≡ string_bytes out.old ++ date_time_text at) }
{
    push_date(at.date, out)?;
    push_time(at.time, out)
}

/// Puts a moment, in seconds since 1970, at the end, as `2026-11-22 05:57:43` in UTC. One behind the year 9999 is
/// shown as the number of its seconds.
pub fn push_moment(moment: u64, out: &mut String) -> Result<(), AllocError>
    ensures { OnOk result (AddsMoment moment (string_bytes out.old) (string_bytes out.new)) }
{
    match DateTime::from_nanosecond(i128::from(moment) * 1_000_000_000) {
        Ok(at) => push_date_time(at, out),
        Err(_) => write!(out, "{moment}"),
    }
}
