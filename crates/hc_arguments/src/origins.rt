//! Which texts name an origin.

ghost use Rattle.std.specs.Prelude.{◌≡◌, ◌==◌, ◌&&◌};
ghost use Rattle.std.specs.Str.Parse.{without_leading_plus};
ghost use Rattle.hc_arguments.specs.Origins.{ends_in_port_zero, is_origin, writes_zero};

use hc_fields::decimal;

/// Whether that may be an origin's host and port: port 0 is none, since nothing can connect to it.
pub(crate) fn is_origin(text: &str) -> bool
    ensures { result ≡ is_origin text.now }
{
    !ends_in_port_zero(text.as_bytes())
}

/// Whether nothing but port 0 stands behind a colon.
fn ends_in_port_zero(text: &[u8]) -> bool
    ensures { result ≡ ends_in_port_zero text.now }
{
    let mut left = text;
    'octets: while let Some((octet, rest)) = left.split_first() {
        if is_port_zero(*octet, rest) {
            return true;
        }
        left = rest;
    }
    false
}

/// Whether that octet is a colon, and port 0 all that is behind it.
fn is_port_zero(octet: u8, rest: &[u8]) -> bool
    ensures { result ≡ (octet == 58 && writes_zero rest.now) }
{
    octet == b':' && writes_zero(rest)
}

/// Whether these are digits that write 0, perhaps behind a plus.
fn writes_zero(text: &[u8]) -> bool
    ensures { result ≡ writes_zero text.now }
{
    match decimal(without_plus(text)) {
        Some(number) => number == 0,
        None => false,
    }
}

/// The octets behind a plus that they begin with, or all of them.
fn without_plus(text: &[u8]) -> &[u8]
    ensures { result.now ≡ without_leading_plus text.now }
{
    match text.split_first() {
        Some((octet, rest)) if *octet == b'+' => rest,
        Some(_) => text,
        None => text,
    }
}
