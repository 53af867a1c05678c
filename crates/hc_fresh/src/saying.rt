//! What Cache-Control says among fields (RFC 9111 section 5.2).

ghost use Rattle.std.specs.Prelude.{◌≡◌};
ghost use Rattle.hc_fresh.specs.Lifetimes.{says, seconds_said};

use hc_directives::{Directives, Seconds};
use hc_fields::Lines;

/// Whether there is a directive of that name, whatever its argument.
pub fn says<L: Lines>(name: &[u8], fields: &L) -> bool
    ensures { result ≡ says name.now (L.lines fields.now) }
{
    Directives::read(fields).has(name)
}

/// The seconds that the first directive of that name says.
pub fn seconds_said<L: Lines>(name: &[u8], fields: &L) -> Seconds
    ensures { result ≡ seconds_said name.now (L.lines fields.now) }
{
    Directives::read(fields).seconds(name)
}
