//! What a cache is asked to be.

ghost use Rattle.std.specs.Prelude.{◌≡◌};
ghost use Rattle.std.specs.List.{list_all};
ghost use Rattle.hc_service.specs.Settings.{is_name, is_name_octet, is_room, is_size};

use hc_fields::Octets;

/// What a cache is asked to be.
#[derive(Drop)]
pub struct CoreSettings {
    /// The name by which it calls itself in Via and in Cache-Status: a letter, and then at most 31
    /// letters, digits, `-`, `_` and `.`.
    pub name: Octets,
    /// How many targets it keeps responses of at most, from 1 to 65,536.
    pub keys: usize,
    /// How many octets the stored responses have at most, bodies and lines together.
    pub bytes: u64,
}

/// The most targets of which responses are kept.
const MOST_KEYS: usize = 65_536;

/// The most connections for which there may be room.
const MOST_ROOM: usize = 65_536;

/// For how many connections a cache has room where nothing else is said.
const USUAL_ROOM: usize = 1_024;

/// What may be asked of a cache beside its settings.
#[derive(Clone, Copy)]
pub struct CoreOptions {
    /// For how many connections that are open it has room, from 1 to 65,536.
    pub connections: usize,
    /// Whether it stores responses that set a cookie, by a Set-Cookie line, where they may be stored.
    pub keeps_cookies: bool,
}

impl CoreOptions {
    ghost use Rattle.std.specs.Prelude.{◌≡◌};
    ghost use Rattle.hc_service.specs.State.{usual_options};

    /// Those where nothing else is said.
    pub fn usual() -> Self
        ensures { result ≡ usual_options }
    {
        CoreOptions {
            connections: USUAL_ROOM,
            keeps_cookies: true,
        }
    }
}

fn is_name_octet(octet: u8) -> bool
    ensures { result ≡ is_name_octet octet }
{
    octet.is_ascii_alphanumeric() || octet == b'-' || octet == b'_' || octet == b'.'
}

fn has_name_octets(text: &[u8]) -> bool
    ensures { result ≡ list_all is_name_octet text.now }
{
    text.iter().all(|octet| is_name_octet(*octet))
}

/// Whether a cache may have that name: a letter, and then at most 31 letters, digits, `-`, `_` and `.`.
pub fn is_name(name: &[u8]) -> bool
    ensures { result ≡ is_name name.now }
{
    match name.split_first() {
        None => false,
        Some((first, rest)) => {
            first.is_ascii_alphabetic() && rest.len() <= 31 && has_name_octets(rest)
        }
    }
}

/// Whether responses of so many targets may be kept.
pub fn is_size(keys: usize) -> bool
    ensures { result ≡ is_size keys }
{
    1 <= keys && keys <= MOST_KEYS
}

/// Whether a cache may have room for so many connections that are open.
pub fn is_room(connections: usize) -> bool
    ensures { result ≡ is_room connections }
{
    1 <= connections && connections <= MOST_ROOM
}
