//! What is told of by which token.

ghost use Rattle.std.specs.Prelude.{◌≡◌, ◌+◌, ◌*◌, ◌<◌, IfSome};

use mio::Token;

/// So many kinds of sources are told apart.
const KINDS: u64 = 8;

/// The kind of clients' links. A listener has kind 0.
const CLIENT: u64 = 1;

/// The kind of links to the origin.
const ORIGIN: u64 = 2;

/// The kind of guests' links.
const GUEST: u64 = 3;

/// The kind of the sockets to which those connect who watch.
const LOOKOUT: u64 = 4;

/// The kind of links of those who watch.
const WATCHER: u64 = 5;

/// So many links can be begun for a forward.
const ATTEMPTS: u64 = 64;

/// Of what something is told. No two have one token.
#[derive(Clone, Copy)]
pub(crate) enum Source {
    /// The listener at that place.
    Listener(u64),
    /// The socket at that place to which those connect who watch.
    Lookout(u64),
    /// The link of that number of one who watches.
    Watcher(u64),
    /// The link of the guest of that number.
    Guest(u64),
    /// The link of the client of that number.
    Client(u64),
    /// The link that was begun for the forward of that number, by that attempt.
    Origin(u64, u32),
}

impl Source {
    ghost use Rattle.hc_sockets.specs.Tokens.{source_of};

    /// Its token; none for numbers that are too large to be told apart.
    pub(crate) fn token(self) -> Option<Token>
        ensures { IfSome result (λ token. source_of token.0 ≡ self) }
    {
        match self {
            Source::Listener(place) => packed(place, 0),
            Source::Lookout(place) => packed(place, LOOKOUT),
            Source::Watcher(number) => packed(number, WATCHER),
            Source::Guest(number) => packed(number, GUEST),
            Source::Client(number) => packed(number, CLIENT),
            Source::Origin(forward, attempt) => packed(link_number(forward, attempt)?, ORIGIN),
        }
    }

    /// That of a token.
    pub(crate) fn of(token: Token) -> Source
        ensures { result ≡ source_of token.0 }
    {
        let number = token.0 as u64 / KINDS;
        match token.0 as u64 % KINDS {
            CLIENT => Source::Client(number),
            ORIGIN => Source::Origin(number / ATTEMPTS, (number % ATTEMPTS) as u32),
            GUEST => Source::Guest(number),
            LOOKOUT => Source::Lookout(number),
            WATCHER => Source::Watcher(number),
            _ => Source::Listener(number),
        }
    }
}

/// The token of a number of that kind.
fn packed(number: u64, kind: u64) -> Option<Token>
    ensures { IfSome result (λ token. token.0 ≡ number * 8 + kind) }
{
    let token = number.checked_mul(KINDS)?.checked_add(kind)?;
    Some(Token(token as usize))
}

/// A number for each link that is begun for a forward.
fn link_number(forward: u64, attempt: u32) -> Option<u64>
    ensures { IfSome result (λ number. (number ≡ forward * 64 + attempt) × (attempt < 64)) }
{
    let attempt = u64::from(attempt);
    if attempt >= ATTEMPTS {
        return None;
    }
    forward.checked_mul(ATTEMPTS)?.checked_add(attempt)
}
