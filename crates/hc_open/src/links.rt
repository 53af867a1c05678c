//! What is open at a cache's links.

ghost use Rattle.std.specs.Prelude.{◌≡◌, false, None, []};

use hc_incoming::{RequestReader, ResponseReader};
use hc_service::OpenForward;
use std::alloc::{AllocError, Global};

/// The most octets that stay unread while an exchange awaits its reply.
const MOST_UNREAD: usize = 65_536;

/// A client connection that is open.
#[derive(Drop)]
pub struct Client {
    /// Reads its requests.
    pub reader: RequestReader,
    /// The number of the exchange that awaits its reply, if one does.
    pub exchange: Option<u64>,
    /// Whether nothing more is read, so that it closes behind the reply.
    pub leaves: bool,
}

/// A connection to the origin that is open for one forward.
#[derive(Drop)]
pub struct Link {
    /// What was asked.
    pub forward: OpenForward,
    /// Reads the response.
    pub reader: ResponseReader,
}

impl Client {
    ghost use Rattle.std.specs.Prelude.{◌≡◌, ℕ, OnOk, Some, length, nat_lt};
    ghost use Rattle.hc_service.specs.State.{Connection, new_connection};
    ghost use Rattle.hc_service.specs.Turns.{after_leaving, after_client_octets, most_unread};
    ghost use Rattle.hc_open.specs.Links.{IsClient, IsTrimmed};

    /// A connection that has just opened.
    pub fn new(alloc: Global) -> Self
        ensures { IsClient result new_connection }
    {
        Client {
            reader: RequestReader::new(alloc),
            exchange: None,
            leaves: false,
        }
    }

    /// Takes in octets, which are dropped where nothing more is read.
    pub fn hear(&mut self, octets: &[u8]) -> Result<(), AllocError>
        ensures { (k : Connection) → IsClient self.old k → OnOk result (IsClient self.new (after_client_octets octets.now k)) }
    {
        if self.leaves {
            return Ok(());
        }
        self.reader.hear(octets)
    }

    /// Drops what is unread, while an exchange awaits its reply: nothing more is read.
    pub fn leave(&mut self)
        ensures { (k : Connection) (exchange : ℕ) → IsClient self.old k → k.exchange ≡ Some exchange
            → IsClient self.new (after_leaving k) }
    {
        self.reader.drop_unread();
        self.leaves = true;
    }

    /// Whether more octets are unread than may be while an exchange awaits its reply.
    fn is_over(&self) -> bool
        ensures { (k : Connection) (exchange : ℕ) → IsClient self.now k → k.exchange ≡ Some exchange
            → result ≡ nat_lt most_unread (length k.unread) }
    {
        MOST_UNREAD < self.reader.unread()
    }

    /// Drops what is unread where that is more than may be, while an exchange awaits its reply.
    pub fn trim(&mut self)
        ensures { (k : Connection) (exchange : ℕ) → IsClient self.old k → k.exchange ≡ Some exchange
            → IsTrimmed (nat_lt most_unread (length k.unread)) self.new k }
    {
        if !self.is_over() {
            return;
        }
        self.leave();
    }
}
