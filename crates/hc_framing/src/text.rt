//! The text of a message.

use hc_fields::SharedOctets;
use std::alloc::{AllocError, Global};
use std::marker::Model;

/// The text of a message as it goes out, in two parts that each may have more owners: its head, and
/// its body. Contracts see the octets, the one part followed by the other. A small body lies behind
/// the head, and then nothing is left for the second part.
pub struct MessageText {
    front: SharedOctets,
    rest: SharedOctets,
}

impl Drop for MessageText {
    fn drop(self) {
        let MessageText { front, rest } = self;
        drop(front);
        drop(rest);
    }
}

impl Model for MessageText {
    ghost use Rattle.std.specs.Prelude.{List, ℕ, ◌++◌};

    ghost Value = { List ℕ };

    ghost view = { λ text. text.front ++ text.rest };
}

impl MessageText {
    ghost use Rattle.std.specs.Prelude.{◌≡◌, ◌==◌, ◌++◌, length, IfOk, OnOk, OnErr};

    /// A text of these two parts.
    pub(crate) fn of_parts(front: SharedOctets, rest: SharedOctets) -> Self
        ensures { result ≡ front ++ rest }
    {
        MessageText { front, rest }
    }

    /// A text that lies in one piece: the octets of a vector, which stay where they are.
    pub fn from_vec(alloc: Global, octets: Vec<u8>) -> Result<Self, AllocError>
        ensures { IfOk result (λ text. text ≡ octets.items) }
    {
        Ok(MessageText {
            front: SharedOctets::from_vec(alloc, octets)?,
            rest: SharedOctets::new(),
        })
    }

    /// The two parts.
    pub fn parts(&self) -> (&SharedOctets, &SharedOctets)
        ensures { result.0.now ++ result.1.now ≡ self.now }
    {
        (&self.front, &self.rest)
    }

    /// How many octets there are.
    pub fn len(&self) -> usize
        ensures { result ≡ length self.now }
    {
        self.front.as_slice().len() + self.rest.as_slice().len()
    }

    /// Whether there are none.
    pub fn is_empty(&self) -> bool
        ensures { result ≡ (length self.now == 0) }
    {
        self.front.is_empty() && self.rest.is_empty()
    }

    /// Another owner of the same octets. It takes no memory, and fails only where the count of owners
    /// is full.
    pub fn share(&self) -> Result<Self, AllocError>
        ensures { IfOk result (λ text. text ≡ self.now) }
    {
        Ok(MessageText {
            front: self.front.share()?,
            rest: self.rest.share()?,
        })
    }

    /// Puts the octets at the end of a vector.
    pub fn append_to(&self, octets: &mut Vec<u8>) -> Result<(), AllocError>
        ensures ok { OnOk result (octets.new.items ≡ octets.old.items ++ self.now) }
        ensures err { OnErr result (octets.new.items ≡ octets.old.items) }
    {
        octets.reserve(self.len())?;
        octets.extend_from_slice(self.front.as_slice())?;
        octets.extend_from_slice(self.rest.as_slice())
    }
}
