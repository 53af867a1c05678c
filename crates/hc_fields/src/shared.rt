ghost use Rattle.std.specs.Prelude.{◌≡◌, ◌==◌, List, ℕ, [], length, IfOk};
ghost use Rattle.hc_fields.specs.Shared.{octets_of};

use std::alloc::{AllocError, Global};
use std::marker::Model;
use std::rc::Rc;

/// A run of octets that several owners share and none changes, which contracts see as the list of
/// them. The octets are freed with their last owner.
pub struct SharedOctets {
    kept: Option<Rc<Vec<u8>>>,
}

impl Drop for SharedOctets {
    fn drop(self) {
        let SharedOctets { kept } = self;
        drop(kept);
    }
}

impl Model for SharedOctets {
    ghost Value = { List ℕ };

    ghost view = { λ o. octets_of o.kept };
}

impl SharedOctets {
    /// No octets, which take no memory.
    pub fn new() -> Self
        ensures { result ≡ [] }
    {
        SharedOctets { kept: None }
    }

    /// The octets of a vector, which stay where they are. Memory is taken for the count of their
    /// owners alone, and none where there are no octets.
    pub fn from_vec(alloc: Global, octets: Vec<u8>) -> Result<Self, AllocError>
        ensures { IfOk result (λ o. o ≡ octets.items) }
    {
        if octets.is_empty() {
            return Ok(SharedOctets::new());
        }
        match Rc::new(alloc, octets) {
            Ok(kept) => Ok(SharedOctets { kept: Some(kept) }),
            Err(_) => Err(AllocError),
        }
    }

    /// The octets themselves.
    pub fn as_slice(&self) -> &[u8]
        ensures { result.now ≡ self.now }
    {
        match &self.kept {
            Some(kept) => kept.as_ref().as_slice(),
            None => &[],
        }
    }

    /// How many octets there are.
    pub fn len(&self) -> usize
        ensures { result ≡ length self.now }
    {
        self.as_slice().len()
    }

    /// Whether there are none.
    pub fn is_empty(&self) -> bool
        ensures { result ≡ (length self.now == 0) }
    {
        self.as_slice().is_empty()
    }

    /// How many owners the octets have at this moment, this one among them; none where there are no octets.
    pub fn owners(&self) -> usize {
        match &self.kept {
            Some(kept) => Rc::strong_count(kept),
            None => 0,
        }
    }

    /// Whether there is another owner of the octets at this moment; never where there are none.
    pub fn is_shared(&self) -> bool {
        self.owners() > 1
    }

    /// Another owner of the same octets. It takes no memory, and fails only where the count of owners
    /// is full.
    pub fn share(&self) -> Result<Self, AllocError>
        ensures { IfOk result (λ o. o ≡ self.now) }
    {
        match &self.kept {
            Some(kept) => Ok(SharedOctets {
                kept: Some(kept.clone()?),
            }),
            None => Ok(SharedOctets::new()),
        }
    }
}
