//! Lines that wait to be written.

ghost use Rattle.std.proofs.Props.{props};
ghost use Rattle.std.specs.Prelude.{◌≡◌, ◌++◌, [], true, OnOk, OnErr};
ghost use Rattle.hc_access.specs.Values.{HasQuotes, are_lines, end_text};

use crate::line::push_end;
use std::alloc::{AllocError, Global};

/// Lines that wait to be written: whole ones alone.
pub(crate) struct Lines {
    pub(crate) octets: Vec<u8>,
    ghost whole: { are_lines octets.items ≡ true } by { Prim.hlevel props },
}

impl Drop for Lines {
    fn drop(self) {
        let Lines { octets } = self;
        drop(octets);
    }
}

impl Lines {
    /// None wait.
    pub(crate) fn new(alloc: Global) -> Self
        ensures { result.octets.items ≡ [] }
    {
        Lines {
            octets: Vec::new(alloc),
        }
    }

    /// Adds a line, which tells all but how long it took: so many milliseconds. Where memory is refused, it isn't added.
    pub(crate) fn add(&mut self, front: Vec<u8>, milliseconds: u64) -> Result<(), AllocError>
        requires front { HasQuotes 10 front.items }
        ensures added { OnOk result (self.new.octets.items ≡ self.old.octets.items ++ (front.items ++ end_text milliseconds)) }
        ensures refused { OnErr result (self.new.octets.items ≡ self.old.octets.items) }
    {
        let mut line = front;
        push_end(milliseconds, &mut line)?;
        self.octets.extend_from_slice(line.as_slice())
    }

    /// None wait any more.
    pub(crate) fn clear(&mut self)
        ensures { self.new.octets.items ≡ [] }
    {
        self.octets.clear();
    }
}
