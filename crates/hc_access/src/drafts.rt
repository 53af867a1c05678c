//! Lines of replies that aren't written whole yet.

ghost use Rattle.std.proofs.Props.{props};
ghost use Rattle.std.specs.Prelude.{◌≡◌, true};
ghost use Rattle.std.specs.List.{list_all};
ghost use Rattle.hc_access.specs.Values.{is_printable, quotes_in};

use crate::lines::Lines;
use std::alloc::AllocError;

/// A line but for how long it took, which is known once its reply was written.
pub(crate) struct Draft {
    /// The number of the connection.
    pub(crate) client: u64,
    /// Behind how many octets of what is sent there the reply ends.
    pub(crate) end: u64,
    /// When the first octet of the request came.
    pub(crate) begun: u64,
    /// The line.
    pub(crate) front: Vec<u8>,
    ghost printable: { list_all is_printable front.items ≡ true } by { Prim.hlevel props },
    ghost quotes: { quotes_in front.items ≡ 10 } by { Prim.hlevel props },
}

impl Drop for Draft {
    fn drop(self) {
        let Draft {
            client: _,
            end: _,
            begun: _,
            front,
        } = self;
        drop(front);
    }
}

impl Draft {
    /// Adds the line: the reply was written at that millisecond.
    pub(crate) fn end_at(self, tick: u64, lines: &mut Lines) -> Result<(), AllocError> {
        let Draft {
            client: _,
            end: _,
            begun,
            front,
        } = self;
        lines.add(front, tick.saturating_sub(begun))
    }
}
