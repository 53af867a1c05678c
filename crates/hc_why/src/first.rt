//! The first wrong reply, and what is found of it.

ghost use Rattle.std.specs.Prelude.{IfSome, IsSome};
ghost use Rattle.std.specs.Option.{ForSome};
ghost use Rattle.hc_why.specs.Found.{HasFoundOf, IsThat, finding_of, position_of};

use crate::found::FoundReply;
use hc_history::WrongReply;
use std::alloc::Global;

/// A witness that looks for the first wrong reply.
pub struct FirstWrong {
    pub(crate) alloc: Global,
    pub(crate) first: Option<WrongReply>,
    pub(crate) found: Option<FoundReply>,
    ghost of_first: { ForSome found (λ reply. IsThat first (position_of reply) (finding_of reply)) },
}

impl Drop for FirstWrong {
    fn drop(self) {
        let FirstWrong {
            alloc: _,
            first: _,
            found,
        } = self;
        drop(found);
    }
}

impl FirstWrong {
    /// What was found of it, which is moved.
    pub fn into_found(mut self) -> Option<FoundReply>
        // It is of the first wrong reply.
        ensures of_first { IfSome result (λ reply. IsThat self.first (position_of reply) (finding_of reply)) }
        // There is something where there is such a reply.
        ensures there { HasFoundOf self.first self.found → IsSome self.first → IsSome result }
    {
        self.found.take()
    }
}
