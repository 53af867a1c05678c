//! Where clients come from.

ghost use Rattle.std.specs.Prelude.{ℕ, List, IfOk};
ghost use Rattle.hc_links.specs.Clients.{CountsClient, HandsBack, IsFresh, ServedLink};

use crate::link::{Link, LinkFailure};

/// Where clients come from, one after another.
pub trait Clients {
    /// A link to a client.
    type Link: Link + Drop;

    /// So many came so far, and so often none did. Clients that don't tell let any numbers stand.
    ghost came: { Self → ℕ → ℕ → Type 0 };

    /// That has passed at the links that were handed back so far, the newest first, likewise.
    ghost left: { Self → List ServedLink → Type 0 };

    /// Waits for the next client, and makes a link to it, from which nothing was read, and to which nothing was written.
    /// It fails where no client comes.
    fn next(&mut self) -> Result<Self::Link, LinkFailure>
        ensures fresh { IfOk result (λ link. IsFresh Self.Link.has_given Self.Link.has_got Self.Link.was_read Self.Link.count link) }
        ensures came { CountsClient (came self.old) (came self.new) result }
        ensures left { (links : List ServedLink) → left self.old links → left self.new links };

    /// Takes back the link of a client whose connection was served to its end, whether or not the link has failed.
    fn done(&mut self, link: Self::Link)
        ensures came { (clients misses : ℕ) → came self.old clients misses → came self.new clients misses }
        ensures left { HandsBack Self.Link.has_given Self.Link.has_got Self.Link.count link (left self.old) (left self.new) };
}
