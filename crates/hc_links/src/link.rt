//! What a driver needs of the world: links, origins to connect to, and a clock.

ghost use Rattle.std.specs.Prelude.{◌≡◌, ◌<◌, ◌+◌, ℕ, List, [], IfOk};
ghost use Rattle.hc_links.specs.Links.{Counts, Reads, Writes, greatest_count};

/// That a link has failed, or that none was made. What went wrong is known to whoever made the link.
#[derive(Clone, Copy, PartialEq, Eq)]
pub struct LinkFailure;

/// One side of a connection, from which octets are read and to which octets are written.
pub trait Link {
    /// These octets were read from it so far. A link that doesn't tell lets any octets stand.
    ghost has_given: { Self → List ℕ → Type 0 };

    /// These octets were written to it so far, likewise.
    ghost has_got: { Self → List ℕ → Type 0 };

    /// It was read so often so far, likewise.
    ghost was_read: { Self → ℕ → Type 0 };

    /// These octets at least stand for good at the front of what was written to it, likewise.
    ghost has_kept: { Self → List ℕ → Type 0 };

    /// How often it failed.
    ghost count: { Self → ℕ };

    /// Reads as many octets as there are and as the buffer takes, and returns how many. It waits until there
    /// is one; none means that no more will come.
    fn read(&mut self, buffer: &mut [u8]) -> Result<usize, LinkFailure>
        requires { count self.old < greatest_count }
        ensures given { Reads (has_given self.old) (has_given self.new) result buffer.new }
        ensures got { (octets : List ℕ) → has_got self.old octets → has_got self.new octets }
        ensures kept { (octets : List ℕ) → has_kept self.old octets → has_kept self.new octets }
        ensures reads { (times : ℕ) → was_read self.old times → was_read self.new (1 + times) }
        ensures count { Counts result (count self.old) (count self.new) };

    /// Writes a beginning of the octets, at least one where there is one, and returns how many.
    fn write(&mut self, octets: &[u8]) -> Result<usize, LinkFailure>
        requires { count self.old < greatest_count }
        ensures given { (given : List ℕ) → has_given self.old given → has_given self.new given }
        ensures got { Writes (has_got self.old) (has_got self.new) result octets.now }
        ensures kept { (kept : List ℕ) → has_kept self.old kept → has_kept self.new kept }
        ensures reads { (times : ℕ) → was_read self.old times → was_read self.new times }
        ensures count { Counts result (count self.old) (count self.new) };

    /// Ends what is written: behind that the other side finds an end, and may send on. What has no such end, as a file,
    /// or fails at it, stays as it is.
    fn end(&mut self)
        ensures given { (given : List ℕ) → has_given self.old given → has_given self.new given }
        ensures got { (got : List ℕ) → has_got self.old got → has_got self.new got }
        ensures kept { (octets : List ℕ) → has_kept self.old octets → has_kept self.new octets }
        ensures reads { (times : ℕ) → was_read self.old times → was_read self.new times }
        ensures count { count self.new ≡ count self.old };

    /// How often it failed.
    fn failures(&self) -> u64
        ensures { result ≡ count self.now };
}

/// Where forwards go.
pub trait Origins {
    /// A link to an origin.
    type Link: Link + Drop;

    /// Makes a link for the forward of that number, from which nothing was read, and to which nothing was written.
    fn connect(&self, forward: u64) -> Result<Self::Link, LinkFailure>
        ensures { IfOk result (λ link. Self.Link.has_given link [] × Self.Link.has_got link []) };
}

/// What tells the moment.
pub trait Clock {
    /// It may tell that moment. A clock of which nothing is known may tell any.
    ghost may_tell: { Self → ℕ → Type 0 };

    /// The moment, in whole seconds since 1970.
    fn now(&self) -> u64
        ensures { may_tell self.now result };
}
