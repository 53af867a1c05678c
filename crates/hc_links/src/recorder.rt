//! A link whose octets are kept for good.

ghost use Rattle.std.specs.Prelude.{ℕ, List, OnOk};
ghost use Rattle.hc_links.specs.Links.{CountsSent};

use crate::buffered::Buffered;
use crate::link::{Link, LinkFailure};
use crate::off::Off;

/// A link to which records are written, and which keeps them for good once it is flushed.
pub trait Recorder: Link {
    /// Whatever was written stands for good from then on. A link that has failed as often as can be counted isn't
    /// written to.
    fn flush(&mut self) -> Result<(), LinkFailure>
        ensures given { (given : List ℕ) → Self.has_given self.old given → Self.has_given self.new given }
        ensures got { (octets : List ℕ) → Self.has_got self.old octets → Self.has_got self.new octets }
        ensures kept { (octets : List ℕ) → Self.has_kept self.old octets → Self.has_kept self.new octets }
        ensures all { OnOk result ((octets : List ℕ) → Self.has_got self.old octets → Self.has_kept self.new octets) }
        ensures reads { (times : ℕ) → Self.was_read self.old times → Self.was_read self.new times }
        ensures count { CountsSent result (Self.count self.old) (Self.count self.new) };
}

impl<R: Link> Recorder for Buffered<R> {
    fn flush(&mut self) -> Result<(), LinkFailure> {
        Buffered::flush(self)
    }
}

impl Recorder for Off {
    fn flush(&mut self) -> Result<(), LinkFailure> {
        Ok(())
    }
}
