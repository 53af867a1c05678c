//! Bodies that come in pieces.

ghost use Rattle.std.specs.Prelude.{◌≡◌};
ghost use Rattle.hc_framing.specs.Bodies.{has_octets};

use crate::fault::FrameFault;
use crate::framing::Framing;
use crate::framing_reader::FramingReader;
use crate::progress::Progress;
use hc_fields::{Octets, SharedOctets};
use std::alloc::{AllocError, Global};
use std::mem;

/// Whether a body that is framed so has octets of its own to be read, of its data or its framing.
pub(crate) fn has_octets(framing: Framing) -> bool
    ensures { result ≡ has_octets framing }
{
    match framing {
        Framing::Nothing => false,
        Framing::Sized(size) => size > 0,
        Framing::Chunked | Framing::UntilClose => true,
    }
}

/// Reads a body that comes in pieces. It keeps the octets of the body, and none of its framing.
pub(crate) struct BodyReader {
    alloc: Global,
    framing: FramingReader,
    /// The octets of the body so far, while it isn't whole.
    octets: Octets,
    /// The octets of the body, once it is whole.
    whole: SharedOctets,
}

impl Drop for BodyReader {
    fn drop(self) {
        let BodyReader {
            alloc: _,
            framing,
            octets,
            whole,
        } = self;
        drop(framing);
        drop(octets);
        drop(whole);
    }
}

impl BodyReader {
    ghost use Rattle.std.specs.Prelude.{◌≡◌, ◌≢◌, ℕ, List, [], true, false, IfOk};
    ghost use Rattle.hc_framing.specs.Bodies.{has_octets};
    ghost use Rattle.hc_framing.specs.BodyReading.{AgreesBody, IsReading, GivesBody};

    /// A reader of a body that is framed so.
    pub(crate) fn new(alloc: Global, framing: Framing) -> Self
        ensures agrees { has_octets framing ≡ true → AgreesBody framing result [] }
        ensures none { result.whole ≡ [] }
    {
        BodyReader {
            alloc,
            framing: FramingReader::new(alloc, framing),
            octets: Octets::new(alloc),
            whole: SharedOctets::new(),
        }
    }

    /// Whether the body ends with the octets that have come, if no more come.
    pub(crate) fn ends_with_close(&self) -> bool
        ensures yes { result ≡ true → (framing : Framing) (octets : List ℕ) → AgreesBody framing self.now octets
            → framing ≡ Framing.UntilClose }
        ensures no { result ≡ false → (framing : Framing) (octets : List ℕ) → AgreesBody framing self.now octets
            → framing ≢ Framing.UntilClose }
    {
        self.framing.ends_with_close()
    }

    /// Says that the body is whole: its octets stay where they are, to be shared.
    pub(crate) fn freeze(&mut self) -> Result<(), AllocError>
        ensures { IfOk result (λ done. self.new.whole ≡ self.old.octets) }
    {
        let octets = mem::replace(&mut self.octets, Octets::new(self.alloc));
        self.whole = SharedOctets::from_vec(self.alloc, octets.into_vec())?;
        Ok(())
    }

    /// The octets of the body, once it is whole.
    pub(crate) fn into_whole(self) -> SharedOctets
        ensures { result ≡ self.whole }
    {
        let BodyReader {
            alloc: _,
            framing,
            octets,
            whole,
        } = self;
        drop(framing);
        drop(octets);
        whole
    }

    /// Takes the next piece.
    pub(crate) fn feed(&mut self, piece: &[u8]) -> Result<Progress, FrameFault>
        requires { IsReading self.old }
        ensures gives { (framing : Framing) (octets : List ℕ) → AgreesBody framing self.old octets
            → GivesBody result framing self.new octets piece.now }
    {
        let mut used = 0;
        while used < piece.len() {
            let (_, rest) = piece.split_at(used);
            let part = self.framing.step(rest)?;
            let (octets, _) = rest.split_at(part.body);
            self.octets.extend_from_slice(octets)?;
            used += part.used;
            if part.ends {
                self.freeze()?;
                return Ok(Progress::Whole(used));
            }
        }
        Ok(Progress::More)
    }
}
