//! An input that is read a piece at a time, and what is fed the pieces.
ghost use Rattle.std.specs.Prelude.{◌≡◌, ◌<◌, ◌++◌, ◌⊎◌, ℕ, List, [], Option, None, length, vec_len, IfOk, IfErr};
ghost use Rattle.std.specs.Io.KnownBytes.{IsAtEnd};
ghost use Rattle.hc_auditing.specs.declared.trouble.Trouble.{Trouble};
ghost use Rattle.hc_auditing.specs.Pulling.{IsNextPiece, IsPulled};
ghost use Rattle.hc_auditing.specs.Trouble.{IsOfInput};

use crate::trouble::Trouble;
use std::alloc::{AllocError, Global};
use std::io;
use std::io::{ErrorKind, Read};

/// The most octets that one read takes.
const PIECE: usize = 65_536;

/// The most reads of one input. One that has not ended by then counts as a device that failed.
const READS: u64 = 4_294_967_296;

/// Room for one read.
pub fn buffer(alloc: Global) -> Result<Vec<u8>, AllocError>
    ensures { IfOk result (λ piece. vec_len piece ≡ PIECE) }
{
    vec![in alloc; 0u8; PIECE]
}

/// What is fed the octets of an input, until it needs no more of them, and tells another of what it makes of them.
pub trait Fed<T> {
    /// What it comes to where it needs no more.
    type Answer: Drop;

    /// By these octets it went from the one to the other, as did who was told, and came to that `Answer`, if
    /// it needs no more.
    ghost goes: { Self → T → Self → T → List ℕ → Option Self.Answer → Type 0 };

    /// Why it may give up.
    ghost fails: { Trouble → Type 0 };

    /// Takes the next octets, of which there may be none. It returns an `Answer` where it needs no more.
    fn take(&mut self, piece: &[u8], told: &mut T) -> Result<Option<Self::Answer>, Trouble>
        ensures goes { IfOk result (goes self.old told.old self.new told.new piece.now) }
        ensures fails { IfErr result fails };

    /// By no octets it stays as it is.
    ghost stays: { (fed : Self) (told : T) → goes fed told fed told [] None };

    /// What goes on after some octets has gone by all of them.
    ghost goes_on: { (first middle last : Self) (before between after : T) (some more : List ℕ) (answer : Option Self.Answer)
        → goes first before middle between some None → goes middle between last after more answer
        → goes first before last after (some ++ more) answer };
}

/// Feeds it what `input` gives, a piece at a time, up to the end or to where it needs no more, and returns
/// its `Answer` there.
pub fn pull<T, F: Fed<T>, R: Read>(
    fed: &mut F,
    told: &mut T,
    input: &mut R,
    piece: &mut [u8],
) -> Result<Option<F::Answer>, Trouble>
    requires { 0 < length piece.old }
    ensures pulled { IfOk result (IsPulled F.goes fed.old told.old fed.new told.new (R.remaining input.old) (R.remaining input.new)) }
    ensures end { IfOk result (λ answer. answer ≡ None → IsAtEnd (R.remaining input.new)) }
    ensures fails { IfErr result (λ trouble. IsOfInput trouble ⊎ F.fails trouble) }
{
    'pieces: for _ in 0..READS {
        let Some(count) = next_piece(input, piece)? else {
            return Ok(None);
        };
        match fed.take(&piece[..count], told)? {
            Some(answer) => return Ok(Some(answer)),
            None => {}
        }
    }
    Err(Trouble::Device(io::Error::other("too many reads")))
}

// How many octets the next read of `input` puts into the piece, or nothing at its end. A read that was interrupted gives
// none.
fn next_piece<R: Read>(input: &mut R, piece: &mut [u8]) -> Result<Option<usize>, Trouble>
    requires { 0 < length piece.old }
    ensures next { IfOk result (IsNextPiece (R.remaining input.old) (R.remaining input.new) piece.new) }
    ensures room { length piece.new ≡ length piece.old }
    ensures fails { IfErr result IsOfInput }
{
    match input.read(piece) {
        Ok(0) => Ok(None),
        Ok(count) => Ok(Some(count)),
        Err(error) if error.kind() == ErrorKind::Interrupted => Ok(Some(0)),
        Err(error) => Err(Trouble::Device(error)),
    }
}
