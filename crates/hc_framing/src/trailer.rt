//! Trailer sections that come in pieces.

ghost use Rattle.std.specs.Prelude.{◌≡◌, ◌≢◌, ℕ, List, [], ◌∷◌, ◌++◌, true, false};
ghost use Rattle.httparse.specs.Ascii.{line_feed, carriage_return};
ghost use Rattle.httparse.specs.Grammar.{print_end};
ghost use Rattle.hc_framing.specs.TrailerReading.{IsFieldLine, end_with_feed};

use crate::chunk_fault::ChunkFault;
use hc_fields::Octets;
use httparse::Status;
use httparse::spans::{EMPTY_HEADER_SPAN, parse_headers};
use std::alloc::Global;

/// The most field lines of a trailer section.
const MOST_LINES: usize = 100;

/// The most octets of them together.
const MOST_OCTETS: usize = 65_536;

/// The end of a line, by whether its CR has come.
fn line_end(returned: bool) -> &'static [u8]
    ensures { result.now ≡ print_end (end_with_feed returned) }
{
    if returned { b"\r\n" } else { b"\n" }
}

/// Whether the octets, which end in two LF, are a field line and one of these.
fn is_line_and_feed(octets: &[u8]) -> bool
    ensures yes { result ≡ true → (front : List ℕ) → octets.now ≡ front ++ 10 ∷ 10 ∷ []
        → IsFieldLine (front ++ 10 ∷ []) }
    ensures no { result ≡ false → (front : List ℕ) → octets.now ≡ front ++ 10 ∷ 10 ∷ []
        → ¬ (IsFieldLine (front ++ 10 ∷ [])) }
{
    let mut spans = [EMPTY_HEADER_SPAN; 1];
    match parse_headers(octets, &mut spans) {
        Ok(Status::Complete((len, count))) => count == 1 && len == octets.len(),
        Ok(Status::Partial) => false,
        Err(_) => false,
    }
}

/// Reads a trailer section that comes in pieces, and keeps no field of it. Behind its end, or a fault, nothing is
/// promised of what it reads.
#[derive(Drop)]
pub(crate) struct TrailerReader {
    alloc: Global,
    /// How many field lines have come.
    count: usize,
    /// How many octets they have.
    taken: usize,
    /// The line that hasn't ended, without its CR.
    text: Octets,
    /// Whether its CR has come.
    returned: bool,
}

impl TrailerReader {
    ghost use Rattle.std.specs.Prelude.{ℕ, List, [], ◌≡◌};
    ghost use Rattle.hc_framing.specs.TrailerReading.{has_room, may_return, AgreesTrailer, GivesOctet, GivesTrailer};

    /// A reader that has been given nothing.
    pub(crate) fn new(alloc: Global) -> Self
        ensures { AgreesTrailer result [] }
    {
        TrailerReader {
            alloc,
            count: 0,
            taken: 0,
            text: Octets::new(alloc),
            returned: false,
        }
    }

    /// Takes the next piece: where the section ends, how many octets of the piece it takes.
    pub(crate) fn feed(&mut self, piece: &[u8]) -> Result<Option<usize>, ChunkFault>
        ensures { (octets : List ℕ) → AgreesTrailer self.old octets → GivesTrailer result self.new octets piece.now }
    {
        for (index, octet) in piece.iter().enumerate() {
            match self.take(*octet) {
                Err(fault) => return Err(fault),
                Ok(true) => return Ok(Some(index + 1)),
                Ok(false) => {}
            }
        }
        Ok(None)
    }

    /// Takes one octet, and tells whether the section ends with it.
    fn take(&mut self, octet: u8) -> Result<bool, ChunkFault>
        ensures { (octets : List ℕ) → AgreesTrailer self.old octets → GivesOctet result self.new octets octet }
    {
        if octet == b'\n' {
            return self.end_line();
        }
        if self.returned {
            return Err(ChunkFault::Syntax);
        }
        if octet == b'\r' {
            return self.take_return();
        }
        self.take_plain(octet)
    }

    fn take_return(&mut self) -> Result<bool, ChunkFault>
        requires { self.old.returned ≡ false }
        ensures { (octets : List ℕ) → AgreesTrailer self.old octets → GivesOctet result self.new octets carriage_return }
    {
        if !self.may_return() {
            return Err(ChunkFault::Syntax);
        }
        self.returned = true;
        Ok(false)
    }

    fn take_plain(&mut self, octet: u8) -> Result<bool, ChunkFault>
        requires line { self.old.returned ≡ false }
        requires no_return { octet ≢ carriage_return }
        requires no_feed { octet ≢ line_feed }
        ensures { (octets : List ℕ) → AgreesTrailer self.old octets → GivesOctet result self.new octets octet }
    {
        if !self.has_room() {
            return Err(ChunkFault::Syntax);
        }
        self.text.extend_from_slice(&[octet])?;
        Ok(false)
    }

    /// Whether the limits allow a line that has two more octets.
    fn has_room(&self) -> bool
        ensures { result ≡ has_room self.now }
    {
        self.count < MOST_LINES
            && self.text.len() < MOST_OCTETS.saturating_sub(self.taken).saturating_sub(1)
    }

    /// Whether the limits allow the line with its CR and LF, or it is the empty one.
    fn may_return(&self) -> bool
        ensures { result ≡ may_return self.now }
    {
        self.text.is_empty() || self.has_room()
    }

    /// Takes the LF of a line, and tells whether the section ends with it.
    fn end_line(&mut self) -> Result<bool, ChunkFault>
        ensures { (octets : List ℕ) → AgreesTrailer self.old octets → GivesOctet result self.new octets line_feed }
    {
        if self.text.is_empty() {
            return Ok(true);
        }
        self.text.extend_from_slice(line_end(self.returned))?;
        let len = self.text.len();
        self.text.extend_from_slice(b"\n")?;
        if !is_line_and_feed(self.text.as_slice()) {
            return Err(ChunkFault::Syntax);
        }
        self.count = self.count.saturating_add(1);
        self.taken = self.taken.saturating_add(len);
        self.text = Octets::new(self.alloc);
        self.returned = false;
        Ok(false)
    }
}
