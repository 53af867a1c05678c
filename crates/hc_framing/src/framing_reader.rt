//! Where the octets of a body stand, in pieces that come.

ghost use Rattle.std.specs.Prelude.{◌≡◌, false};

use crate::chunk_line::ChunkLineReader;
use crate::fault::FrameFault;
use crate::framing::Framing;
use crate::trailer::TrailerReader;
use hc_head::LONGEST_BODY;
use std::alloc::Global;

/// What comes next in a body.
#[derive(Clone, Copy, PartialEq, Eq)]
enum FramingStage {
    /// Octets of a body whose length is known.
    Sized,
    /// The line of a chunk.
    Line,
    /// The data of a chunk.
    Data,
    /// The CR behind the data.
    CarriageReturn,
    /// The LF behind it.
    LineFeed,
    /// The trailer section.
    Trailer,
    /// Octets until the close.
    UntilClose,
}

/// What was taken of a piece.
#[derive(Clone, Copy)]
pub(crate) struct Part {
    /// How many octets were taken.
    pub(crate) used: usize,
    /// How many of them, at the front, are octets of the body: all of them, or none.
    pub(crate) body: usize,
    /// Whether the body is whole.
    pub(crate) ends: bool,
}

/// So many octets that frame the body, which goes on.
fn framing_octets(used: usize) -> Part
    ensures { result ≡ record { used = used; body = 0; ends = false } }
{
    Part {
        used,
        body: 0,
        ends: false,
    }
}

/// Reads the framing of a body that comes in pieces. It keeps no octets of the body.
pub(crate) struct FramingReader {
    alloc: Global,
    stage: FramingStage,
    /// How many octets are to come, of the body or of the chunk's data.
    left: usize,
    /// How many octets the chunks have so far, as their lines say, or have come until the close.
    count: usize,
    line: ChunkLineReader,
    trailer: TrailerReader,
}

impl Drop for FramingReader {
    fn drop(self) {
        let FramingReader {
            alloc: _,
            stage: _,
            left: _,
            count: _,
            line: _,
            trailer,
        } = self;
        drop(trailer);
    }
}

impl FramingReader {
    ghost use Rattle.std.specs.Prelude.{◌≡◌, ◌≢◌, ℕ, ◌<◌, List, [], length, true, false, Ok};
    ghost use Rattle.hc_framing.specs.Bodies.{has_octets};
    ghost use Rattle.hc_framing.specs.BodyReading.{AgreesFraming, GivesPart};

    /// A reader of a body that is framed so.
    pub(crate) fn new(alloc: Global, framing: Framing) -> Self
        ensures { has_octets framing ≡ true → AgreesFraming framing result [] [] }
    {
        let (stage, left) = match framing {
            Framing::Nothing => (FramingStage::Sized, 0),
            Framing::Sized(size) => (FramingStage::Sized, size as usize),
            Framing::Chunked => (FramingStage::Line, 0),
            Framing::UntilClose => (FramingStage::UntilClose, 0),
        };
        FramingReader {
            alloc,
            stage,
            left,
            count: 0,
            line: ChunkLineReader::new(),
            trailer: TrailerReader::new(alloc),
        }
    }

    /// Whether the body ends with the octets that have come, if no more come.
    pub(crate) fn ends_with_close(&self) -> bool
        ensures yes { result ≡ true → (framing : Framing) (octets body : List ℕ)
            → AgreesFraming framing self.now octets body → framing ≡ Framing.UntilClose }
        ensures no { result ≡ false → (framing : Framing) (octets body : List ℕ)
            → AgreesFraming framing self.now octets body → framing ≢ Framing.UntilClose }
    {
        self.stage == FramingStage::UntilClose
    }

    /// Takes what the piece has of one part of the body.
    pub(crate) fn step(&mut self, piece: &[u8]) -> Result<Part, FrameFault>
        requires some { 0 < length piece.now }
        ensures gives { (framing : Framing) (octets body : List ℕ)
            → AgreesFraming framing self.old octets body
            → GivesPart result framing self.new octets body piece.now }
    {
        match self.stage {
            FramingStage::Sized => Ok(self.take_sized(piece)),
            FramingStage::Line => self.take_line(piece),
            FramingStage::Data => Ok(self.take_data(piece)),
            FramingStage::CarriageReturn => self.take_carriage_return(piece),
            FramingStage::LineFeed => self.take_line_feed(piece),
            FramingStage::Trailer => self.take_trailer(piece),
            FramingStage::UntilClose => self.take_until_close(piece),
        }
    }

    fn take_sized(&mut self, piece: &[u8]) -> Part
        requires stage { self.old.stage ≡ FramingStage.Sized }
        requires some { 0 < length piece.now }
        ensures { (framing : Framing) (octets body : List ℕ) → AgreesFraming framing self.old octets body
            → GivesPart (Ok result) framing self.new octets body piece.now }
    {
        let taken = piece.len().min(self.left);
        self.left -= taken;
        Part {
            used: taken,
            body: taken,
            ends: self.left == 0,
        }
    }

    fn take_line(&mut self, piece: &[u8]) -> Result<Part, FrameFault>
        requires stage { self.old.stage ≡ FramingStage.Line }
        requires some { 0 < length piece.now }
        ensures { (framing : Framing) (octets body : List ℕ) → AgreesFraming framing self.old octets body
            → GivesPart result framing self.new octets body piece.now }
    {
        match self.line.feed(piece) {
            Err(fault) => Err(FrameFault::from(fault)),
            Ok(None) => Ok(framing_octets(piece.len())),
            Ok(Some((size, used))) => {
                if size == 0 {
                    self.trailer = TrailerReader::new(self.alloc);
                    self.stage = FramingStage::Trailer;
                    return Ok(framing_octets(used));
                }
                if size > LONGEST_BODY.saturating_sub(self.count) as u64 {
                    return Err(FrameFault::BodyTooLong);
                }
                self.left = size as usize;
                self.count += self.left;
                self.stage = FramingStage::Data;
                Ok(framing_octets(used))
            }
        }
    }

    fn take_data(&mut self, piece: &[u8]) -> Part
        requires stage { self.old.stage ≡ FramingStage.Data }
        requires some { 0 < length piece.now }
        ensures { (framing : Framing) (octets body : List ℕ) → AgreesFraming framing self.old octets body
            → GivesPart (Ok result) framing self.new octets body piece.now }
    {
        let taken = piece.len().min(self.left);
        self.left -= taken;
        if self.left == 0 {
            self.stage = FramingStage::CarriageReturn;
        }
        Part {
            used: taken,
            body: taken,
            ends: false,
        }
    }

    fn take_carriage_return(&mut self, piece: &[u8]) -> Result<Part, FrameFault>
        requires stage { self.old.stage ≡ FramingStage.CarriageReturn }
        requires some { 0 < length piece.now }
        ensures { (framing : Framing) (octets body : List ℕ) → AgreesFraming framing self.old octets body
            → GivesPart result framing self.new octets body piece.now }
    {
        if piece[0] != b'\r' {
            return Err(FrameFault::BadChunk);
        }
        self.stage = FramingStage::LineFeed;
        Ok(framing_octets(1))
    }

    fn take_line_feed(&mut self, piece: &[u8]) -> Result<Part, FrameFault>
        requires stage { self.old.stage ≡ FramingStage.LineFeed }
        requires some { 0 < length piece.now }
        ensures { (framing : Framing) (octets body : List ℕ) → AgreesFraming framing self.old octets body
            → GivesPart result framing self.new octets body piece.now }
    {
        if piece[0] != b'\n' {
            return Err(FrameFault::BadChunk);
        }
        self.line = ChunkLineReader::new();
        self.stage = FramingStage::Line;
        Ok(framing_octets(1))
    }

    fn take_trailer(&mut self, piece: &[u8]) -> Result<Part, FrameFault>
        requires stage { self.old.stage ≡ FramingStage.Trailer }
        requires some { 0 < length piece.now }
        ensures { (framing : Framing) (octets body : List ℕ) → AgreesFraming framing self.old octets body
            → GivesPart result framing self.new octets body piece.now }
    {
        match self.trailer.feed(piece) {
            Err(fault) => Err(FrameFault::from(fault)),
            Ok(None) => Ok(framing_octets(piece.len())),
            Ok(Some(used)) => Ok(Part {
                used,
                body: 0,
                ends: true,
            }),
        }
    }

    fn take_until_close(&mut self, piece: &[u8]) -> Result<Part, FrameFault>
        requires stage { self.old.stage ≡ FramingStage.UntilClose }
        requires some { 0 < length piece.now }
        ensures { (framing : Framing) (octets body : List ℕ) → AgreesFraming framing self.old octets body
            → GivesPart result framing self.new octets body piece.now }
    {
        if piece.len() > LONGEST_BODY.saturating_sub(self.count) {
            return Err(FrameFault::BodyTooLong);
        }
        self.count += piece.len();
        Ok(Part {
            used: piece.len(),
            body: piece.len(),
            ends: false,
        })
    }
}
