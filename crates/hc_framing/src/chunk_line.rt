//! The line before a chunk, read octet by octet as they come.

ghost use Rattle.std.specs.Prelude.{◌≡◌, ◌<◌, ◌≤◌, ◌^◌, ℕ, List, [], length, IsTrue, IfOk, IfSome, option_map};
ghost use Rattle.std.specs.Char.{is_ascii_hexdigit, digit_value};

use crate::chunk_fault::ChunkFault;

/// A size has no more digits.
const MOST_DIGITS: usize = 16;

/// No chunk line has more octets, its CR LF included.
const LONGEST_LINE: usize = 4096;

/// Where the octets of a chunk line end.
#[derive(Clone, Copy, PartialEq, Eq)]
enum LineStage {
    /// No octet has come.
    Start,
    /// In the digits of the size.
    Digits,
    /// In the spaces and tabs behind them.
    Padding,
    /// In the extension, from its semicolon on.
    Extension,
    /// Behind the CR.
    CarriageReturn,
    /// Behind the LF: the line is whole.
    End,
}

impl LineStage {
    ghost use Rattle.hc_framing.specs.ChunkLineReading.{stage_behind_digits, stage_after, most_octets};

    /// Where an octet behind the digits leads.
    fn behind_digits(octet: u8) -> Option<LineStage>
        ensures { result ≡ stage_behind_digits octet }
    {
        match octet {
            b' ' | b'\t' => Some(LineStage::Padding),
            b';' => Some(LineStage::Extension),
            b'\r' => Some(LineStage::CarriageReturn),
            _ => None,
        }
    }

    /// Where one more octet leads, if a line can go on with it.
    fn after(self, octet: u8) -> Option<LineStage>
        ensures { result ≡ stage_after self octet }
    {
        match self {
            LineStage::Start if octet.is_ascii_hexdigit() => Some(LineStage::Digits),
            LineStage::Digits if octet.is_ascii_hexdigit() => Some(LineStage::Digits),
            LineStage::Digits | LineStage::Padding => LineStage::behind_digits(octet),
            LineStage::Extension => match octet {
                b'\t' | 32..=126 | 128..=255 => Some(LineStage::Extension),
                b'\r' => Some(LineStage::CarriageReturn),
                _ => None,
            },
            LineStage::CarriageReturn if octet == b'\n' => Some(LineStage::End),
            LineStage::Start | LineStage::CarriageReturn | LineStage::End => None,
        }
    }

    /// How many octets a line has there at most.
    fn most_octets(self) -> usize
        ensures { result ≡ most_octets self }
    {
        match self {
            LineStage::Start => 0,
            LineStage::Digits => MOST_DIGITS,
            LineStage::Padding | LineStage::Extension => LONGEST_LINE - 2,
            LineStage::CarriageReturn => LONGEST_LINE - 1,
            LineStage::End => LONGEST_LINE,
        }
    }
}

/// The value of a hexadecimal digit.
fn hex_value(digit: u8) -> u64
    requires { IsTrue (is_ascii_hexdigit digit) }
    ensures value { result ≡ digit_value digit }
    ensures small { result < 16 }
{
    let value = match digit {
        b'0'..=b'9' => digit - b'0',
        b'A'..=b'F' => digit - b'A' + 10,
        _ => digit - b'a' + 10,
    };
    u64::from(value)
}

/// Reads a chunk line that comes in pieces, and keeps none of its octets. Behind its end, or a fault, nothing is
/// promised of what it reads.
#[derive(Clone, Copy, PartialEq, Eq)]
pub(crate) struct ChunkLineReader {
    stage: LineStage,
    /// The value of the digits.
    size: u64,
    /// How many octets have come.
    len: usize,
    ghost small: { size < 16 ^ len },
}

impl ChunkLineReader {
    ghost use Rattle.hc_framing.specs.ChunkLineReading.{place_after, place_of, AgreesLine, GivesLine};

    /// A reader that has been given nothing.
    pub(crate) fn new() -> Self
        ensures { AgreesLine result [] }
    {
        ChunkLineReader {
            stage: LineStage::Start,
            size: 0,
            len: 0,
        }
    }

    /// The reader behind one more octet, if a line can go on with it.
    fn after(self, octet: u8) -> Option<ChunkLineReader>
        ensures { option_map place_of result ≡ place_after (place_of self) octet }
    {
        let stage = self.stage.after(octet)?;
        if self.len >= stage.most_octets() {
            return None;
        }
        let size = match stage {
            LineStage::Digits => self.size * 16 + hex_value(octet),
            _ => self.size,
        };
        Some(ChunkLineReader {
            stage,
            size,
            len: self.len + 1,
        })
    }

    /// Reads the next piece: once the line is whole, the size of the chunk and how many octets of
    /// the piece the line takes. A fault comes with the first octet that no chunk line goes on with.
    pub(crate) fn feed(&mut self, piece: &[u8]) -> Result<Option<(u64, usize)>, ChunkFault>
        // Each result stands only where it says so.
        ensures gives { (octets : List ℕ) → AgreesLine self.old octets
            → GivesLine result self.new octets piece.now }
        // The line takes octets of the piece, and one at least.
        ensures taken { IfOk result (λ line. IfSome line
            (λ found. (0 < found.1) × (found.1 ≤ length piece.now))) }
    {
        for (index, octet) in piece.iter().enumerate() {
            let Some(next) = self.after(*octet) else {
                return Err(ChunkFault::Syntax);
            };
            *self = next;
            if let LineStage::End = self.stage {
                return Ok(Some((self.size, index + 1)));
            }
        }
        Ok(None)
    }
}
