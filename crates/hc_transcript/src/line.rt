//! The line that begins a record.

ghost use Rattle.std.specs.Prelude.{◌≡◌, ◌≢◌, ℕ, ◌<◌, IfSome, IfNone, IsTrue, true, false, List, [], ◌∷◌, take, drop, length};
ghost use Rattle.std.specs.List.{list_any};
ghost use Rattle.hc_transcript.specs.declared.line.Line.{Line};
ghost use Rattle.hc_transcript.specs.declared.line.ToldCause.{ToldCause};
ghost use Rattle.hc_transcript.specs.Records.{letter, line_has_cause, told_in, exchange_told};
ghost use Rattle.hc_transcript.specs.Lines.{IsLineText, WritesCause, IsEnd};

use crate::format::Format;
use crate::numerals::{numeral, numeral_before_space};

/// What a record tells.
#[derive(Clone, Copy, PartialEq, Eq)]
pub enum Kind {
    /// `q`
    ClientRequest,
    /// `f`
    OriginRequest,
    /// `r`
    OriginResponse,
    /// `x`
    OriginFailure,
    /// `a`
    ClientReply,
}

/// What a line tells of the cause of a forward: the exchange that it was made for.
#[derive(Clone, Copy, PartialEq, Eq)]
pub enum ToldCause {
    /// Nothing: it is no line of a forward, or the format has no causes.
    Untold,
    /// `-`: no reply waits for the forward.
    NoExchange,
    /// The number of the exchange.
    Exchange(u64),
}

impl ToldCause {
    /// What a transcript of that format tells of the cause of a forward: in the first format nothing.
    pub fn told_in(format: Format, cause: Option<u64>) -> Self
        ensures { result ≡ told_in format cause }
    {
        match (format, cause) {
            (Format::First, _) => ToldCause::Untold,
            (Format::Second, None) => ToldCause::NoExchange,
            (Format::Second, Some(exchange)) => ToldCause::Exchange(exchange),
        }
    }

    /// The exchange, where one is told.
    pub(crate) fn exchange(self) -> Option<u64>
        ensures { result ≡ exchange_told self }
    {
        match self {
            ToldCause::Exchange(number) => Some(number),
            ToldCause::Untold | ToldCause::NoExchange => None,
        }
    }
}

/// The line that begins a record: its kind, the number of its exchange or forward, its moment in
/// whole seconds since 1970, how many octets its message has, and the cause of a forward.
#[derive(Clone, Copy, PartialEq, Eq)]
pub struct Line {
    /// What passed.
    pub kind: Kind,
    /// The number of its exchange or its forward.
    pub number: u64,
    /// In whole seconds since 1970.
    pub moment: u64,
    /// How many octets the message has.
    pub size: u64,
    /// What it tells of the cause of a forward.
    pub cause: ToldCause,
}

fn kind_of(octet: u8) -> Option<Kind>
    ensures found { IfSome result (λ kind. letter kind ≡ octet) }
    ensures none { IfNone result ((kind : Kind) → letter kind ≢ octet) }
{
    match octet {
        b'q' => Some(Kind::ClientRequest),
        b'f' => Some(Kind::OriginRequest),
        b'r' => Some(Kind::OriginResponse),
        b'x' => Some(Kind::OriginFailure),
        b'a' => Some(Kind::ClientReply),
        _ => None,
    }
}

/// Whether the line of a record of that kind tells a cause.
pub(crate) fn line_has_cause(format: Format, kind: Kind) -> bool
    ensures { result ≡ line_has_cause format kind }
{
    match (format, kind) {
        (Format::Second, Kind::OriginRequest) => true,
        _ => false,
    }
}

/// The cause that the text writes.
fn read_cause(text: &[u8]) -> Option<ToldCause>
    ensures found { IfSome result (WritesCause text.now) }
    ensures none { IfNone result ((cause : ToldCause) → ¬ (WritesCause text.now cause)) }
{
    if let [b'-'] = text {
        return Some(ToldCause::NoExchange);
    }
    let number = numeral(text)?;
    Some(ToldCause::Exchange(number))
}

/// The length with which the text of a line ends, and what is told of a cause behind it.
fn size_and_cause(with_cause: bool, text: &[u8]) -> Option<(u64, ToldCause)>
    ensures found { IfSome result (λ r. IsEnd with_cause text.now r.0 r.1) }
    ensures none { IfNone result ((size : ℕ) (cause : ToldCause) → ¬ (IsEnd with_cause text.now size cause)) }
{
    if !with_cause {
        let size = numeral(text)?;
        return Some((size, ToldCause::Untold));
    }
    let (size, rest) = numeral_before_space(text)?;
    let cause = read_cause(rest)?;
    Some((size, cause))
}

/// The line that the text is, without its line feed.
pub(crate) fn parse_line(format: Format, text: &[u8]) -> Option<Line>
    ensures found { IfSome result (IsLineText format text.now) }
    ensures none { IfNone result ((line : Line) → ¬ (IsLineText format text.now line)) }
{
    let [letter, b' ', rest @ ..] = text else {
        return None;
    };
    let kind = kind_of(*letter)?;
    let (number, rest) = numeral_before_space(rest)?;
    let (moment, rest) = numeral_before_space(rest)?;
    let (size, cause) = size_and_cause(line_has_cause(format, kind), rest)?;
    Some(Line {
        kind,
        number,
        moment,
        size,
        cause,
    })
}
