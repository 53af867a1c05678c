//! Why something is refused, fails, or is given up, and the statuses that refuse requests.

ghost use Rattle.std.specs.Prelude.{◌≡◌};
ghost use Rattle.hc_incoming.specs.Troubles.{head_trouble, last_trouble, refusal_status, trouble_of};

use hc_framing::FrameFault;
use hc_head::{HeadFault, StatusCode};

/// What is wrong with a message that came on a link, with what it asks, or with the link itself.
#[derive(Clone, Copy, PartialEq, Eq)]
pub enum Trouble {
    /// The message breaks the syntax of HTTP/1.1.
    Syntax,
    /// Its head has more fields than there is room for.
    TooManyFields,
    /// Its head is longer than there is room for.
    HeadTooLong,
    /// The request has not exactly one valid Host line.
    Host,
    /// The target of the request names nothing of an origin.
    Target,
    /// It wants a stored response alone (RFC 9111 section 5.2.1.7), and there is none that may answer it.
    NotStored,
    /// The message has both Transfer-Encoding and Content-Length.
    BothLengths,
    /// It says wrongly how long its body is.
    BadLength,
    /// Its transfer coding isn't known.
    BadCoding,
    /// A chunk of its body breaks the syntax.
    BadChunk,
    /// Its body is too long, or is said to be.
    BodyTooLong,
    /// The link ended inside of it.
    EndedEarly,
    /// The client waits for an interim response before it sends the body.
    Expectation,
    /// The response changes to another protocol.
    SwitchesProtocol,
    /// More interim responses came than may.
    TooManyInterim,
    /// No place at the origin came free in time.
    Unplaced,
    /// No link to the origin could be made.
    Unreached,
    /// None was made in time.
    ConnectLate,
    /// The link broke off.
    Broken,
    /// Nothing passed on the link for too long.
    Silent,
    /// It took too long in all.
    Unfinished,
    /// Too much was held beside the store, and most of it here.
    Heavy,
    /// Nobody waited for it any more.
    Abandoned,
}

impl Trouble {
    /// The same in a few words, of a message, a forward or a link that was named before.
    pub fn name(self) -> &'static str {
        match self {
            Trouble::Syntax => "it breaks the syntax of HTTP/1.1",
            Trouble::TooManyFields => "it has too many fields",
            Trouble::HeadTooLong => "its head is too long",
            Trouble::Host => "it has not exactly one valid Host line",
            Trouble::Target => "its target names nothing of an origin",
            Trouble::NotStored => "it wants a stored response, and none may answer it",
            Trouble::BothLengths => "it has both Transfer-Encoding and Content-Length",
            Trouble::BadLength => "it says wrongly how long its body is",
            Trouble::BadCoding => "its transfer coding is not known",
            Trouble::BadChunk => "a chunk of its body breaks the syntax",
            Trouble::BodyTooLong => "its body is too long",
            Trouble::EndedEarly => "it was cut off",
            Trouble::Expectation => "it expects an interim response",
            Trouble::SwitchesProtocol => "it changes to another protocol",
            Trouble::TooManyInterim => "too many interim responses came before it",
            Trouble::Unplaced => "no place at the origin came free in time",
            Trouble::Unreached => "no link to the origin could be made",
            Trouble::ConnectLate => "no link to the origin was made in time",
            Trouble::Broken => "the link to the origin broke off",
            Trouble::Silent => "the origin fell silent",
            Trouble::Unfinished => "the origin took too long",
            Trouble::Heavy => "too much was held",
            Trouble::Abandoned => "no client waited for it any more",
        }
    }
}

/// What a fault of a head tells. Refused memory is told otherwise.
pub(crate) fn head_trouble(fault: HeadFault) -> Trouble
    ensures { result ≡ head_trouble fault }
{
    match fault {
        HeadFault::Syntax => Trouble::Syntax,
        HeadFault::TooManyFields => Trouble::TooManyFields,
        HeadFault::TooLong => Trouble::HeadTooLong,
        HeadFault::Host => Trouble::Host,
        HeadFault::Target => Trouble::Target,
        HeadFault::Memory => Trouble::Syntax,
    }
}

/// What a fault of a message tells. Refused memory is told otherwise, and that a reader has failed before is no news.
pub(crate) fn trouble_of(fault: FrameFault) -> Trouble
    ensures { result ≡ trouble_of fault }
{
    match fault {
        FrameFault::Head(fault) => head_trouble(fault),
        FrameFault::BothLengths => Trouble::BothLengths,
        FrameFault::BadLength => Trouble::BadLength,
        FrameFault::BadCoding => Trouble::BadCoding,
        FrameFault::BadChunk => Trouble::BadChunk,
        FrameFault::BodyTooLong => Trouble::BodyTooLong,
        FrameFault::Truncated => Trouble::EndedEarly,
        FrameFault::Memory => Trouble::Syntax,
        FrameFault::Failed => Trouble::Syntax,
    }
}

/// What a fault tells at the client's end, where what is merely cut off has no reply.
pub(crate) fn last_trouble(fault: FrameFault) -> Option<Trouble>
    ensures { result ≡ last_trouble fault }
{
    match fault {
        FrameFault::Truncated => None,
        other => Some(trouble_of(other)),
    }
}

/// The status of the reply that refuses a request.
pub fn refusal_status(trouble: Trouble) -> StatusCode
    ensures { result ≡ refusal_status trouble }
{
    match trouble {
        Trouble::TooManyFields => StatusCode::REQUEST_HEADER_FIELDS_TOO_LARGE,
        Trouble::HeadTooLong => StatusCode::REQUEST_HEADER_FIELDS_TOO_LARGE,
        Trouble::BodyTooLong => StatusCode::CONTENT_TOO_LARGE,
        Trouble::BadCoding => StatusCode::NOT_IMPLEMENTED,
        Trouble::Expectation => StatusCode::EXPECTATION_FAILED,
        _ => StatusCode::BAD_REQUEST,
    }
}
