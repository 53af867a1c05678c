//! Kinds of events, and their words in a script.

ghost use Rattle.std.specs.Prelude.{◌≡◌, ◌≢◌, IfSome, IfNone};
ghost use Rattle.hc_scripts.specs.declared.kind.EventKind.{EventKind};
ghost use Rattle.hc_scripts.specs.Scripts.{word, has_octets};

/// What an event tells.
#[derive(Clone, Copy)]
pub enum EventKind {
    /// `open`
    ClientOpened,
    /// `client`
    ClientBytes,
    /// `end`
    ClientEnd,
    /// `origin`
    OriginBytes,
    /// `originend`
    OriginEnd,
    /// `fail`
    OriginFailed,
}

/// The kind that the word stands for.
pub(crate) fn kind_of(text: &[u8]) -> Option<EventKind>
    ensures found { IfSome result (λ kind. text.now ≡ word kind) }
    ensures none { IfNone result ((kind : EventKind) → text.now ≢ word kind) }
{
    if text == b"open".as_slice() {
        Some(EventKind::ClientOpened)
    } else if text == b"client".as_slice() {
        Some(EventKind::ClientBytes)
    } else if text == b"end".as_slice() {
        Some(EventKind::ClientEnd)
    } else if text == b"origin".as_slice() {
        Some(EventKind::OriginBytes)
    } else if text == b"originend".as_slice() {
        Some(EventKind::OriginEnd)
    } else if text == b"fail".as_slice() {
        Some(EventKind::OriginFailed)
    } else {
        None
    }
}

/// Whether octets follow the line of such an event.
pub(crate) fn has_octets(kind: EventKind) -> bool
    ensures { result ≡ has_octets kind }
{
    matches!(kind, EventKind::ClientBytes | EventKind::OriginBytes)
}
