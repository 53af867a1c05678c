//! The formats of a transcript.

ghost use Rattle.std.specs.Prelude.{◌≡◌, ◌≢◌, ℕ, List, ◌++◌, true, false, IfSome, IfNone};
ghost use Rattle.hc_transcript.specs.declared.format.Format.{Format};
ghost use Rattle.hc_transcript.specs.Records.{opening};
ghost use Rattle.hc_transcript.specs.Malformed.{HasNoOpening, IsUnfinishedOpening};

/// The format of a transcript, which its opening tells.
#[derive(Clone, Copy, PartialEq, Eq)]
pub enum Format {
    /// `HCT1`: nothing tells for which exchange a forward was made.
    First,
    /// `HCT2`: the line of a forward tells its cause, the exchange that it was made for.
    Second,
}

impl Format {
    /// What stands at the front of a transcript.
    pub fn opening(self) -> &'static [u8]
        ensures { result.now ≡ opening self }
    {
        match self {
            Format::First => b"HCT1\n",
            Format::Second => b"HCT2\n",
        }
    }
}

/// The format whose opening begins the octets.
pub(crate) fn format_at(octets: &[u8]) -> Option<Format>
    ensures found { IfSome result (λ format. (rest : List ℕ) × (octets.now ≡ opening format ++ rest)) }
    ensures none { IfNone result ((format : Format) (rest : List ℕ) → octets.now ≢ opening format ++ rest) }
{
    if octets.starts_with(Format::First.opening()) {
        Some(Format::First)
    } else if octets.starts_with(Format::Second.opening()) {
        Some(Format::Second)
    } else {
        None
    }
}

/// Whether octets that no opening begins may go on to one.
pub(crate) fn may_open(octets: &[u8]) -> bool
    requires { (format : Format) (rest : List ℕ) → octets.now ≢ opening format ++ rest }
    ensures may { result ≡ true → IsUnfinishedOpening octets.now }
    ensures never { result ≡ false → HasNoOpening octets.now }
{
    Format::First.opening().starts_with(octets) || Format::Second.opening().starts_with(octets)
}
