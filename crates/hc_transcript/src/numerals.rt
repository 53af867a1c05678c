//! Decimals without a leading zero.

ghost use Rattle.std.specs.Prelude.{◌≡◌, ◌≢◌, ℕ, List, ◌++◌, ◌∷◌, IfSome, IfNone};
ghost use Rattle.hc_transcript.specs.Lines.{Writes};
ghost use Rattle.hc_transcript.specs.Numerals.{SplitsAtSpace};

use hc_fields::decimal;

/// The number that the text writes in decimal digits, without a leading zero.
pub fn numeral(text: &[u8]) -> Option<u64>
    ensures found { IfSome result (Writes text.now) }
    ensures none { IfNone result ((n : ℕ) → ¬ (Writes text.now n)) }
{
    if text.len() > 1 && text[0] == b'0' {
        return None;
    }
    decimal(text)
}

/// The number up to the first space, and what follows the space.
pub(crate) fn numeral_before_space(text: &[u8]) -> Option<(u64, &[u8])>
    ensures found { IfSome result (λ r. SplitsAtSpace text.now r.0 r.1.now) }
    ensures none { IfNone result ((n : ℕ) (rest : List ℕ) → ¬ (SplitsAtSpace text.now n rest)) }
{
    for (at, octet) in text.iter().enumerate() {
        if *octet == b' ' {
            let (front, back) = text.split_at(at);
            let (_, rest) = back.split_at(1);
            let number = numeral(front)?;
            return Some((number, rest));
        }
    }
    None
}
