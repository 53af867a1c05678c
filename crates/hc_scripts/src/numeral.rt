//! Decimals without a leading zero, up to a greatest number.

ghost use Rattle.std.specs.Prelude.{◌≡◌, ℕ, List, ◌^◌, ◌<◌, IfSome, IfNone};
ghost use Rattle.hc_scripts.specs.ScriptParts.{IsNumeral, IsNumeralThen};

use crate::splitting::split_at_mark;

/// The number that the text writes, where it is at most the greatest.
#[tactic(auto, using(crate::proofs::ScriptNumeralLemmas::numeral_read))]
pub(crate) fn numeral(text: &[u8], greatest: u64) -> Option<u64>
    requires { greatest < 10 ^ 18 }
    ensures found { IfSome result (IsNumeral text.now greatest) }
    ensures none { IfNone result ((n : ℕ) → ¬ (IsNumeral text.now greatest n)) }
{
    let number = hc_transcript::numeral(text)?;
    if number > greatest {
        return None;
    }
    Some(number)
}

/// The number up to the first space, and what follows the space.
pub(crate) fn numeral_before_space(text: &[u8], greatest: u64) -> Option<(u64, &[u8])>
    requires { greatest < 10 ^ 18 }
    ensures found { IfSome result (λ parts. IsNumeralThen text.now greatest parts.0 parts.1.now) }
    ensures none { IfNone result ((n : ℕ) (rest : List ℕ) → ¬ (IsNumeralThen text.now greatest n rest)) }
{
    let (front, rest) = split_at_mark(text, b' ')?;
    let number = numeral(front, greatest)?;
    Some((number, rest))
}
