//! The first line of octets.

ghost use Rattle.std.specs.Prelude.{◌≡◌, false, IfOk, IfErr};
ghost use Rattle.std.specs.List.{list_any};
ghost use Rattle.hc_transcript.specs.Lines.{is_feed};
ghost use Rattle.hc_scripts.specs.ScriptFaults.{BeginsLine};
ghost use Rattle.hc_scripts.specs.ScriptParts.{LacksLine};

use crate::fault::ScriptFault;
use crate::limits::LONGEST_LINE;
use crate::splitting::split_at_mark;

/// The text of the first line, and what stands behind its line feed.
#[tactic(auto, using(crate::proofs::ScriptEventLemmas::long_before_feed))]
pub(crate) fn first_line(octets: &[u8]) -> Result<(&[u8], &[u8]), ScriptFault>
    ensures ok { IfOk result (λ parts. BeginsLine octets.now parts.0.now parts.1.now) }
    ensures err { IfErr result (λ f. LacksLine f octets.now) }
{
    let Some((text, behind)) = split_at_mark(octets, b'\n') else {
        return Err(unended(octets));
    };
    if text.len() >= LONGEST_LINE {
        return Err(ScriptFault::Line);
    }
    Ok((text, behind))
}

/// What octets without a line feed are: the beginning of a line, or too long for one.
#[tactic(auto, using(crate::proofs::ScriptEventLemmas::long_without_feed))]
fn unended(octets: &[u8]) -> ScriptFault
    requires { list_any is_feed octets.now ≡ false }
    ensures { LacksLine result octets.now }
{
    if octets.len() < LONGEST_LINE {
        ScriptFault::Torn
    } else {
        ScriptFault::Line
    }
}
