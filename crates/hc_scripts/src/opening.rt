//! What stands at the front of a script.

ghost use Rattle.std.specs.Prelude.{◌≡◌, ◌++◌, IfOk, IfErr};
ghost use Rattle.hc_scripts.specs.Scripts.{opening};
ghost use Rattle.hc_scripts.specs.ScriptFaults.{OpeningBreaks};

use crate::fault::ScriptFault;

/// What stands at the front of a script.
pub const OPENING: &[u8] = b"HCS1\n";

/// What stands behind the opening.
#[tactic(auto, using(crate::proofs::ScriptEventLemmas::opening_unfinished))]
pub(crate) fn behind_opening(octets: &[u8]) -> Result<&[u8], ScriptFault>
    ensures ok { IfOk result (λ rest. octets.now ≡ opening ++ rest.now) }
    ensures err { IfErr result (λ f. OpeningBreaks f octets.now) }
{
    if octets.starts_with(OPENING) {
        let (_, behind) = octets.split_at(OPENING.len());
        return Ok(behind);
    }
    if OPENING.starts_with(octets) {
        Err(ScriptFault::Torn)
    } else {
        Err(ScriptFault::Opening)
    }
}
