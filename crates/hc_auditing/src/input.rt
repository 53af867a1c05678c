//! An input that is read up to its end.
ghost use Rattle.std.specs.Prelude.{◌≡◌, ◌++◌, None, IfOk, OnOk};
ghost use Rattle.std.specs.Io.KnownBytes.{Consumes, IsAtEnd};
ghost use Rattle.hc_auditing.specs.declared.trouble.Trouble.TheVariants.{Memory};
ghost use Rattle.hc_auditing.specs.Laws.{gathers_nothing, gathers_on};

use crate::pulling::{Fed, buffer, pull};
use crate::trouble::Trouble;
use std::alloc::Global;
use std::io::Read;

/// What `input` gives up to its end.
pub fn all_of<R: Read>(alloc: Global, input: &mut R) -> Result<Vec<u8>, Trouble>
    ensures consumed { IfOk result (λ octets. Consumes (R.remaining input.old) (R.remaining input.new) octets.items) }
    ensures end { OnOk result (IsAtEnd (R.remaining input.new)) }
{
    let mut piece = buffer(alloc)?;
    let mut octets = Vec::new(alloc);
    pull(&mut octets, &mut (), input, piece.as_mut_slice())?;
    Ok(octets)
}

// It needs more of them, however many it has.
impl Fed<()> for Vec<u8> {
    type Answer = ();

    ghost goes = { λ first _ last _ octets answer. (last.items ≡ first.items ++ octets) × (answer ≡ None) };

    ghost fails = { λ trouble. trouble ≡ Memory };

    ghost stays = { gathers_nothing };

    ghost goes_on = { gathers_on };

    fn take(&mut self, piece: &[u8], _told: &mut ()) -> Result<Option<()>, Trouble> {
        self.extend_from_slice(piece)?;
        Ok(None)
    }
}
