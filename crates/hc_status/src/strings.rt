//! Strings (RFC 8941 section 4.2.5).

ghost use Rattle.std.specs.Prelude.{◌≡◌, IfOk, IfErr, Some, []};
ghost use Rattle.hc_status.specs.Answers.{Lacks};
ghost use Rattle.hc_status.specs.Classes.{is_escaped, is_printable};
ghost use Rattle.hc_status.specs.Reading.{string_from};

use crate::fault::SfFault;
use hc_fields::Octets;
use std::alloc::Global;

fn is_printable(octet: u8) -> bool
    ensures { result ≡ is_printable octet }
{
    (b' '..=b'~').contains(&octet)
}

fn is_escaped(octet: u8) -> bool
    ensures { result ≡ is_escaped octet }
{
    octet == b'"' || octet == b'\\'
}

/// The string behind its opening quote, without its backslashes, and what stands behind its closing
/// quote.
#[tactic(auto, unfolding(crate::specs::Reading::string_from))]
pub(crate) fn string(alloc: Global, text: &[u8]) -> Result<(Octets, &[u8]), SfFault>
    ensures ok { IfOk result (λ read. string_from [] text.now ≡ Some (read.0, read.1.now)) }
    ensures err { IfErr result (λ fault. Lacks fault (string_from [] text.now)) }
{
    let mut value = Vec::new(alloc);
    let mut rest = text;
    while let Some((octet, behind)) = rest.split_first() {
        if *octet == b'"' {
            return Ok((Octets::from_vec(value), behind));
        }
        if *octet == b'\\' {
            let Some((escaped, behind)) = behind.split_first() else {
                return Err(SfFault::Syntax);
            };
            if !is_escaped(*escaped) {
                return Err(SfFault::Syntax);
            }
            value.push(*escaped)?;
            rest = behind;
        } else {
            if !is_printable(*octet) {
                return Err(SfFault::Syntax);
            }
            value.push(*octet)?;
            rest = behind;
        }
    }
    Err(SfFault::Syntax)
}
