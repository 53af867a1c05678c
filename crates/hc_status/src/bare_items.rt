//! Bare items (RFC 8941 section 4.2.3.1).

ghost use Rattle.std.specs.Prelude.{◌≡◌, IfOk, IfErr, Some, drop};
ghost use Rattle.std.specs.List.{take_while};
ghost use Rattle.hc_status.specs.Answers.{Lacks};
ghost use Rattle.hc_status.specs.Classes.{is_base64_octet, is_number_octet, is_number_start, is_token_octet, is_token_start};
ghost use Rattle.hc_status.specs.Reading.{bare_at, behind, boolean_at, closed_bytes, number_of};

use crate::fault::SfFault;
use crate::items::Bare;
use crate::numbers::number_of;
use crate::scan::{base64_len, number_len, token_len};
use crate::strings::string;
use hc_fields::Octets;
use std::alloc::{AllocError, Global};

fn is_token_start(octet: u8) -> bool
    ensures { result ≡ is_token_start octet }
{
    octet.is_ascii_alphabetic() || octet == b'*'
}

fn is_number_start(octet: u8) -> bool
    ensures { result ≡ is_number_start octet }
{
    octet.is_ascii_digit() || octet == b'-'
}

/// The byte sequence behind its opening colon.
fn bytes(alloc: Global, text: &[u8]) -> Result<(Bare, &[u8]), SfFault>
    ensures ok { IfOk result (λ read. closed_bytes (take_while is_base64_octet text.now)
        (behind is_base64_octet text.now) ≡ Some (read.0, read.1.now)) }
    ensures err { IfErr result (λ fault. Lacks fault (closed_bytes (take_while is_base64_octet text.now)
        (behind is_base64_octet text.now))) }
{
    let (inner, rest) = text.split_at(base64_len(text));
    let Some((b':', behind)) = rest.split_first() else {
        return Err(SfFault::Syntax);
    };
    Ok((Bare::Bytes(Octets::from_slice(alloc, inner)?), behind))
}

/// The Boolean behind its question mark.
fn boolean(text: &[u8]) -> Result<(Bare, &[u8]), SfFault>
    ensures ok { IfOk result (λ read. boolean_at text.now ≡ Some (read.0, read.1.now)) }
    ensures err { IfErr result (λ fault. Lacks fault (boolean_at text.now)) }
{
    match text.split_first() {
        Some((b'0', behind)) => Ok((Bare::Bool(false), behind)),
        Some((b'1', behind)) => Ok((Bare::Bool(true), behind)),
        _ => Err(SfFault::Syntax),
    }
}

fn token(alloc: Global, text: &[u8]) -> Result<(Bare, &[u8]), AllocError>
    ensures { IfOk result (λ read. (read.0 ≡ Bare.Token (take_while is_token_octet text.now))
        × (read.1.now ≡ behind is_token_octet text.now)) }
{
    let (token, behind) = text.split_at(token_len(text));
    Ok((Bare::Token(Octets::from_slice(alloc, token)?), behind))
}

fn number(alloc: Global, text: &[u8]) -> Result<(Bare, &[u8]), SfFault>
    ensures ok { IfOk result (λ read. (number_of (take_while is_number_octet text.now) ≡ Some read.0)
        × (read.1.now ≡ behind is_number_octet text.now)) }
    ensures err { IfErr result (λ fault. Lacks fault (number_of (take_while is_number_octet text.now))) }
{
    let (number, behind) = text.split_at(number_len(text));
    Ok((number_of(alloc, number)?, behind))
}

/// The bare item at the front, and what stands behind it.
#[tactic(auto, unfolding(crate::specs::Reading::bare_at))]
pub(crate) fn bare(alloc: Global, text: &[u8]) -> Result<(Bare, &[u8]), SfFault>
    ensures ok { IfOk result (λ read. bare_at text.now ≡ Some (read.0, read.1.now)) }
    ensures err { IfErr result (λ fault. Lacks fault (bare_at text.now)) }
{
    let Some((first, behind)) = text.split_first() else {
        return Err(SfFault::Syntax);
    };
    if *first == b'"' {
        let (value, rest) = string(alloc, behind)?;
        return Ok((Bare::Str(value), rest));
    }
    if *first == b':' {
        return bytes(alloc, behind);
    }
    if *first == b'?' {
        return boolean(behind);
    }
    if is_token_start(*first) {
        return Ok(token(alloc, text)?);
    }
    if is_number_start(*first) {
        return number(alloc, text);
    }
    Err(SfFault::Syntax)
}
