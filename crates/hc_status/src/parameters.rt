//! Parameters (RFC 8941 section 4.2.3.2) and their keys (section 4.2.3.3).

ghost use Rattle.std.specs.Prelude.{◌≡◌, ◌∷◌, false, IfOk, IfErr, IfSome, IfNone, Some};
ghost use Rattle.hc_status.specs.Answers.{Lacks, begins_parameter};
ghost use Rattle.hc_status.specs.Reading.{behind, key_at, parameter_at, parameters_at, value_at};

use crate::bare_items::bare;
use crate::fault::SfFault;
use crate::items::{Bare, Parameter, Parameters};
use crate::scan::{is_key_start, key_len, skip_spaces};
use hc_fields::Octets;
use std::alloc::Global;

fn key(alloc: Global, text: &[u8]) -> Result<(Octets, &[u8]), SfFault>
    ensures ok { IfOk result (λ read. key_at text.now ≡ Some (read.0, read.1.now)) }
    ensures err { IfErr result (λ fault. Lacks fault (key_at text.now)) }
{
    let Some(first) = text.first() else {
        return Err(SfFault::Syntax);
    };
    if !is_key_start(*first) {
        return Err(SfFault::Syntax);
    }
    let (key, behind) = text.split_at(key_len(text));
    Ok((Octets::from_slice(alloc, key)?, behind))
}

/// The value behind a key.
fn value(alloc: Global, text: &[u8]) -> Result<(Bare, &[u8]), SfFault>
    ensures ok { IfOk result (λ read. value_at text.now ≡ Some (read.0, read.1.now)) }
    ensures err { IfErr result (λ fault. Lacks fault (value_at text.now)) }
{
    match text.split_first() {
        Some((b'=', behind)) => bare(alloc, behind),
        _ => Ok((Bare::Bool(true), text)),
    }
}

/// The parameter behind its semicolon.
#[tactic(auto, unfolding(crate::specs::Reading::parameter_at))]
fn parameter(alloc: Global, text: &[u8]) -> Result<(Parameter, &[u8]), SfFault>
    ensures ok { IfOk result (λ read. parameter_at text.now ≡ Some (read.0, read.1.now)) }
    ensures err { IfErr result (λ fault. Lacks fault (parameter_at text.now)) }
{
    let (key, behind) = key(alloc, skip_spaces(text))?;
    let (value, rest) = value(alloc, behind)?;
    Ok((Parameter { key, value }, rest))
}

/// What stands behind the semicolon in front, if one stands there.
fn behind_semicolon(text: &[u8]) -> Option<&[u8]>
    ensures found { IfSome result (λ behind. text.now ≡ 59 ∷ behind.now) }
    ensures none { IfNone result (begins_parameter text.now ≡ false) }
{
    match text.split_first() {
        Some((b';', behind)) => Some(behind),
        _ => None,
    }
}

/// The parameters at the front, and what stands behind them.
pub(crate) fn parameters(alloc: Global, text: &[u8]) -> Result<(Parameters, &[u8]), SfFault>
    ensures ok { IfOk result (λ read. parameters_at text.now ≡ Some (read.0, read.1.now)) }
    ensures err { IfErr result (λ fault. Lacks fault (parameters_at text.now)) }
{
    let mut params = Parameters::new(alloc);
    let mut rest = text;
    while let Some(behind) = behind_semicolon(rest) {
        let (param, behind) = parameter(alloc, behind)?;
        params.set(param)?;
        rest = behind;
    }
    Ok((params, rest))
}
