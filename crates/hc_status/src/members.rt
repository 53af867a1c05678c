//! Members and lists (RFC 8941 section 4.2.1).

ghost use Rattle.std.specs.Prelude.{◌≡◌, IfOk, IfErr, Ok, Some};
ghost use Rattle.hc_status.specs.Answers.{Lacks};
ghost use Rattle.hc_status.specs.Faults.{Fails};
ghost use Rattle.hc_status.specs.Reading.{behind, item_at, list_of, member_at, members_at};

use crate::bare_items::bare;
use crate::fault::SfFault;
use crate::items::Member;
use crate::parameters::parameters;
use crate::scan::{skip_blanks, skip_spaces};
use std::alloc::Global;

/// An item with its parameters, and what stands behind them.
#[tactic(auto, unfolding(crate::specs::Reading::item_at))]
fn item(alloc: Global, text: &[u8]) -> Result<(Member, &[u8]), SfFault>
    ensures ok { IfOk result (λ read. item_at text.now ≡ Some (read.0, read.1.now)) }
    ensures err { IfErr result (λ fault. Lacks fault (item_at text.now)) }
{
    let (item, behind) = bare(alloc, text)?;
    let (params, rest) = parameters(alloc, behind)?;
    Ok((Member { item, params }, rest))
}

/// The member at the front, if it is no inner list.
fn member(alloc: Global, text: &[u8]) -> Result<(Member, &[u8]), SfFault>
    ensures ok { IfOk result (λ read. member_at text.now ≡ Ok (read.0, read.1.now)) }
    ensures err { IfErr result (λ fault. Fails fault (member_at text.now)) }
{
    match text.first() {
        None => Err(SfFault::Syntax),
        Some(b'(') => Err(SfFault::InnerList),
        Some(_) => item(alloc, text),
    }
}

/// The members of a list that has one at least.
fn members(alloc: Global, text: &[u8]) -> Result<Vec<Member>, SfFault>
    ensures ok { IfOk result (λ list. members_at text.now ≡ Ok list.items) }
    ensures err { IfErr result (λ fault. Fails fault (members_at text.now)) }
{
    let mut members = Vec::new(alloc);
    let mut rest = text;
    loop {
        let (member, behind) = member(alloc, rest)?;
        members.push(member)?;
        let Some((comma, more)) = skip_blanks(behind).split_first() else {
            return Ok(members);
        };
        if *comma != b',' {
            return Err(SfFault::Syntax);
        }
        rest = skip_blanks(more);
    }
}

/// The list that the octets are.
#[tactic(auto, unfolding(crate::specs::Reading::list_of))]
pub(crate) fn list(alloc: Global, octets: &[u8]) -> Result<Vec<Member>, SfFault>
    ensures ok { IfOk result (λ list. list_of octets.now ≡ Ok list.items) }
    ensures err { IfErr result (λ fault. Fails fault (list_of octets.now)) }
{
    let text = skip_spaces(octets);
    if text.is_empty() {
        return Ok(Vec::new(alloc));
    }
    members(alloc, text)
}
