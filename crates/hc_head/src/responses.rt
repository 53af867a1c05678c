//! Heads of responses.

ghost use Rattle.std.specs.Prelude.{◌≡◌, ℕ, List, ◌++◌, length, take, IfOk};
ghost use Rattle.httparse.specs.Spans.{IsResponseWithin, ResponseExceeds};
ghost use Rattle.hc_head.specs.declared.head.ResponseHead.{ResponseHead};
ghost use Rattle.hc_head.specs.Heads.{BeginsResponseHead, response_field_count};
ghost use Rattle.hc_head.specs.Places.{covered, covered_response, OnSpans};
ghost use Rattle.hc_head.specs.Reading.{IsWholeHead, GivesHead, FindsHead, CanBecomeHead, OnUnfinished, OnTooManyFields};

use crate::fault::HeadFault;
use crate::head::{FEW, ResponseHead, Room, Step};
use crate::parts::{fields_at, front_of, has_too_many, version_of};
use crate::statuses::StatusCode;
use crate::unfinished::has_low_status;
use httparse::spans::{EMPTY_HEADER_SPAN, HeaderSpan, ResponseSpans, parse_response};
use httparse::{Error, Status};
use std::alloc::{AllocError, Global};

/// The status of a response, and the spans of its head.
#[derive(Clone, Copy)]
pub(crate) struct FoundResponse {
    pub status: StatusCode,
    pub spans: ResponseSpans,
}

/// Finds the spans of the head that begins the octets, of which no more than the room are looked at.
pub(crate) fn find_response(
    bytes: &[u8],
    room: Room,
    spans: &mut [HeaderSpan],
) -> Result<Step<FoundResponse>, HeadFault>
    requires { length spans.old ≡ room.fields }
    ensures gives { GivesHead BeginsResponseHead response_field_count
        (covered (covered_response bytes.now spans.new) result) bytes.now room }
    ensures within { OnSpans (λ found len. IsResponseWithin bytes.now spans.new found.spans × (len ≡ found.spans.len))
        result }
    ensures unfinished { OnUnfinished result (CanBecomeHead BeginsResponseHead (take room.octets bytes.now)) }
    ensures too_many { OnTooManyFields result (ResponseExceeds room.fields (take room.octets bytes.now)) }
{
    let front = front_of(bytes, room.octets);
    match parse_response(front, spans) {
        Ok(Status::Complete(found)) => {
            let Some(status) = StatusCode::from_u16(found.code) else {
                return Err(HeadFault::Syntax);
            };
            let response = FoundResponse {
                status,
                spans: found,
            };
            Ok(Step::Whole(response, found.len))
        }
        Ok(Status::Partial) => {
            if has_low_status(front) {
                Err(HeadFault::Syntax)
            } else if bytes.len() < room.octets {
                Ok(Step::More)
            } else {
                Err(HeadFault::TooLong)
            }
        }
        Err(Error::TooManyHeaders) => Err(HeadFault::TooManyFields),
        Err(_) => Err(HeadFault::Syntax),
    }
}

/// The head that the spans cover.
fn head_at(
    alloc: Global,
    bytes: &[u8],
    found: FoundResponse,
    spans: &[HeaderSpan],
) -> Result<ResponseHead, AllocError>
    requires { IsResponseWithin bytes.now spans.now found.spans }
    ensures { IfOk result (λ head. head ≡ covered_response bytes.now spans.now found) }
{
    Ok(ResponseHead {
        status: found.status,
        version: version_of(found.spans.version),
        fields: fields_at(alloc, bytes, &spans[..found.spans.headers])?,
    })
}

fn read_into(
    alloc: Global,
    bytes: &[u8],
    room: Room,
    spans: &mut [HeaderSpan],
) -> Result<Step<ResponseHead>, HeadFault>
    requires { length spans.old ≡ room.fields }
    ensures gives { GivesHead BeginsResponseHead response_field_count result bytes.now room }
    ensures unfinished { OnUnfinished result (CanBecomeHead BeginsResponseHead (take room.octets bytes.now)) }
    ensures too_many { OnTooManyFields result (ResponseExceeds room.fields (take room.octets bytes.now)) }
{
    match find_response(bytes, room, spans) {
        Err(fault) => Err(fault),
        Ok(Step::More) => Ok(Step::More),
        Ok(Step::Whole(found, len)) => {
            let head = head_at(alloc, bytes, found, spans)?;
            Ok(Step::Whole(head, len))
        }
    }
}

/// Reads the head of a response that begins the octets, of which no more than the room are looked at.
pub fn read_response(
    alloc: Global,
    bytes: &[u8],
    room: Room,
) -> Result<Step<ResponseHead>, HeadFault>
    // Each result stands only where it says so.
    ensures gives { GivesHead BeginsResponseHead response_field_count result bytes.now room }
    // A whole head is found, unless memory runs out.
    ensures found { (head : ResponseHead) (len : ℕ)
        → IsWholeHead BeginsResponseHead response_field_count bytes.now room head len → FindsHead result head len }
    // More octets are wanted only where they can make a head.
    ensures unfinished { OnUnfinished result (CanBecomeHead BeginsResponseHead (take room.octets bytes.now)) }
    // Too many fields are told only behind a start line and more fields than the room, each of them valid.
    ensures too_many { OnTooManyFields result (ResponseExceeds room.fields (take room.octets bytes.now)) }
{
    if FEW < room.fields {
        let mut spans = [EMPTY_HEADER_SPAN; FEW];
        let answer = read_into(alloc, bytes, room.for_few(), &mut spans);
        if !has_too_many(&answer) {
            return answer;
        }
    }
    let mut spans = vec![in alloc; EMPTY_HEADER_SPAN; room.fields]?;
    read_into(alloc, bytes, room, &mut spans)
}

/// Octets begin with one head of a response at most, and what follows doesn't change it.
pub fn one_response_head()
    ensures { (octets more : List ℕ) (head other : ResponseHead) (m n : ℕ)
        → BeginsResponseHead octets head m → BeginsResponseHead (octets ++ more) other n
        → (head ≡ other) × (m ≡ n) }
{}
