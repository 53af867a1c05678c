//! Heads of requests.

ghost use Rattle.std.specs.Prelude.{◌≡◌, ℕ, List, ◌++◌, length, take, IfOk};
ghost use Rattle.httparse.specs.Spans.{IsRequestWithin, RequestExceeds};
ghost use Rattle.hc_head.specs.declared.head.RequestHead.{RequestHead};
ghost use Rattle.hc_head.specs.Heads.{BeginsRequestHead, request_field_count};
ghost use Rattle.hc_head.specs.Places.{covered, covered_request, OnSpans};
ghost use Rattle.hc_head.specs.Reading.{IsWholeHead, GivesHead, FindsHead, CanBecomeHead, OnUnfinished, OnTooManyFields};

use crate::fault::HeadFault;
use crate::head::{FEW, RequestHead, Room, Step};
use crate::methods::Method;
use crate::parts::{fields_at, front_of, has_too_many, version_of};
use crate::unfinished::has_hopeless_target;
use hc_fields::Octets;
use httparse::spans::{EMPTY_HEADER_SPAN, HeaderSpan, RequestSpans, parse_request};
use httparse::{Error, Status};
use std::alloc::{AllocError, Global};

/// Finds the spans of the head that begins the octets, of which no more than the room are looked at.
pub(crate) fn find_request(
    bytes: &[u8],
    room: Room,
    spans: &mut [HeaderSpan],
) -> Result<Step<RequestSpans>, HeadFault>
    requires { length spans.old ≡ room.fields }
    ensures gives { GivesHead BeginsRequestHead request_field_count
        (covered (covered_request bytes.now spans.new) result) bytes.now room }
    ensures within { OnSpans (λ found len. IsRequestWithin bytes.now spans.new found × (len ≡ found.len)) result }
    ensures unfinished { OnUnfinished result (CanBecomeHead BeginsRequestHead (take room.octets bytes.now)) }
    ensures too_many { OnTooManyFields result (RequestExceeds room.fields (take room.octets bytes.now)) }
{
    let front = front_of(bytes, room.octets);
    match parse_request(front, spans) {
        Ok(Status::Complete(found)) => Ok(Step::Whole(found, found.len)),
        Ok(Status::Partial) => {
            if has_hopeless_target(front) {
                Err(HeadFault::Syntax)
            } else if bytes.len() < room.octets {
                Ok(Step::More)
            } else {
                Err(HeadFault::TooLong)
            }
        }
        Err(Error::TooManyHeaders) => Err(HeadFault::TooManyFields),
        Err(_) => Err(HeadFault::Syntax),
    }
}

/// The head that the spans cover.
fn head_at(
    alloc: Global,
    bytes: &[u8],
    found: RequestSpans,
    spans: &[HeaderSpan],
) -> Result<RequestHead, AllocError>
    requires { IsRequestWithin bytes.now spans.now found }
    ensures { IfOk result (λ head. head ≡ covered_request bytes.now spans.now found) }
{
    Ok(RequestHead {
        method: Method::from_slice(alloc, found.method.of(bytes))?,
        target: Octets::from_slice(alloc, found.path.of(bytes))?,
        version: version_of(found.version),
        fields: fields_at(alloc, bytes, &spans[..found.headers])?,
    })
}

fn read_into(
    alloc: Global,
    bytes: &[u8],
    room: Room,
    spans: &mut [HeaderSpan],
) -> Result<Step<RequestHead>, HeadFault>
    requires { length spans.old ≡ room.fields }
    ensures gives { GivesHead BeginsRequestHead request_field_count result bytes.now room }
    ensures unfinished { OnUnfinished result (CanBecomeHead BeginsRequestHead (take room.octets bytes.now)) }
    ensures too_many { OnTooManyFields result (RequestExceeds room.fields (take room.octets bytes.now)) }
{
    match find_request(bytes, room, spans) {
        Err(fault) => Err(fault),
        Ok(Step::More) => Ok(Step::More),
        Ok(Step::Whole(found, len)) => {
            let head = head_at(alloc, bytes, found, spans)?;
            Ok(Step::Whole(head, len))
        }
    }
}

/// Reads the head of a request that begins the octets, of which no more than the room are looked at.
pub fn read_request(alloc: Global, bytes: &[u8], room: Room) -> Result<Step<RequestHead>, HeadFault>
    // Each result stands only where it says so.
    ensures gives { GivesHead BeginsRequestHead request_field_count result bytes.now room }
    // A whole head is found, unless memory runs out.
    ensures found { (head : RequestHead) (len : ℕ)
        → IsWholeHead BeginsRequestHead request_field_count bytes.now room head len → FindsHead result head len }
    // More octets are wanted only where they can make a head.
    ensures unfinished { OnUnfinished result (CanBecomeHead BeginsRequestHead (take room.octets bytes.now)) }
    // Too many fields are told only behind a start line and more fields than the room, each of them valid.
    ensures too_many { OnTooManyFields result (RequestExceeds room.fields (take room.octets bytes.now)) }
{
    if FEW < room.fields {
        let mut spans = [EMPTY_HEADER_SPAN; FEW];
        let answer = read_into(alloc, bytes, room.for_few(), &mut spans);
        if !has_too_many(&answer) {
            return answer;
        }
    }
    let mut spans = vec![in alloc; EMPTY_HEADER_SPAN; room.fields]?;
    read_into(alloc, bytes, room, &mut spans)
}

/// Octets begin with one head of a request at most, and what follows doesn't change it.
pub fn one_request_head()
    ensures { (octets more : List ℕ) (head other : RequestHead) (m n : ℕ)
        → BeginsRequestHead octets head m → BeginsRequestHead (octets ++ more) other n
        → (head ≡ other) × (m ≡ n) }
{}
