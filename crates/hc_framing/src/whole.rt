//! Octets that are one message.

ghost use Rattle.std.specs.Prelude.{◌≡◌, ℕ, Bool, List, ◌++◌};
ghost use Rattle.hc_head.specs.declared.head.RequestHead.{RequestHead};
ghost use Rattle.hc_head.specs.declared.head.ResponseHead.{ResponseHead};
ghost use Rattle.hc_head.specs.declared.head.Room.{Room};
ghost use Rattle.hc_framing.specs.declared.message.Message.{Message};
ghost use Rattle.hc_framing.specs.Messages.{BeginsRequest, BeginsResponse};
ghost use Rattle.hc_framing.specs.Faults.{FindsMessage, GivesRequest, GivesResponse, IsWholeRequest, IsWholeResponse};

use crate::fault::FrameFault;
use crate::message::{Message, copy_request, copy_response};
use crate::places::Places;
use hc_head::{RequestHead, ResponseHead, Room};
use std::alloc::Global;

/// The request that the octets are, all of them, in the room of a recorded head. Octets after it are
/// the fault `BadLength`.
pub fn whole_request(alloc: Global, bytes: &[u8]) -> Result<Message<RequestHead>, FrameFault>
    // Each result stands only where it says so.
    ensures gives { GivesRequest result bytes.now Room.RECORDED }
    // What is a request is read, unless memory runs out.
    ensures found { (message : Message RequestHead) → IsWholeRequest bytes.now Room.RECORDED message
        → FindsMessage result message }
{
    let mut places = Places::new(alloc);
    match places.find_request(bytes) {
        Err(fault) => Err(fault),
        Ok(()) => {
            let request = copy_request(alloc, &places.request(bytes))?;
            Ok(request)
        }
    }
}

/// The response that the octets are, all of them, in the room of a recorded head; `to_head` tells
/// whether it answers HEAD. Octets after it are the fault `BadLength`.
pub fn whole_response(
    alloc: Global,
    bytes: &[u8],
    to_head: bool,
) -> Result<Message<ResponseHead>, FrameFault>
    // Each result stands only where it says so.
    ensures gives { GivesResponse to_head result bytes.now Room.RECORDED }
    // What is a response is read, unless memory runs out.
    ensures found { (message : Message ResponseHead) → IsWholeResponse to_head bytes.now Room.RECORDED message
        → FindsMessage result message }
{
    let mut places = Places::new(alloc);
    match places.find_response(bytes, to_head) {
        Err(fault) => Err(fault),
        Ok(()) => {
            let response = copy_response(alloc, &places.response(bytes))?;
            Ok(response)
        }
    }
}

/// Octets begin with one request at most, and what follows doesn't change it.
pub fn one_request()
    ensures { (octets more : List ℕ) (message other : Message RequestHead) (m n : ℕ)
        → BeginsRequest octets message m → BeginsRequest (octets ++ more) other n
        → (message ≡ other) × (m ≡ n) }
{}

/// Octets begin with one response at most, and what follows doesn't change it.
pub fn one_response()
    ensures { (to_head : Bool) (octets more : List ℕ) (message other : Message ResponseHead) (m n : ℕ)
        → BeginsResponse to_head octets message m → BeginsResponse to_head (octets ++ more) other n
        → (message ≡ other) × (m ≡ n) }
{}

/// Octets are one response at most, also where it lasts until the close.
pub fn one_whole_response()
    ensures { (to_head : Bool) (octets : List ℕ) (room : Room) (message other : Message ResponseHead)
        → IsWholeResponse to_head octets room message → IsWholeResponse to_head octets room other
        → message ≡ other }
{}
