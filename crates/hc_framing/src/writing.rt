//! Writing messages.

ghost use Rattle.std.specs.Prelude.{◌≡◌, ℕ, Bool, List, ◌++◌, length, IfOk};
ghost use Rattle.hc_head.specs.declared.head.RequestHead.{RequestHead};
ghost use Rattle.hc_head.specs.declared.head.ResponseHead.{ResponseHead};
ghost use Rattle.hc_head.specs.declared.head.Room.{Room};
ghost use Rattle.hc_framing.specs.declared.kind.Kind.TheVariants.{Response};
ghost use Rattle.hc_framing.specs.declared.message.Message.{Message};
ghost use Rattle.hc_framing.specs.Messages.{BeginsRequest, BeginsResponse};
ghost use Rattle.hc_framing.specs.Texts.{message_text, request_text, response_text};
ghost use Rattle.hc_framing.specs.Written.{IsReadableRequest, IsReadableResponse, BeginsRequestIn, BeginsResponseIn};

use crate::head::MessageHead;
use crate::kind::Kind;
use crate::message::Message;
use crate::text::MessageText;
use hc_fields::SharedOctets;
use std::alloc::{AllocError, Global};

/// How many octets a body may have that is copied behind its head, so that one write takes both.
pub const LONGEST_COPIED_BODY: usize = 1_024;

/// The text of a message: its head, with a last line for the length of the body where that is told,
/// and the body as it is. A request tells the length of a body that has octets, and any where its
/// method is unsafe; a response does unless it ends with its head. The head is written once, and a
/// body of more than `LONGEST_COPIED_BODY` octets is shared, not copied.
pub fn write_message<H: MessageHead>(
    alloc: Global,
    message: &Message<H>,
    kind: Kind,
) -> Result<MessageText, AllocError>
    ensures { IfOk result (λ text. text ≡ message_text H.head_text H.length_told kind message.now) }
{
    let length = if H::tells_length(message, kind) {
        Some(message.body.len() as u64)
    } else {
        None
    };
    let mut head = message.head.write(alloc, length)?.into_vec();
    if message.body.len() <= LONGEST_COPIED_BODY {
        head.extend_from_slice(message.body.as_slice())?;
        return MessageText::from_vec(alloc, head);
    }
    let head = SharedOctets::from_vec(alloc, head)?;
    Ok(MessageText::of_parts(head, message.body.share()?))
}

/// The text of a request is read as the request, whatever follows.
pub fn written_request_read_back()
    ensures begins { (message : Message RequestHead) (room : Room) → IsReadableRequest message room
        → (more : List ℕ)
        → BeginsRequestIn (request_text message ++ more) room message (length (request_text message)) }
    // It begins with no other one.
    ensures alone { (message : Message RequestHead) (room : Room) → IsReadableRequest message room
        → (more : List ℕ) (other : Message RequestHead) (n : ℕ)
        → BeginsRequest (request_text message ++ more) other n
        → (message ≡ other) × (length (request_text message) ≡ n) }
{}

/// The text of a response is read as the response, whatever follows; `to_head` tells whether it
/// answers HEAD.
pub fn written_response_read_back()
    ensures begins { (to_head : Bool) (message : Message ResponseHead) (room : Room)
        → IsReadableResponse to_head message room → (more : List ℕ)
        → BeginsResponseIn to_head (response_text (Response to_head) message ++ more) room message
        (length (response_text (Response to_head) message)) }
    // It begins with no other one.
    ensures alone { (to_head : Bool) (message : Message ResponseHead) (room : Room)
        → IsReadableResponse to_head message room
        → (more : List ℕ) (other : Message ResponseHead) (n : ℕ)
        → BeginsResponse to_head (response_text (Response to_head) message ++ more) other n
        → (message ≡ other) × (length (response_text (Response to_head) message) ≡ n) }
{}
