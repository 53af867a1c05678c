//! Messages that are read where they lie.

ghost use Rattle.hc_framing.specs.Pieces.{AreInOrder, AreInOrder-prop};

use crate::body_view::{BodyView, Piece};
use crate::fault::FrameFault;
use crate::head::{MessageHead, head_fault};
use crate::kind::Kind;
use crate::message::{MessageView, RequestView, ResponseView};
use crate::noting::note_body;
use hc_head::{HeadPlaces, RequestHead, ResponseHead, Room};
use std::alloc::Global;

/// Where the parts of a message stand in octets that somebody else keeps. The memory serves one message after another.
#[derive(Drop)]
pub struct Places {
    alloc: Global,
    head: HeadPlaces,
    pieces: Vec<Piece>,
    // Each piece begins where the one before it ends, or behind that.
    ghost ordered: { AreInOrder 0 pieces.items } by { AreInOrder-prop 0 pieces.items },
}

impl Places {
    ghost use Rattle.std.specs.Prelude.{◌≡◌, Bool};
    ghost use Rattle.hc_head.specs.declared.head.RequestHead.{RequestHead};
    ghost use Rattle.hc_head.specs.declared.head.ResponseHead.{ResponseHead};
    ghost use Rattle.hc_head.specs.declared.head.Room.{Room};
    ghost use Rattle.hc_framing.specs.declared.message.Message.{Message};
    ghost use Rattle.hc_framing.specs.Faults.{FindsMessage, GivesMessage, GivesRequest, GivesResponse, IsWholeRequest, IsWholeResponse};
    ghost use Rattle.hc_framing.specs.Places.{message_at, request_at, response_at};
    ghost use Rattle.hc_framing.specs.WholeParts.{noted};

    /// Places that no message was found for. They take no memory until one is looked for.
    pub fn new(alloc: Global) -> Self {
        Places {
            alloc,
            head: HeadPlaces::new(alloc),
            pieces: Vec::new(alloc),
        }
    }

    /// Finds where the parts stand of the message that the octets are, all of them.
    fn find<H: MessageHead>(
        &mut self,
        octets: &[u8],
        kind: Kind,
        room: Room,
    ) -> Result<(), FrameFault>
        ensures { GivesMessage H.form kind (noted result (message_at H.at self.new octets.now)) octets.now
            room }
    {
        match H::find(&mut self.head, octets, room) {
            Err(fault) => Err(head_fault(fault)),
            Ok(None) => Err(FrameFault::Truncated),
            Ok(Some(len)) => {
                let framing = match H::framing_at(&self.head, octets, kind) {
                    Err(fault) => return Err(fault),
                    Ok(framing) => framing,
                };
                H::make_bare(&mut self.head);
                note_body(self.alloc, &mut self.pieces, framing, octets, len)
            }
        }
    }

    /// Finds where the parts stand of the request that the octets are, all of them, in the room of a recorded head.
    /// Octets after it are the fault `BadLength`. It copies nothing but names, in lower case.
    pub fn find_request(&mut self, octets: &[u8]) -> Result<(), FrameFault>
        // Each result stands only where it says so.
        ensures gives { GivesRequest (noted result (request_at self.new octets.now)) octets.now Room.RECORDED }
        // What is a request is found, unless memory runs out.
        ensures found { (message : Message RequestHead) → IsWholeRequest octets.now Room.RECORDED message
            → FindsMessage (noted result (request_at self.new octets.now)) message }
    {
        self.find::<RequestHead>(octets, Kind::Request, Room::RECORDED)
    }

    /// The same of a response; `to_head` tells whether it answers HEAD.
    pub fn find_response(&mut self, octets: &[u8], to_head: bool) -> Result<(), FrameFault>
        // Each result stands only where it says so.
        ensures gives { GivesResponse to_head (noted result (response_at self.new octets.now)) octets.now Room.RECORDED }
        // What is a response is found, unless memory runs out.
        ensures found { (message : Message ResponseHead) → IsWholeResponse to_head octets.now Room.RECORDED message
            → FindsMessage (noted result (response_at self.new octets.now)) message }
    {
        self.find::<ResponseHead>(octets, Kind::Response { to_head }, Room::RECORDED)
    }

    /// The request that stands there in the octets.
    pub fn request<'a>(&'a self, octets: &'a [u8]) -> RequestView<'a>
        ensures { result ≡ request_at self.now octets.now }
    {
        MessageView {
            head: self.head.request(octets),
            body: BodyView::at(octets, self.pieces.as_slice()),
        }
    }

    /// The response that stands there in the octets.
    pub fn response<'a>(&'a self, octets: &'a [u8]) -> ResponseView<'a>
        ensures { result ≡ response_at self.now octets.now }
    {
        MessageView {
            head: self.head.response(octets),
            body: BodyView::at(octets, self.pieces.as_slice()),
        }
    }
}
