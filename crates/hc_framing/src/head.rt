//! What framing takes of the heads of requests and of responses.

ghost use Rattle.std.specs.Prelude.{◌≡◌, ℕ, List};
ghost use Rattle.hc_head.specs.Places.{lines_at};
ghost use Rattle.hc_framing.specs.Faults.{head_fault};
ghost use Rattle.hc_framing.specs.Messages.{answers_head, fields_without_framing};

use crate::fault::FrameFault;
use crate::framing::{Framing, ends_with_head, request_framing, response_framing};
use crate::kind::Kind;
use crate::message::Message;
use hc_fields::{Fields, Lines, Octets};
use hc_head::{
    HeadFault, HeadPlaces, RequestHead, ResponseHead, Room, Step, is_unsafe, read_request,
    read_response, write_request, write_response,
};
use std::alloc::{AllocError, Global};

/// The head of a message, which can be read from octets and tells how its body is framed.
pub trait MessageHead: Drop {
    ghost use Rattle.std.specs.Prelude.{◌≡◌, ℕ, Bool, List, Option, take, IfOk};
    ghost use Rattle.hc_head.specs.Places.{told};
    ghost use Rattle.hc_head.specs.Reading.{IsWholeHead, GivesHead, FindsHead, CanBecomeHead, OnUnfinished, OnTooManyFields};
    ghost use Rattle.hc_head.specs.declared.places.HeadPlaces.{HeadPlaces};
    ghost use Rattle.hc_framing.specs.declared.kind.Kind.{Kind};
    ghost use Rattle.hc_framing.specs.declared.message.Message.{Message};
    ghost use Rattle.hc_framing.specs.Forms.{Form, FormLaws};

    /// What octets begin with the head, how many fields it has, how they frame the body, and the head
    /// without those that do.
    ghost form: { Form Self };

    /// The head that stands at places in octets.
    ghost at: { HeadPlaces → List ℕ → Self };

    /// The text of the head, with a last line for the length of the body where that is given.
    ghost head_text: { Self → Option ℕ → List ℕ };

    /// Whether the length of the body is told where the message is written.
    ghost length_told: { Kind → Message Self → Bool };

    /// Reads the head that begins the octets, of which no more than the room are looked at.
    fn read(alloc: Global, bytes: &[u8], room: Room) -> Result<Step<Self>, HeadFault>
        // Each result stands only where it says so.
        ensures gives { GivesHead form.begins form.field_count result bytes.now room }
        // A whole head is found, unless memory runs out.
        ensures found { (head : Self) (len : ℕ)
            → IsWholeHead form.begins form.field_count bytes.now room head len → FindsHead result head len }
        // More octets are wanted only where they can make a head.
        ensures unfinished { OnUnfinished result (CanBecomeHead form.begins (take room.octets bytes.now)) }
        // Too many fields are told only behind a start line and more fields than the room, each of them valid.
        ensures too_many { OnTooManyFields result (form.exceeds room.fields (take room.octets bytes.now)) };

    /// How the body behind the head is framed.
    fn framing(&self, kind: Kind) -> Result<Framing, FrameFault>
        ensures { result ≡ form.framing_of kind self.now };

    /// The head without the fields that frame the body.
    fn into_bare(self) -> Self
        ensures { result ≡ form.without_framing self };

    /// Finds where the head stands that begins the octets, of which no more than the room are looked at.
    fn find(places: &mut HeadPlaces, octets: &[u8], room: Room) -> Result<Option<usize>, HeadFault>
        // Each result stands only where it says so.
        ensures gives { GivesHead form.begins form.field_count (told (at places.new octets.now) result) octets.now room }
        // More octets are wanted only where they can make a head.
        ensures unfinished { OnUnfinished (told (at places.new octets.now) result)
            (CanBecomeHead form.begins (take room.octets octets.now)) };

    /// How the body behind the head is framed that stands there.
    fn framing_at(places: &HeadPlaces, octets: &[u8], kind: Kind) -> Result<Framing, FrameFault>
        ensures { result ≡ form.framing_of kind (at places.now octets.now) };

    /// Leaves the fields that frame the body out of what stands there.
    fn make_bare(places: &mut HeadPlaces)
        ensures { (octets : List ℕ) → at places.new octets ≡ form.without_framing (at places.old octets) };

    /// The text of the head, with a last line for the length of the body where that is given.
    fn write(&self, alloc: Global, length: Option<u64>) -> Result<Octets, AllocError>
        ensures { IfOk result (λ text. text ≡ head_text self.now length) };

    /// Whether the length of the body is told where the message is written.
    fn tells_length(message: &Message<Self>, kind: Kind) -> bool
        ensures { result ≡ length_told kind message.now };

    /// Octets begin with one head at most, which ends with its first empty line, whatever follows.
    ghost laws: { FormLaws form };
}

/// A fault of a head as one of a message.
pub(crate) fn head_fault(fault: HeadFault) -> FrameFault
    ensures { result ≡ head_fault fault }
{
    match fault {
        HeadFault::Memory => FrameFault::Memory,
        other => FrameFault::Head(other),
    }
}

/// Whether what is read answers HEAD.
fn answers_head(kind: Kind) -> bool
    ensures { result ≡ answers_head kind }
{
    match kind {
        Kind::Request => false,
        Kind::Response { to_head } => to_head,
    }
}

/// Leaves out the fields that frame the body.
fn remove_framing(fields: &mut Fields)
    ensures { fields.new ≡ fields_without_framing fields.old }
{
    fields.remove(b"content-length");
    fields.remove(b"transfer-encoding");
}

/// Leaves out where the fields stand that frame the body.
fn remove_places(places: &mut HeadPlaces)
    ensures lines { (octets : List ℕ) → lines_at places.new octets ≡ fields_without_framing (lines_at places.old octets) }
    ensures stay { places.new ≡ record places.old { lines = places.new.lines } }
{
    places.remove(b"content-length");
    places.remove(b"transfer-encoding");
}

impl MessageHead for RequestHead {
    ghost use Rattle.hc_framing.specs.Messages.{request_form};
    ghost use Rattle.hc_framing.specs.FramingLaws.{request_laws};
    ghost use Rattle.hc_framing.specs.Texts.{request_length_told};
    ghost use Rattle.hc_head.specs.Places.{request_at};
    ghost use Rattle.hc_head.specs.Texts.{request_head_text};

    ghost form = { request_form };

    ghost at = { request_at };

    ghost head_text = { request_head_text };

    ghost length_told = { λ _ message. request_length_told message };

    fn read(alloc: Global, bytes: &[u8], room: Room) -> Result<Step<RequestHead>, HeadFault> {
        read_request(alloc, bytes, room)
    }

    fn framing(&self, _kind: Kind) -> Result<Framing, FrameFault> {
        request_framing(self.version, &self.fields.lent())
    }

    fn into_bare(mut self) -> Self {
        remove_framing(&mut self.fields);
        self
    }

    fn find(
        places: &mut HeadPlaces,
        octets: &[u8],
        room: Room,
    ) -> Result<Option<usize>, HeadFault> {
        places.find_request(octets, room)
    }

    fn framing_at(places: &HeadPlaces, octets: &[u8], _kind: Kind) -> Result<Framing, FrameFault> {
        let head = places.request(octets);
        request_framing(head.version, &head.fields)
    }

    fn make_bare(places: &mut HeadPlaces) {
        remove_places(places)
    }

    fn write(&self, alloc: Global, length: Option<u64>) -> Result<Octets, AllocError> {
        write_request(alloc, self, length)
    }

    fn tells_length(message: &Message<RequestHead>, _kind: Kind) -> bool {
        !message.body.is_empty() || is_unsafe(&message.head.method)
    }

    ghost laws = { request_laws };
}

impl MessageHead for ResponseHead {
    ghost use Rattle.hc_framing.specs.Messages.{response_form};
    ghost use Rattle.hc_framing.specs.FramingLaws.{response_laws};
    ghost use Rattle.hc_framing.specs.Texts.{response_length_told};
    ghost use Rattle.hc_head.specs.Places.{response_at};
    ghost use Rattle.hc_head.specs.Texts.{response_head_text};

    ghost form = { response_form };

    ghost at = { response_at };

    ghost head_text = { response_head_text };

    ghost length_told = { response_length_told };

    fn read(alloc: Global, bytes: &[u8], room: Room) -> Result<Step<ResponseHead>, HeadFault> {
        read_response(alloc, bytes, room)
    }

    fn framing(&self, kind: Kind) -> Result<Framing, FrameFault> {
        let fields = self.fields.lent();
        response_framing(answers_head(kind), self.status, self.version, &fields)
    }

    fn into_bare(mut self) -> Self {
        remove_framing(&mut self.fields);
        self
    }

    fn find(
        places: &mut HeadPlaces,
        octets: &[u8],
        room: Room,
    ) -> Result<Option<usize>, HeadFault> {
        places.find_response(octets, room)
    }

    fn framing_at(places: &HeadPlaces, octets: &[u8], kind: Kind) -> Result<Framing, FrameFault> {
        let head = places.response(octets);
        response_framing(answers_head(kind), head.status, head.version, &head.fields)
    }

    fn make_bare(places: &mut HeadPlaces) {
        remove_places(places)
    }

    fn write(&self, alloc: Global, length: Option<u64>) -> Result<Octets, AllocError> {
        write_response(alloc, self, length)
    }

    fn tells_length(message: &Message<ResponseHead>, kind: Kind) -> bool {
        !ends_with_head(answers_head(kind), message.head.status)
    }

    ghost laws = { response_laws };
}
