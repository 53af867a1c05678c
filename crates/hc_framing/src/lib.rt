//! Messages: a head, and the body that its fields announce (RFC 9112 section 6).
#![tactic(auto)]

mod body;
mod body_view;
mod chunk_fault;
mod chunk_line;
mod fault;
mod framing;
mod framing_reader;
mod head;
mod kind;
mod message;
mod noting;
mod places;
mod progress;
mod reader;
mod text;
mod trailer;
mod whole;
mod writing;

pub use body_view::{BodySlices, BodyView, Piece};
pub use fault::FrameFault;
pub use framing::Framing;
pub use head::MessageHead;
pub use kind::Kind;
pub use message::{
    Message, MessageView, RequestView, ResponseView, copy_request, copy_response, lent_request,
    lent_response,
};
pub use places::Places;
pub use progress::Progress;
pub use reader::MessageReader;
pub use text::MessageText;
pub use whole::{one_request, one_response, one_whole_response, whole_request, whole_response};
pub use writing::{
    LONGEST_COPIED_BODY, write_message, written_request_read_back, written_response_read_back,
};
