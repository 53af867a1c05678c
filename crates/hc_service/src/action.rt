//! What a cache does.

use hc_framing::MessageText;
use hc_transcript::Record;

/// What a cache has done by whoever runs it, in this order.
#[derive(Drop)]
pub enum Action {
    /// These octets go to the client of the connection of that number.
    ToClient(u64, MessageText),
    /// The connection of that number closes.
    CloseClient(u64),
    /// A new forward of that number is opened, and these octets go to the origin on it.
    Forward(u64, MessageText),
    /// The forward of that number closes.
    CloseForward(u64),
    /// The record stands in the transcript, behind all before.
    Record(Record),
}
