//! Messages, fed in pieces to a reader.
ghost use Rattle.std.specs.Prelude.{◌<◌, [], IfOk};
ghost use Rattle.hc_bench.specs.Feeding.{AreReadThen, FeedsTo};

use crate::trouble::Trouble;
use hc_framing::{Kind, Message, MessageHead, MessageReader, Progress};
use hc_head::Room;
use std::alloc::Global;

/// A message that was fed.
#[derive(Drop)]
pub struct FedMessage<H> {
    pub message: Message<H>,
    /// How many octets it has.
    pub octets: usize,
    /// In how many pieces it came.
    pub calls: usize,
}

/// Feeds the message that begins the octets to a new reader, in pieces of that size.
pub fn feed<H: MessageHead>(
    alloc: Global,
    kind: Kind,
    room: Room,
    octets: &[u8],
    size: usize,
) -> Result<FedMessage<H>, Trouble>
    requires { 0 < size }
    ensures { FeedsTo H.form result kind room octets.now size }
{
    let mut reader = MessageReader::<H>::new(alloc, kind, room);
    let mut before = 0;
    let mut calls = 0;
    'pieces: while before < octets.len() {
        let (_, rest) = octets.split_at(before);
        let (piece, _) = rest.split_at(size.min(rest.len()));
        calls += 1;
        match reader.feed(piece)? {
            Progress::More => before += piece.len(),
            Progress::Whole(used) => {
                return Ok(FedMessage {
                    message: reader.take(),
                    octets: before + used,
                    calls,
                });
            }
        }
    }
    Err(Trouble::Unended)
}

/// Feeds the messages that the octets are, one behind another, each to a reader of its own in pieces
/// of that size.
pub fn feed_all<H: MessageHead>(
    alloc: Global,
    kind: Kind,
    room: Room,
    octets: &[u8],
    size: usize,
) -> Result<Vec<Message<H>>, Trouble>
    requires { 0 < size }
    ensures { IfOk result (λ messages. AreReadThen H.form
        kind room messages.items octets.now []) }
{
    let mut messages = Vec::new(alloc);
    let mut rest = octets;
    'messages: while !rest.is_empty() {
        let fed = feed::<H>(alloc, kind, room, rest, size)?;
        let (_, behind) = rest.split_at(fed.octets);
        rest = behind;
        messages.push(fed.message)?;
    }
    Ok(messages)
}
