//! What is lent of an open exchange.

use crate::kept::{LiveResponse, RecordedExchange, WindowAnswer};
use std::collections::VecDeque;

/// An open exchange, and what is looked at for a reply to it.
#[derive(Drop)]
pub(crate) struct Opened<'a> {
    pub(crate) exchange: &'a RecordedExchange,
    /// Where the latest error of a forward of its target stands; 0 where there was none.
    pub(crate) error: u64,
    /// Where the latest failure of one stands; 0 where there was none.
    pub(crate) failure: u64,
    /// Live responses, by rising position: all those of its target are among them.
    pub(crate) lives: &'a [LiveResponse],
    /// Answers of the origin, the oldest first.
    pub(crate) answers: &'a VecDeque<WindowAnswer>,
    /// How many of them came before its request. Its window holds the others, as far as they may be for it.
    pub(crate) before: usize,
}
