//! Records that are lent.

ghost use Rattle.std.specs.Prelude.{◌≡◌, ◌≤◌, ℕ, IfOk};
ghost use Rattle.hc_transcript.specs.Limits.{greatest_moment};
ghost use Rattle.hc_transcript.specs.Items.{item_number, item_of, item_seen, item_with, moment_of};

use crate::item::{Meaning, OwnedItem};
use hc_framing::{RequestView, ResponseView, copy_request, copy_response};
use hc_head::Target;
use std::alloc::{AllocError, Global};
use std::marker::Model;

/// A record with its message read, which is lent. Contracts see it as the item.
#[derive(Drop)]
pub struct RecordView<'a> {
    /// The number of its exchange or its forward.
    pub number: u64,
    /// In whole seconds since 1970.
    pub moment: u64,
    /// What passed.
    pub of: MeaningView<'a>,
}

impl<'a> Model for RecordView<'a> {
    ghost use Rattle.std.specs.Prelude.{◌≤◌};
    ghost use Rattle.hc_transcript.specs.Limits.{greatest_moment};
    ghost use Rattle.hc_transcript.specs.Items.{Item, item_seen};

    ghost Value = { Item };

    ghost view = { λ r. item_seen r.number r.moment r.of };

    ghost invariant = { λ r. r.moment ≤ greatest_moment };
}

/// What passed, read and lent.
#[derive(Drop)]
pub enum MeaningView<'a> {
    /// What a client asked, and for what.
    ClientRequest {
        request: RequestView<'a>,
        target: &'a Target,
    },
    /// What the origin was asked, and for what. Its cause is the exchange that it was asked for: none
    /// where no reply waits for it, and in the first format.
    OriginRequest {
        request: RequestView<'a>,
        target: &'a Target,
        cause: Option<u64>,
    },
    /// What the origin answered.
    OriginResponse(ResponseView<'a>),
    /// The origin gave no answer.
    OriginFailure,
    /// What the client was answered.
    ClientReply(ResponseView<'a>),
}

/// What passed, in memory of its own.
fn copy_meaning(alloc: Global, of: &MeaningView<'_>) -> Result<Meaning, AllocError>
    ensures { (number moment : ℕ) → IfOk result (λ copy. item_with number moment copy ≡ item_seen number moment of.now) }
{
    Ok(match of {
        MeaningView::ClientRequest { request, target } => Meaning::ClientRequest {
            request: copy_request(alloc, request)?,
            target: target.copy(alloc)?,
        },
        MeaningView::OriginRequest {
            request,
            target,
            cause,
        } => Meaning::OriginRequest {
            request: copy_request(alloc, request)?,
            target: target.copy(alloc)?,
            cause: *cause,
        },
        MeaningView::OriginResponse(response) => {
            Meaning::OriginResponse(copy_response(alloc, response)?)
        }
        MeaningView::OriginFailure => Meaning::OriginFailure,
        MeaningView::ClientReply(reply) => Meaning::ClientReply(copy_response(alloc, reply)?),
    })
}

impl<'a> RecordView<'a> {
    /// The number of its exchange or its forward.
    pub fn number(&self) -> u64
        ensures { result ≡ item_number self.now }
    {
        self.number
    }

    /// Its moment, in whole seconds since 1970.
    pub fn moment(&self) -> u64
        ensures value { result ≡ moment_of self.now }
        ensures in_time { result ≤ greatest_moment }
    {
        self.moment
    }

    /// The same record in memory of its own.
    pub fn copy(&self, alloc: Global) -> Result<OwnedItem, AllocError>
        ensures { IfOk result (λ item. item_of item ≡ self.now) }
    {
        let of = copy_meaning(alloc, &self.of)?;
        Ok(OwnedItem {
            number: self.number,
            moment: self.moment,
            of,
        })
    }
}
