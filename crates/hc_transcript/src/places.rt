//! Where the parts of a record stand in its octets.

ghost use Rattle.std.specs.Prelude.{◌≡◌, ◌≤◌};

use crate::fault::RecordFault;
use crate::line::{Kind, Line};
use crate::view::{MeaningView, RecordView};
use hc_fields::Octets;
use hc_framing::Places;
use hc_head::{Target, read_target};
use std::alloc::Global;

/// The least status of a final response (RFC 9110 section 15).
const LEAST_FINAL: u16 = 200;

/// Where the parts of a record's message stand in its octets, and the target of a request. The memory serves one record
/// after another.
#[derive(Drop)]
pub(crate) struct RecordPlaces {
    alloc: Global,
    places: Places,
    target: Target,
}

impl RecordPlaces {
    ghost use Rattle.hc_framing.specs.Places.{request_at, response_at};
    ghost use Rattle.hc_transcript.specs.Items.{item_seen};
    ghost use Rattle.hc_transcript.specs.Limits.{greatest_moment};
    ghost use Rattle.hc_transcript.specs.Reading.{GivesRequestRead, GivesResponseRead, GivesItem, found_request, found_response, item_at};

    /// Places that no record was found for.
    pub(crate) fn new(alloc: Global) -> Self {
        RecordPlaces {
            alloc,
            places: Places::new(alloc),
            target: Target {
                host: Octets::new(alloc),
                path: Octets::new(alloc),
            },
        }
    }

    /// Finds the one request that the octets are, and its target.
    fn find_request(&mut self, octets: &[u8]) -> Result<(), RecordFault>
        ensures { GivesRequestRead (found_request result (request_at self.new.places octets.now) self.new.target) octets.now }
    {
        self.places.find_request(octets)?;
        let request = self.places.request(octets);
        read_target(self.alloc, &request.head, &mut self.target)?;
        Ok(())
    }

    /// Finds the one final response that the octets are.
    fn find_response(&mut self, octets: &[u8], to_head: bool) -> Result<(), RecordFault>
        ensures { GivesResponseRead to_head (found_response result (response_at self.new.places octets.now)) octets.now }
    {
        self.places.find_response(octets, to_head)?;
        if self.places.response(octets).head.status.as_u16() < LEAST_FINAL {
            return Err(RecordFault::Message);
        }
        Ok(())
    }

    /// Finds what octets mean behind that line; `to_head` tells whether a response answers HEAD.
    pub(crate) fn find(
        &mut self,
        line: &Line,
        octets: &[u8],
        to_head: bool,
    ) -> Result<(), RecordFault>
        ensures { GivesItem line.now to_head octets.now result (item_at self.new line.now octets.now) }
    {
        match line.kind {
            Kind::ClientRequest | Kind::OriginRequest => self.find_request(octets),
            Kind::OriginResponse | Kind::ClientReply => self.find_response(octets, to_head),
            Kind::OriginFailure => Ok(()),
        }
    }

    /// What stands there in the octets behind that line.
    fn meaning<'a>(&'a self, line: &Line, octets: &'a [u8]) -> MeaningView<'a>
        ensures { item_seen line.now.number line.now.moment result ≡ item_at self.now line.now octets.now }
    {
        match line.kind {
            Kind::ClientRequest => MeaningView::ClientRequest {
                request: self.places.request(octets),
                target: &self.target,
            },
            Kind::OriginRequest => MeaningView::OriginRequest {
                request: self.places.request(octets),
                target: &self.target,
                cause: line.cause.exchange(),
            },
            Kind::OriginResponse => MeaningView::OriginResponse(self.places.response(octets)),
            Kind::OriginFailure => MeaningView::OriginFailure,
            Kind::ClientReply => MeaningView::ClientReply(self.places.response(octets)),
        }
    }

    /// The record with that line whose message the octets are.
    pub(crate) fn record<'a>(&'a self, line: &Line, octets: &'a [u8]) -> RecordView<'a>
        requires { line.now.moment ≤ greatest_moment }
        ensures { result ≡ item_at self.now line.now octets.now }
    {
        RecordView {
            number: line.number,
            moment: line.moment,
            of: self.meaning(line, octets),
        }
    }
}
