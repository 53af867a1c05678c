//! What each kind of record makes of an index.

ghost use Rattle.std.specs.Prelude.{◌<◌, ℕ, List, OnOk};
ghost use Rattle.hc_head.specs.declared.head.ResponseHead.{ResponseHead};
ghost use Rattle.hc_framing.specs.declared.message.Message.{Message};
ghost use Rattle.hc_fields.specs.Numbers.{end_of_moments};
ghost use Rattle.hc_transcript.specs.declared.format.Format.{Format};
ghost use Rattle.hc_transcript.specs.Items.{ClientRequest, OriginRequest, OriginResponse, OriginFailure, ClientReply};
ghost use Rattle.hc_history.specs.Noting.{Notes};
ghost use Rattle.hc_history.specs.Seen.{Seen};

use hc_framing::{Message, copy_response};
use hc_head::{RequestHead, ResponseHead, Target};
use hc_transcript::{Format, MeaningView, RecordView};
use std::alloc::{AllocError, Global};

/// What notes each kind of record for itself.
pub(crate) trait Noting {
    /// What is known, however that is kept.
    ghost knows: { Self → Seen };

    /// Notes a request of a client.
    fn open_exchange(
        &mut self,
        number: u64,
        position: u64,
        request: RequestHead,
        target: Target,
    ) -> Result<(), AllocError>
        ensures { (format : Format) (moment : ℕ) (body : List ℕ) → OnOk result
            (Notes format (knows self.old) position
            (ClientRequest number moment (record { head = request; body = body }) target) (knows self.new)) };

    /// Notes a reply to a client.
    fn close_exchange(&mut self, number: u64)
        ensures { (format : Format) (position moment : ℕ) (reply : Message ResponseHead)
            → Notes format (knows self.old) position (ClientReply number moment reply) (knows self.new) };

    /// Notes a request to the origin.
    fn open_forward(
        &mut self,
        number: u64,
        moment: u64,
        request: RequestHead,
        target: Target,
        cause: Option<u64>,
    ) -> Result<(), AllocError>
        ensures { (format : Format) (position : ℕ) (body : List ℕ) → OnOk result
            (Notes format (knows self.old) position
            (OriginRequest number moment (record { head = request; body = body }) target cause) (knows self.new)) };

    /// Notes that the origin gave no answer.
    fn fail_forward(&mut self, number: u64, position: u64) -> Result<(), AllocError>
        ensures { (format : Format) (moment : ℕ) → OnOk result
            (Notes format (knows self.old) position (OriginFailure number moment) (knows self.new)) };

    /// Notes a response of the origin.
    fn answer_forward(
        &mut self,
        number: u64,
        position: u64,
        moment: u64,
        response: Message<ResponseHead>,
        format: Format,
    ) -> Result<(), AllocError>
        requires { moment < end_of_moments }
        ensures { OnOk result
            (Notes format (knows self.old) position (OriginResponse number moment response) (knows self.new)) };
}

/// Notes the next record, which stands at that position. It copies the head of a request, a response, and
/// nothing of a reply.
pub(crate) fn note_record<N: Noting>(
    alloc: Global,
    noting: &mut N,
    position: u64,
    view: &RecordView<'_>,
    format: Format,
) -> Result<(), AllocError>
    ensures { OnOk result (Notes format (N.knows noting.old) position view.now (N.knows noting.new)) }
{
    let number = view.number;
    let moment = view.moment;
    match &view.of {
        MeaningView::ClientRequest { request, target } => {
            let head = request.head.copy(alloc)?;
            noting.open_exchange(number, position, head, target.copy(alloc)?)
        }
        MeaningView::OriginRequest {
            request,
            target,
            cause,
        } => {
            let head = request.head.copy(alloc)?;
            noting.open_forward(number, moment, head, target.copy(alloc)?, *cause)
        }
        MeaningView::OriginResponse(response) => {
            let response = copy_response(alloc, response)?;
            noting.answer_forward(number, position, moment, response, format)
        }
        MeaningView::OriginFailure => noting.fail_forward(number, position),
        MeaningView::ClientReply(_) => Ok(noting.close_exchange(number)),
    }
}
