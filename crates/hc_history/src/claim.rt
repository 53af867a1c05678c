//! What a reply claims, in borrows.

ghost use Rattle.std.specs.Prelude.{◌≡◌};
ghost use Rattle.hc_history.specs.Claims.{asks_head, ttl_of};

use crate::settings::Settings;
use hc_fields::FieldsView;
use hc_framing::{BodyView, ResponseView};
use hc_head::{RequestHead, StatusCode, Target, is_head};
use hc_status::Mark;
use hc_transcript::Format;
use std::marker::Model;

/// What a reply says of itself, and what it is held against. Contracts see it as a `Claim`.
#[derive(Drop)]
pub struct ReplyClaim<'a> {
    /// The format of the transcript.
    pub format: Format,
    /// The number of the exchange.
    pub exchange: u64,
    /// The request that it answers.
    pub request: &'a RequestHead,
    /// The target of the request.
    pub target: &'a Target,
    /// The position of the request, after which the window begins.
    pub since: u64,
    /// The reply.
    pub reply: &'a ResponseView<'a>,
    /// The moment of the reply.
    pub moment: u64,
    /// Whether the mark by which it is judged is inferred.
    pub is_inferred: bool,
    /// The seconds for which it says that it is fresh still, negative where it is stale.
    pub ttl: Option<i64>,
    /// Whether an error of a forward of the target stands in the window.
    pub has_error: bool,
    /// Whether a failure of one does.
    pub has_failure: bool,
    /// What the audit is asked to let pass.
    pub settings: &'a Settings,
}

impl<'a> Model for ReplyClaim<'a> {
    ghost use Rattle.hc_history.specs.Claims.{Claim};

    ghost Value = { Claim };

    ghost view = { λ c. record {
      format = c.format;
      exchange = c.exchange;
      request = c.request.now;
      target = c.target.now;
      since = c.since;
      reply = c.reply.now;
      moment = c.moment;
      is_inferred = c.is_inferred;
      ttl = c.ttl;
      has_error = c.has_error;
      has_failure = c.has_failure;
      settings = c.settings.now;
    } };
}

impl<'a> ReplyClaim<'a> {
    /// The status of the reply.
    pub fn status(&self) -> StatusCode
        ensures { result ≡ self.now.reply.head.status }
    {
        let reply = self.reply;
        reply.head.status
    }

    /// The fields of the reply.
    pub fn fields(&self) -> &'a FieldsView<'a>
        ensures { result.now ≡ self.now.reply.head.fields }
    {
        let reply = self.reply;
        &reply.head.fields
    }

    /// The body of the reply.
    pub fn body(&self) -> &'a BodyView<'a>
        ensures { result.now ≡ self.now.reply.body }
    {
        let reply = self.reply;
        &reply.body
    }
}

/// Whether the request is HEAD.
pub(crate) fn asks_head(claim: &ReplyClaim<'_>) -> bool
    ensures { result ≡ asks_head claim.now }
{
    is_head(&claim.request.method)
}

/// The seconds of a hit.
pub fn ttl_of(mark: Mark) -> Option<i64>
    ensures { result ≡ ttl_of mark }
{
    match mark {
        Mark::Hit { ttl } => ttl,
        Mark::Forwarded { .. } | Mark::Both | Mark::Unmarked => None,
    }
}
