//! What a reply says of itself.

ghost use Rattle.std.specs.Prelude.{◌≡◌, IfOk};
ghost use Rattle.hc_status.specs.Marks.{mark_of};
ghost use Rattle.hc_history.specs.Marks.{inferred_mark, infers, judged_mark, mark_by, reply_mark, says_nothing, tells_causes};

use crate::allowed::Allowed;
use hc_framing::ResponseView;
use hc_head::StatusCode;
use hc_status::{Mark, MarkFault, mark};
use hc_transcript::Format;
use std::alloc::{AllocError, Global};
use std::marker::Model;

/// The mark by which a reply of that status is judged, whose Cache-Status says this.
fn judged_mark(status: StatusCode, mark: Mark) -> Mark
    ensures { result ≡ judged_mark status mark }
{
    match mark {
        Mark::Hit { ttl } => {
            if status == StatusCode::PARTIAL_CONTENT {
                Mark::Unmarked
            } else {
                Mark::Hit { ttl }
            }
        }
        Mark::Forwarded { collapsed } => Mark::Forwarded { collapsed },
        Mark::Both => Mark::Both,
        Mark::Unmarked => Mark::Unmarked,
    }
}

/// What the Cache-Status of a reply says of it (RFC 9211).
fn told_mark(alloc: Global, reply: &ResponseView<'_>) -> Result<Mark, AllocError>
    ensures { IfOk result (λ told. told ≡ mark_of reply.now.head.fields) }
{
    match mark(alloc, &reply.head.fields) {
        Ok(told) => Ok(told),
        Err(MarkFault::Memory) => Err(AllocError),
    }
}

/// The mark of a reply: what its Cache-Status says of it (RFC 9211). Reuse of a part of a body isn't
/// judged, so a hit of status 206 counts as unmarked.
pub fn reply_mark(alloc: Global, reply: &ResponseView<'_>) -> Result<Mark, AllocError>
    ensures { IfOk result (λ mark. mark ≡ reply_mark reply.now) }
{
    let told = told_mark(alloc, reply)?;
    Ok(judged_mark(reply.head.status, told))
}

/// Whether a format tells for which exchange a forward was made.
fn tells_causes(format: Format) -> bool
    ensures { result ≡ tells_causes format }
{
    match format {
        Format::First => false,
        Format::Second => true,
    }
}

/// Whether a mark says nothing.
fn says_nothing(mark: Mark) -> bool
    ensures { result ≡ says_nothing mark }
{
    match mark {
        Mark::Unmarked => true,
        Mark::Hit { .. } | Mark::Forwarded { .. } | Mark::Both => false,
    }
}

/// The mark that is inferred where a forward was made for the exchange of a reply, or where none was.
fn inferred_mark(forwarded: bool) -> Mark
    ensures { result ≡ inferred_mark forwarded }
{
    if forwarded {
        Mark::Forwarded { collapsed: false }
    } else {
        Mark::Hit { ttl: None }
    }
}

/// A reply with its mark, which is read once. Contracts see it as the reply.
#[derive(Drop)]
pub struct MarkedReply<'a> {
    reply: &'a ResponseView<'a>,
    told: Mark,
}

impl<'a> Model for MarkedReply<'a> {
    ghost use Rattle.std.specs.Prelude.{◌≡◌};
    ghost use Rattle.hc_head.specs.declared.head.ResponseHead.{ResponseHead};
    ghost use Rattle.hc_framing.specs.declared.message.Message.{Message};
    ghost use Rattle.hc_status.specs.Marks.{mark_of};

    ghost Value = { Message ResponseHead };

    ghost view = { λ m. m.reply.now };

    ghost invariant = { λ m. m.told ≡ mark_of m.reply.now.head.fields };
}

impl<'a> MarkedReply<'a> {
    /// The reply with what its Cache-Status says of it.
    pub fn read(alloc: Global, reply: &'a ResponseView<'a>) -> Result<Self, AllocError>
        ensures { IfOk result (λ m. m ≡ reply.now) }
    {
        let told = told_mark(alloc, reply)?;
        Ok(MarkedReply { reply, told })
    }

    /// The reply.
    pub fn reply(&self) -> &'a ResponseView<'a>
        ensures { result.now ≡ self.now }
    {
        self.reply
    }

    /// What it says of itself.
    pub fn mark(&self) -> Mark
        ensures { result ≡ reply_mark self.now }
    {
        let reply = self.reply;
        judged_mark(reply.head.status, self.told)
    }

    /// Whether its mark is inferred, where a forward was made for its exchange, or where none was: the audit
    /// asks for that, the format tells causes, the reply says nothing of itself, and it is no error, and no
    /// part for which nothing went forward.
    pub fn infers(&self, format: Format, allowed: &Allowed, forwarded: bool) -> bool
        ensures { result ≡ infers format allowed.now forwarded self.now }
    {
        let reply = self.reply;
        allowed.inferred_marks
            && tells_causes(format)
            && says_nothing(self.told)
            && reply.head.status.as_u16() < 400
            && (forwarded || reply.head.status != StatusCode::PARTIAL_CONTENT)
    }

    /// The mark by which it is judged and counted: its own, or the one that is inferred.
    pub fn mark_by(&self, format: Format, allowed: &Allowed, forwarded: bool) -> Mark
        ensures { result ≡ mark_by format allowed.now forwarded self.now }
    {
        if self.infers(format, allowed, forwarded) {
            inferred_mark(forwarded)
        } else {
            self.mark()
        }
    }
}
