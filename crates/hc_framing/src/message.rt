//! Messages, and those that are lent.

ghost use Rattle.std.specs.Prelude.{◌≡◌, IfOk};
ghost use Rattle.hc_head.specs.declared.head.RequestHead.{RequestHead};
ghost use Rattle.hc_head.specs.declared.head.ResponseHead.{ResponseHead};
ghost use Rattle.hc_framing.specs.declared.message.Message.{Message};

use crate::body_view::BodyView;
use hc_fields::SharedOctets;
use hc_head::{RequestHead, RequestHeadView, ResponseHead, ResponseHeadView};
use std::alloc::{AllocError, Global};
use std::marker::Model;

/// A message: its head, without the fields that frame the body, and its body.
#[derive(Drop)]
pub struct Message<H> {
    /// Without the fields that frame the body.
    pub head: H,
    /// As it is once its framing is taken off.
    pub body: SharedOctets,
}

/// A message that is lent. Contracts see it as one that owns its head and its body.
#[derive(Drop)]
pub struct MessageView<'a, H> {
    /// Without the fields that frame the body.
    pub head: H,
    /// As it is once its framing is taken off.
    pub body: BodyView<'a>,
}

impl<'a, H> Model for MessageView<'a, H> {
    ghost use Rattle.hc_framing.specs.declared.message.Message.{Message};

    ghost Value = { Message H };

    ghost view = { λ m. record { head = m.head; body = m.body } };
}

/// A request that is lent.
pub type RequestView<'a> = MessageView<'a, RequestHeadView<'a>>;

/// A response that is lent.
pub type ResponseView<'a> = MessageView<'a, ResponseHeadView<'a>>;

/// The same request in memory of its own.
pub fn copy_request(
    alloc: Global,
    request: &RequestView<'_>,
) -> Result<Message<RequestHead>, AllocError>
    ensures { IfOk result (λ copy. copy ≡ request.now) }
{
    Ok(Message {
        head: request.head.copy(alloc)?,
        body: request.body.copy_shared(alloc)?,
    })
}

/// The same response in memory of its own.
pub fn copy_response(
    alloc: Global,
    response: &ResponseView<'_>,
) -> Result<Message<ResponseHead>, AllocError>
    ensures { IfOk result (λ copy. copy ≡ response.now) }
{
    Ok(Message {
        head: response.head.copy(alloc)?,
        body: response.body.copy_shared(alloc)?,
    })
}

/// A request, lent.
pub fn lent_request(request: &Message<RequestHead>) -> RequestView<'_>
    ensures { result ≡ request.now }
{
    MessageView {
        head: request.head.lent(),
        body: BodyView::of(request.body.as_slice()),
    }
}

/// A response, lent.
pub fn lent_response(response: &Message<ResponseHead>) -> ResponseView<'_>
    ensures { result ≡ response.now }
{
    MessageView {
        head: response.head.lent(),
        body: BodyView::of(response.body.as_slice()),
    }
}
