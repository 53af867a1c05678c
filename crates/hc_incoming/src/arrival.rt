//! What is read off a link.

use crate::troubles::Trouble;
use hc_framing::Message;
use hc_head::{RequestHead, ResponseHead, Target};

/// What the octets of a client connection are.
#[derive(Drop)]
pub enum RequestArrival {
    /// A whole request, and what it asks for.
    Request(Message<RequestHead>, Target),
    /// Nothing that is served, and why: `refusal_status` tells the status of the reply, behind which the connection
    /// closes.
    Refused(Trouble),
    /// Nothing yet.
    More,
}

impl RequestArrival {
    ghost use Rattle.std.specs.Prelude.{◌≡◌};
    ghost use Rattle.hc_incoming.specs.Arrivals.{is_more, refusal_of};

    /// Whether nothing has come yet.
    pub(crate) fn is_more(&self) -> bool
        ensures { result ≡ is_more self.now }
    {
        match self {
            RequestArrival::Request(_, _) => false,
            RequestArrival::Refused(_) => false,
            RequestArrival::More => true,
        }
    }

    /// Why it is refused, if it is.
    pub(crate) fn refusal(&self) -> Option<Trouble>
        ensures { result ≡ refusal_of self.now }
    {
        match self {
            RequestArrival::Request(_, _) => None,
            RequestArrival::Refused(trouble) => Some(*trouble),
            RequestArrival::More => None,
        }
    }
}

/// What the octets of an origin's connection are.
#[derive(Drop)]
pub enum ResponseHeard {
    /// The final response.
    Response(Message<ResponseHead>),
    /// No response, whatever follows, and why.
    Failed(Trouble),
    /// Nothing yet.
    More,
}

/// What the octets of an origin's connection are that has ended.
#[derive(Drop)]
pub enum Ended {
    /// The final response.
    Response(Message<ResponseHead>),
    /// No response, and why.
    Failed(Trouble),
}
