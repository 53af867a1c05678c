//! Records, and what goes out with them. What is recorded is sent octet by octet: its text is written once,
//! and has two owners.

ghost use Rattle.std.specs.Prelude.{◌≡◌, ◌++◌, ◌<◌, true, IfOk, OnOk};
ghost use Rattle.hc_fields.specs.Numbers.{end_of_moments};
ghost use Rattle.hc_head.specs.Methods.{is_head};
ghost use Rattle.hc_replies.specs.Replies.{generated_reply};
ghost use Rattle.hc_service.specs.Numbers.{asked, noted, one_more, sent};
ghost use Rattle.hc_service.specs.Sending.{ask_actions, close_actions, failure_actions, refusal_actions, reply_actions, response_actions, send_actions};

use hc_framing::{Kind, Message, write_message};
use hc_head::{RequestHead, ResponseHead, StatusCode};
use hc_replies::generated_reply;
use hc_service::{Action, Numbers};
use hc_transcript::{Passed, Record};
use std::alloc::{AllocError, Global};

/// Whom a reply goes to.
#[derive(Clone, Copy)]
pub struct Addressee {
    /// The number of the request's exchange.
    pub exchange: u64,
    /// Whether the request's method is HEAD, so that no body goes out with the reply.
    pub to_head: bool,
    /// The number of the connection on which the request came.
    pub connection: u64,
    /// Whether the connection closes behind the reply.
    pub closes: bool,
}

/// Records a client's request at the last moment of the numbers, in whole seconds since 1970, and returns
/// the number of its exchange. The body is shared.
pub fn record_request(
    alloc: Global,
    numbers: &mut Numbers,
    request: &Message<RequestHead>,
    actions: &mut Vec<Action>,
) -> Result<u64, AllocError>
    ensures number { IfOk result (λ exchange. exchange ≡ one_more numbers.old.exchange) }
    ensures numbers { OnOk result (numbers.new ≡ asked numbers.old) }
    ensures actions { OnOk result (actions.new.items
        ≡ actions.old.items ++ ask_actions (one_more numbers.old.exchange) numbers.old.moment request.now) }
{
    let number = numbers.ask();
    let text = write_message(alloc, request, Kind::Request)?;
    actions.push(Action::Record(Record {
        number,
        moment: numbers.moment,
        of: Passed::ClientRequest(text),
    }))?;
    Ok(number)
}

/// Records a request at the last moment and sends it to the origin, and returns the number of its forward.
/// `cause` is the number of the exchange that it is sent for, if it is for one. The body is shared.
pub fn send_request(
    alloc: Global,
    numbers: &mut Numbers,
    cause: Option<u64>,
    request: &Message<RequestHead>,
    actions: &mut Vec<Action>,
) -> Result<u64, AllocError>
    ensures number { IfOk result (λ forward. forward ≡ one_more numbers.old.forward) }
    ensures numbers { OnOk result (numbers.new ≡ sent numbers.old) }
    ensures actions { OnOk result (actions.new.items
        ≡ actions.old.items ++ send_actions (one_more numbers.old.forward) numbers.old.moment cause request.now) }
{
    let number = numbers.send();
    let text = write_message(alloc, request, Kind::Request)?;
    actions.push(Action::Record(Record {
        number,
        moment: numbers.moment,
        of: Passed::OriginRequest {
            message: text.share()?,
            cause,
        },
    }))?;
    actions.push(Action::Forward(number, text))?;
    Ok(number)
}

/// Records at the last moment what the origin answered to the forward of that number, which closes.
/// `to_head` tells whether the forward's method is HEAD, so that the response has no body.
pub fn record_response(
    alloc: Global,
    numbers: &mut Numbers,
    forward: u64,
    to_head: bool,
    response: &Message<ResponseHead>,
    actions: &mut Vec<Action>,
) -> Result<(), AllocError>
    ensures numbers { OnOk result (numbers.new ≡ noted numbers.old) }
    ensures actions { OnOk result (actions.new.items
        ≡ actions.old.items ++ response_actions forward numbers.old.moment to_head response.now) }
{
    numbers.note();
    let text = write_message(alloc, response, Kind::Response { to_head })?;
    actions.push(Action::Record(Record {
        number: forward,
        moment: numbers.moment,
        of: Passed::OriginResponse(text),
    }))?;
    actions.push(Action::CloseForward(forward))?;
    Ok(())
}

/// Records at the last moment that the forward of that number failed: that it had no response. `closes`
/// tells whether it is still to be closed, since one that broke by itself is closed already.
pub fn record_failure(
    numbers: &mut Numbers,
    forward: u64,
    closes: bool,
    actions: &mut Vec<Action>,
) -> Result<(), AllocError>
    ensures numbers { OnOk result (numbers.new ≡ noted numbers.old) }
    ensures actions { OnOk result (actions.new.items
        ≡ actions.old.items ++ failure_actions forward numbers.old.moment closes) }
{
    numbers.note();
    actions.push(Action::Record(Record {
        number: forward,
        moment: numbers.moment,
        of: Passed::OriginFailure,
    }))?;
    if closes {
        actions.push(Action::CloseForward(forward))?;
    }
    Ok(())
}

/// Closes a connection, where it closes.
fn close(connection: u64, closes: bool, actions: &mut Vec<Action>) -> Result<(), AllocError>
    ensures { OnOk result (actions.new.items ≡ actions.old.items ++ close_actions connection closes) }
{
    if closes {
        actions.push(Action::CloseClient(connection))?;
    }
    Ok(())
}

/// Records a reply at the last moment and sends it to the client; the connection closes behind it, where
/// it does. The body is shared.
pub fn send_reply(
    alloc: Global,
    numbers: &mut Numbers,
    to: Addressee,
    reply: &Message<ResponseHead>,
    actions: &mut Vec<Action>,
) -> Result<(), AllocError>
    ensures numbers { OnOk result (numbers.new ≡ noted numbers.old) }
    ensures actions { OnOk result (actions.new.items ≡ actions.old.items
        ++ reply_actions to.exchange numbers.old.moment to.to_head to.connection to.closes reply.now) }
{
    numbers.note();
    let to_head = to.to_head;
    let text = write_message(alloc, reply, Kind::Response { to_head })?;
    actions.push(Action::Record(Record {
        number: to.exchange,
        moment: numbers.moment,
        of: Passed::ClientReply(text.share()?),
    }))?;
    actions.push(Action::ToClient(to.connection, text))?;
    close(to.connection, to.closes, actions)
}

/// Sends a reply that has no record to the client of a connection, which closes.
fn send_refusal(
    alloc: Global,
    connection: u64,
    reply: &Message<ResponseHead>,
    actions: &mut Vec<Action>,
) -> Result<(), AllocError>
    ensures { OnOk result (actions.new.items ≡ actions.old.items ++ refusal_actions connection reply.now) }
{
    let to_head = false;
    let text = write_message(alloc, reply, Kind::Response { to_head })?;
    actions.push(Action::ToClient(connection, text))?;
    actions.push(Action::CloseClient(connection))?;
    Ok(())
}

/// Refuses what came on the connection of that number, which can't be read as a request, by a reply of that
/// status, which has no record; the connection closes. The moment is in whole seconds since 1970, and lies
/// before the year 10000.
pub fn refuse(
    alloc: Global,
    moment: u64,
    connection: u64,
    status: StatusCode,
    actions: &mut Vec<Action>,
) -> Result<(), AllocError>
    requires { moment < end_of_moments }
    ensures { OnOk result (actions.new.items
        ≡ actions.old.items ++ refusal_actions connection (generated_reply status moment true)) }
{
    let reply = generated_reply(alloc, status, moment, true)?;
    send_refusal(alloc, connection, &reply, actions)
}
