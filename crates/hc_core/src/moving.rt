//! Replies and forwards, with what they make of what is open.

ghost use Rattle.std.specs.Prelude.{◌≡◌, ◌≤◌, ◌++◌, None, OnOk, length, if◌then◌else◌};
ghost use Rattle.std.specs.BTreeMap.{get as kept_at};
ghost use Rattle.std.specs.Ordering.{nat_cmp};
ghost use Rattle.std.specs.FinMap.{insert};
ghost use Rattle.hc_service.specs.State.{exchange_for};
ghost use Rattle.hc_service.specs.Numbers.{noted, one_more, sent};
ghost use Rattle.hc_service.specs.Sending.{reply_actions, send_actions};
ghost use Rattle.hc_service.specs.declared.open.OpenExchange.{OpenExchange};
ghost use Rattle.hc_service.specs.State.{Awaited, Connection, Table};
ghost use Rattle.hc_service.specs.Turns.{sent_forward};
ghost use Rattle.hc_incoming.specs.RequestReading.{unread};
ghost use Rattle.hc_core.specs.Reading.{unread_at};
ghost use Rattle.hc_open.specs.Links.{AreClients, AreExchanges, AreLinks, HasPlace, IsIdle, WillAwait};

use crate::answering::HeldExchange;
use hc_framing::Message;
use hc_head::{RequestHead, ResponseHead, Target, is_head};
use hc_incoming::ResponseReader;
use hc_open::{Client, Link, OpenExchanges, OpenLinks};
use hc_reactions::{Addressee, send_reply, send_request};
use hc_service::{Action, Numbers, OpenForward, Purpose};
use std::alloc::{AllocError, Global};
use std::collections::BTreeMap;

/// Sends a reply on a connection that was taken out, and goes on with it where it doesn't close.
pub(crate) fn reply_on(
    numbers: &mut Numbers,
    clients: &mut BTreeMap<u64, Client>,
    to: Addressee,
    client: Client,
    reply: &Message<ResponseHead>,
    actions: &mut Vec<Action>,
) -> Result<(), AllocError>
    ensures numbers { OnOk result (numbers.new ≡ noted numbers.old) }
    ensures clients { (connections : Table Connection) (k : Connection) → AreClients clients.old connections → IsIdle client k
        → OnOk result (AreClients clients.new (if to.closes then connections else insert connections to.connection k)) }
    ensures unread { kept_at nat_cmp clients.old to.connection ≡ None
        → OnOk result (unread_at to.connection clients.new ≤ length (unread client.reader)) }
    ensures actions { OnOk result (actions.new.items ≡ actions.old.items
        ++ reply_actions to.exchange numbers.old.moment to.to_head to.connection to.closes reply.now) }
{
    send_reply(reply.head.fields.alloc(), numbers, to, reply, actions)?;
    go_on(clients, to, client)
}

/// Goes on with a connection behind a reply, unless it closes.
fn go_on(
    clients: &mut BTreeMap<u64, Client>,
    to: Addressee,
    client: Client,
) -> Result<(), AllocError>
    ensures clients { (connections : Table Connection) (k : Connection) → AreClients clients.old connections → IsIdle client k
        → OnOk result (AreClients clients.new (if to.closes then connections else insert connections to.connection k)) }
    ensures unread { kept_at nat_cmp clients.old to.connection ≡ None
        → OnOk result (unread_at to.connection clients.new ≤ length (unread client.reader)) }
{
    if to.closes {
        return Ok(());
    }
    let idle = Client {
        reader: client.reader,
        exchange: None,
        leaves: client.leaves,
    };
    clients.insert(to.connection, idle)?;
    Ok(())
}

/// Sends a request to the origin for a target, and awaits its response. Where it is for the store alone, no
/// such one may be open for the target.
pub(crate) fn send_forward(
    numbers: &mut Numbers,
    links: &mut OpenLinks,
    request: Message<RequestHead>,
    target: Target,
    purpose: Purpose,
    actions: &mut Vec<Action>,
) -> Result<(), AllocError>
    ensures numbers { OnOk result (numbers.new ≡ sent numbers.old) }
    ensures links { (forwards : Table Awaited) → AreLinks links.old forwards
        → HasPlace (sent_forward request.head target numbers.old.moment purpose) forwards
        → OnOk result (AreLinks links.new (insert forwards (one_more numbers.old.forward)
        (sent_forward request.head target numbers.old.moment purpose))) }
    ensures actions { OnOk result (actions.new.items
        ≡ actions.old.items ++ send_actions (one_more numbers.old.forward) numbers.old.moment (exchange_for purpose) request) }
{
    let alloc = request.head.fields.alloc();
    let moment = numbers.moment;
    let number = send_request(alloc, numbers, purpose.exchange(), &request, actions)?;
    let to_head = is_head(&request.head.method);
    let link = Link {
        forward: OpenForward {
            request: request.head,
            target,
            moment,
            purpose,
        },
        reader: ResponseReader::new(alloc, to_head),
    };
    links.put(alloc, number, link)
}

/// A request awaits its reply on a connection that was taken out.
pub(crate) fn await_reply(
    alloc: Global,
    exchanges: &mut OpenExchanges,
    clients: &mut BTreeMap<u64, Client>,
    held: HeldExchange,
) -> Result<(), AllocError>
    ensures exchanges { (table : Table OpenExchange) → AreExchanges exchanges.old table
        → OnOk result (AreExchanges exchanges.new (insert table held.number held.exchange)) }
    ensures clients { (connections : Table Connection) (k : Connection) → AreClients clients.old connections
        → WillAwait held.client held.number k
        → OnOk result (AreClients clients.new (insert connections held.exchange.connection k)) }
    ensures unread { OnOk result
        (unread_at held.exchange.connection clients.new ≤ length (unread held.client.reader)) }
{
    let HeldExchange {
        number,
        exchange,
        client,
    } = held;
    let connection = exchange.connection;
    exchanges.put(alloc, number, exchange)?;
    let busy = Client {
        reader: client.reader,
        exchange: Some(number),
        leaves: client.leaves,
    };
    clients.insert(connection, busy)?;
    Ok(())
}
