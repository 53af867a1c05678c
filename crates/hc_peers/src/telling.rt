//! What is heard of a link, as it is told.

ghost use Rattle.std.specs.Prelude.{◌≡◌, Ok, Some};
ghost use Rattle.hc_peers.specs.Heard.{told, told_of_client, told_of_forward};

use hc_flow::Heard;
use hc_links::Happened;
use hc_order::{Reason, Receiver};
use hc_service::Happening;

/// What is heard of a link, as something that happens. A client's link is never lost: its end is told.
pub fn happened(link: Receiver, heard: Heard) -> Option<Happened>
    ensures { Ok result ≡ told link (Ok heard) }
{
    match link {
        Receiver::Client(number) => of_client(number, heard),
        Receiver::Origin(forward) => of_forward(forward, heard),
    }
}

/// What is heard of a client.
fn of_client(number: u64, heard: Heard) -> Option<Happened>
    ensures { result ≡ told_of_client number heard }
{
    match heard {
        Heard::Octets(octets) => happening(Happening::ClientBytes(number, octets), Reason::Peer),
        Heard::End(reason) => happening(Happening::ClientEnd(number), reason),
        Heard::Lost(_) => None,
        Heard::Nothing => None,
    }
}

/// What is heard of a forward.
fn of_forward(forward: u64, heard: Heard) -> Option<Happened>
    ensures { result ≡ told_of_forward forward heard }
{
    match heard {
        Heard::Octets(octets) => happening(Happening::OriginBytes(forward, octets), Reason::Peer),
        Heard::End(reason) => happening(Happening::OriginEnd(forward), reason),
        Heard::Lost(reason) => happening(Happening::OriginFailed(forward), reason),
        Heard::Nothing => None,
    }
}

/// Something that happens, for that reason.
fn happening(of: Happening, reason: Reason) -> Option<Happened>
    ensures { result ≡ Some (record { of = of; reason = reason }) }
{
    Some(Happened { of, reason })
}
