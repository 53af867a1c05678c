//! What is wrong with what passed at links.

use crate::by_link::ByLink;
use crate::playing::Played;
use hc_crowd_world::{Peer, Standing, is_client, key_of};
use hc_order::Receiver;

/// What one gets who is turned away.
const REFUSAL: &[u8] =
    b"HTTP/1.1 503 Service Unavailable\r\nretry-after: 1\r\ncontent-length: 0\r\nconnection: close\r\n\r\n";

/// What is wrong with what passed at links, where that was sent by the run, and that was heard by what happened.
pub(crate) fn fault_of_links(
    sent: &ByLink,
    heard: &ByLink,
    played: &Played,
) -> Option<&'static str> {
    let is_calm = played.play.script.calm;
    let is_served = played.served.result.is_ok();
    'links: for (key, peer) in played.play.peers.iter() {
        if is_served && peer.is_linked() {
            return Some("a link is left");
        }
        let mut fault = fault_of_octets(peer, sent, heard);
        if is_calm && is_client(*key) {
            fault = fault.or(fault_of_end(peer));
        }
        if fault.is_some() {
            return fault;
        }
    }
    None
}

/// What is wrong with what was written and read.
fn fault_of_octets(peer: &Peer, sent: &ByLink, heard: &ByLink) -> Option<&'static str> {
    let sent = sent_to(sent, peer.standing);
    let got = peer.got.as_slice();
    if !sent.starts_with(got) {
        return Some("other octets were written");
    }
    if has_to_be_whole(peer) && sent.len() != got.len() {
        return Some("octets weren't written");
    }
    let read = peer.was_read();
    if !read.starts_with(heard_of(heard, peer.standing)) {
        return Some("other octets were heard");
    }
    if matches!(peer.standing, Standing::Guest(_)) && !read.is_empty() {
        return Some("a guest was read");
    }
    None
}

/// Whether all that was sent has to have come. What is written to one who is turned away is written once.
fn has_to_be_whole(peer: &Peer) -> bool {
    match peer.standing {
        Standing::Linked(Receiver::Client(_)) => peer.is_whole(),
        Standing::TurnedAway(_) => peer.is_whole() && !peer.pressed,
        Standing::Linked(Receiver::Origin(_)) => false,
        Standing::Waits | Standing::Guest(_) => false,
    }
}

/// What is wrong with how a client ended who was to be served.
fn fault_of_end(peer: &Peer) -> Option<&'static str> {
    match peer.standing {
        Standing::Waits | Standing::Guest(_) if peer.said.is_empty() => None,
        Standing::Waits | Standing::Guest(_) => Some("a client wasn't heard"),
        _ if peer.is_whole() => None,
        _ => Some("a client wasn't served to its end"),
    }
}

/// What was sent to one who stands so.
fn sent_to(sent: &ByLink, standing: Standing) -> &[u8] {
    match standing {
        Standing::Linked(link) => sent.at(key_of(link)),
        Standing::TurnedAway(_) => REFUSAL,
        Standing::Waits | Standing::Guest(_) => b"",
    }
}

/// What was heard of one who stands so.
fn heard_of(heard: &ByLink, standing: Standing) -> &[u8] {
    match standing {
        Standing::Linked(link) => heard.at(key_of(link)),
        Standing::Waits | Standing::Guest(_) | Standing::TurnedAway(_) => b"",
    }
}
