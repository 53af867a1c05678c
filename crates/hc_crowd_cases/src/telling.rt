//! What is told of a schedule.

use crate::comparing::{compare, name_of};
use crate::playing::{Played, Served};
use crate::replies::say_replies_in;
use hc_cases::Unanswered;
use hc_crowd_world::{Notes, Peer, Play};
use hc_drive::DriveFault;
use hc_order::{Reason, Receiver};
use hc_service::{Event, Happening};
use std::alloc::{AllocError, Global};
use std::fmt::Write;

/// So many clients in a row who got the same are told of at once.
const SEVERAL: u64 = 4;

/// Writes what is asked of a schedule that was played, and how it ended, and takes what happened.
pub(crate) fn say_played(
    alloc: Global,
    question: &str,
    played: &mut Played,
    out: &mut String,
) -> Result<(), Unanswered> {
    say_asked(question, played, out)?;
    say_end(alloc, played, out)
}

fn say_asked(question: &str, played: &Played, out: &mut String) -> Result<(), Unanswered> {
    let Played { served, play } = played;
    let told = match question {
        "replies" => say_replies(play, out),
        "events" => say_happened(served.notes.events.as_slice(), out),
        "reasons" => say_reasons(&served.notes, out),
        "visits" => out.push_str(play.visits.as_str()),
        "wrongs" => out.push_str(served.wrongs.as_str()),
        _ => return Err(Unanswered::Unknown),
    };
    Ok(told?)
}

fn say_replies(play: &Play, out: &mut String) -> Result<(), AllocError> {
    say_clients(play, out)?;
    out.push_str(play.notes.as_str())
}

fn say_clients(play: &Play, out: &mut String) -> Result<(), AllocError> {
    let last = play.tally.connected;
    let mut number = 1;
    'clients: for _ in 0..last {
        if number > last {
            return Ok(());
        }
        let behind = behind_same(play, number, last);
        say_clients_from(play, number, behind, out)?;
        number = behind;
    }
    Ok(())
}

/// The number behind the clients, from the first one on, who got the same, if there are several, or else behind the first.
fn behind_same(play: &Play, first: u64, last: u64) -> u64 {
    let mut number = first.saturating_add(1);
    'clients: for _ in first..last {
        if !are_same(play, first, number) {
            break;
        }
        number = number.saturating_add(1);
    }
    if number.saturating_sub(first) < SEVERAL {
        return first.saturating_add(1);
    }
    number
}

/// Whether the same came of two clients.
fn are_same(play: &Play, one: u64, other: u64) -> bool {
    let one = play.peer(Receiver::Client(one));
    let other = play.peer(Receiver::Client(other));
    match (one, other) {
        (Some(one), Some(other)) => {
            one.got.as_slice() == other.got.as_slice()
                && one.is_whole() == other.is_whole()
                && one.gone == other.gone
        }
        _ => false,
    }
}

/// Writes what came of the clients of those numbers, which is the same.
fn say_clients_from(
    play: &Play,
    first: u64,
    behind: u64,
    out: &mut String,
) -> Result<(), AllocError> {
    if first > 1 {
        out.push_str("; ")?;
    }
    let last = behind.saturating_sub(1);
    if first == last {
        write!(out, "client {first}:")?;
    } else {
        write!(out, "clients {first} to {last}:")?;
    }
    match play.peer(Receiver::Client(first)) {
        Some(peer) => say_client(peer, out),
        None => Ok(()),
    }
}

fn say_client(peer: &Peer, out: &mut String) -> Result<(), AllocError> {
    say_replies_in(peer.got.as_slice(), out)?;
    if peer.is_whole() {
        return out.push_str(" and its end");
    }
    if peer.gone {
        return out.push_str(" and is dropped");
    }
    Ok(())
}

/// Writes what happened, by moments.
fn say_happened(events: &[Event], out: &mut String) -> Result<(), AllocError> {
    let mut moment = None;
    'events: for event in events {
        if moment != Some(event.moment) {
            if moment.is_some() {
                out.push_str("; ")?;
            }
            let told = event.moment;
            write!(out, "{told}:")?;
            moment = Some(told);
        } else {
            out.push_str(",")?;
        }
        say_one(&event.of, out)?;
    }
    Ok(())
}

/// Writes what happened at links that the other side didn't do, by moments, and why it was told.
fn say_reasons(notes: &Notes, out: &mut String) -> Result<(), AllocError> {
    let mut is_first = true;
    'events: for (event, reason) in notes.events.iter().zip(notes.reasons.iter()) {
        let Some(why) = why(*reason) else {
            continue;
        };
        if matches!(event.of, Happening::Stopping) {
            continue;
        }
        if !is_first {
            out.push_str("; ")?;
        }
        is_first = false;
        let moment = event.moment;
        write!(out, "{moment}:")?;
        say_one(&event.of, out)?;
        out.push_str(why)?;
    }
    Ok(())
}

/// Why something is told, unless the other side did it.
fn why(reason: Reason) -> Option<&'static str> {
    match reason {
        Reason::Peer => None,
        Reason::Replies => Some(", for its replies"),
        Reason::Reads => Some(", for the reads"),
        Reason::Stop => Some(", at a stop"),
        Reason::Late => Some(", late"),
        Reason::Reset => Some(", reset"),
        Reason::Held => Some(", for what was held"),
        Reason::Displaced => Some(", to give way"),
        Reason::Abandoned => Some(", abandoned"),
    }
}

fn say_one(of: &Happening, out: &mut String) -> Result<(), AllocError> {
    let (whose, number, deed, octets) = match of {
        Happening::ClientOpened(c) => ("client", *c, "opens", None),
        Happening::ClientBytes(c, octets) => ("client", *c, "sends", Some(octets.len())),
        Happening::ClientEnd(c) => ("client", *c, "ends", None),
        Happening::OriginBytes(f, octets) => ("forward", *f, "gets", Some(octets.len())),
        Happening::OriginEnd(f) => ("forward", *f, "ends", None),
        Happening::OriginFailed(f) => ("forward", *f, "fails", None),
        Happening::Stopping => return out.push_str(" the cache stops"),
    };
    write!(out, " {whose} {number} {deed}")?;
    match octets {
        Some(count) => write!(out, " {count}"),
        None => Ok(()),
    }
}

/// Writes how it ended.
fn say_end(alloc: Global, played: &mut Played, out: &mut String) -> Result<(), Unanswered> {
    out.push_str("; ")?;
    say_served(&played.served, played.play.tick, out)?;
    say_count(played.play.tally.missed, "deeds missed", out)?;
    out.push_str(", ")?;
    let judged = compare(alloc, played)?;
    Ok(out.push_str(judged.fault.unwrap_or("same, yes"))?)
}

fn say_served(served: &Served, tick: u64, out: &mut String) -> Result<(), AllocError> {
    out.push_str(word_of(served.result))?;
    write!(out, " at {tick}")?;
    if served.behind {
        out.push_str(", clock behind")?;
    }
    out.push_str(served.counts.as_str())
}

fn word_of(ended: Result<(), DriveFault>) -> &'static str {
    match ended {
        Ok(()) => "served",
        Err(DriveFault::Recorder) => "recorder failed",
        Err(fault) => name_of(fault),
    }
}

/// Writes how many there were of something, if there were any.
pub(crate) fn say_count(count: u64, what: &str, out: &mut String) -> Result<(), AllocError> {
    if count == 0 {
        return Ok(());
    }
    write!(out, ", {count} {what}")
}
