//! The numbers of a proxy in the text format of Prometheus.

use crate::families::{
    Family, Number, push_both, push_family, push_labelled, push_numbers, push_sample,
};
use crate::figures::{Classes, Figures, Ways};
use crate::names::{
    AWAITING, CLIENTS, CLIENTS_LIMIT, CUT_OFF, DRAINING, ENDED, EVICTIONS, FAILED, FORWARDED,
    FORWARDS, GUESTS, HELD, HELD_LIMIT, LOST_LINES, ORIGIN_LIMIT, POLLS, QUEUED, RECEIVED,
    RECORDING, REFUSED, REPLIES, SENT, STORED, STORED_LIMIT, TARGETS, TARGETS_LIMIT, TURNED_AWAY,
    TURNS, WAITERS,
};
use crate::stand::Stand;
use std::alloc::{AllocError, Global};

/// What befell a message or a link.
#[derive(Clone, Copy, PartialEq, Eq)]
pub enum Befell {
    /// A request was refused.
    Refused,
    /// A response failed, or didn't come.
    Failed,
    /// A client was cut off.
    CutOff,
}

/// How often something befell messages or links, and why.
#[derive(Clone, Copy)]
pub struct Kind<'a> {
    /// What.
    pub befell: Befell,
    /// Why.
    pub why: &'a str,
    /// How often.
    pub count: u64,
}

/// The room that the text gets at first.
const ROOM: usize = 16_384;

/// The numbers, as Prometheus reads them. It fails only where memory is refused.
pub fn metrics_of(
    alloc: Global,
    figures: &Figures,
    stand: &Stand,
    kinds: &[Kind<'_>],
) -> Result<Vec<u8>, AllocError> {
    let mut out = Vec::with_capacity(alloc, ROOM)?;
    push_family(REPLIES, &mut out)?;
    push_ways(&figures.replies, &mut out)?;
    push_octets(figures, &mut out)?;
    push_links(stand, &mut out)?;
    push_store(stand, &mut out)?;
    push_kinds(Befell::Refused, kinds, &mut out)?;
    push_kinds(Befell::Failed, kinds, &mut out)?;
    push_kinds(Befell::CutOff, kinds, &mut out)?;
    push_health(stand, &mut out)?;
    Ok(out)
}

/// Puts the numbers of all ways at the end.
fn push_ways(ways: &Ways, out: &mut Vec<u8>) -> Result<(), AllocError> {
    push_mark("hit", ways.hit, out)?;
    push_mark("stale-hit", ways.stale_hit, out)?;
    push_mark("collapsed", ways.collapsed, out)?;
    push_mark("uri-miss", ways.uri_miss, out)?;
    push_mark("vary-miss", ways.vary_miss, out)?;
    push_mark("stale", ways.stale, out)?;
    push_mark("method", ways.method, out)?;
    push_mark("request", ways.request, out)?;
    push_mark("bypass", ways.bypass, out)?;
    push_mark("none", ways.unmarked, out)
}

/// Puts the numbers of one way at the end, by class.
fn push_mark(mark: &str, classes: Classes, out: &mut Vec<u8>) -> Result<(), AllocError> {
    push_sample(mark, "2xx", classes.successful, out)?;
    push_sample(mark, "3xx", classes.redirection, out)?;
    push_sample(mark, "4xx", classes.client_error, out)?;
    push_sample(mark, "5xx", classes.server_error, out)?;
    push_sample(mark, "other", classes.other, out)
}

/// Octets, both ways, and forwards.
fn push_octets(figures: &Figures, out: &mut Vec<u8>) -> Result<(), AllocError> {
    let clients = ("clients", figures.from_clients);
    push_both(
        RECEIVED,
        "from",
        clients,
        ("origin", figures.from_origin),
        out,
    )?;
    let clients = ("clients", figures.to_clients);
    push_both(SENT, "to", clients, ("origin", figures.to_origin), out)?;
    let numbers = [
        Number {
            family: FORWARDED,
            value: figures.forwards,
        },
        Number {
            family: TURNED_AWAY,
            value: figures.turned_away,
        },
    ];
    push_numbers(&numbers, out)
}

/// Links of clients and to the origin, and who waits.
fn push_links(stand: &Stand, out: &mut Vec<u8>) -> Result<(), AllocError> {
    let numbers = [
        Number {
            family: CLIENTS,
            value: stand.clients,
        },
        Number {
            family: CLIENTS_LIMIT,
            value: stand.most_clients,
        },
        Number {
            family: GUESTS,
            value: stand.guests,
        },
        Number {
            family: FORWARDS,
            value: stand.forwards,
        },
        Number {
            family: ORIGIN_LIMIT,
            value: stand.most_origin,
        },
        Number {
            family: AWAITING,
            value: stand.awaiting,
        },
        Number {
            family: QUEUED,
            value: stand.queued,
        },
        Number {
            family: WAITERS,
            value: stand.waiters,
        },
    ];
    push_numbers(&numbers, out)
}

/// What is stored and held.
fn push_store(stand: &Stand, out: &mut Vec<u8>) -> Result<(), AllocError> {
    let numbers = [
        Number {
            family: TARGETS,
            value: stand.targets,
        },
        Number {
            family: TARGETS_LIMIT,
            value: stand.most_targets,
        },
        Number {
            family: STORED,
            value: stand.stored,
        },
        Number {
            family: STORED_LIMIT,
            value: stand.most_stored,
        },
        Number {
            family: EVICTIONS,
            value: stand.evicted,
        },
        Number {
            family: HELD,
            value: stand.held,
        },
        Number {
            family: HELD_LIMIT,
            value: stand.most_held,
        },
    ];
    push_numbers(&numbers, out)
}

/// What befell messages or links, by why.
fn push_kinds(befell: Befell, kinds: &[Kind<'_>], out: &mut Vec<u8>) -> Result<(), AllocError> {
    let family = family_of(befell);
    push_family(family, out)?;
    for kind in kinds {
        if kind.befell == befell {
            push_labelled(family.name, "why", kind.why, kind.count, out)?;
        }
    }
    Ok(())
}

fn family_of(befell: Befell) -> Family<'static> {
    match befell {
        Befell::Refused => REFUSED,
        Befell::Failed => FAILED,
        Befell::CutOff => CUT_OFF,
    }
}

/// Whether all is well.
fn push_health(stand: &Stand, out: &mut Vec<u8>) -> Result<(), AllocError> {
    let numbers = [
        Number {
            family: LOST_LINES,
            value: stand.lost_lines,
        },
        Number {
            family: RECORDING,
            value: u64::from(stand.records),
        },
        Number {
            family: ENDED,
            value: u64::from(stand.record_ended),
        },
        Number {
            family: DRAINING,
            value: u64::from(stand.drains),
        },
        Number {
            family: POLLS,
            value: stand.failed_polls,
        },
        Number {
            family: TURNS,
            value: stand.longest_turn,
        },
    ];
    push_numbers(&numbers, out)
}
