//! Hits of a large body.

use crate::links::Tally;
use crate::notebook::Notebook;
use crate::runs::served;
use crate::scene::{Scene, Site, Ticking, new_core};
use crate::telling::say_returned;
use hc_cases::Unanswered;
use hc_connection::Connection;
use hc_core::Core;
use hc_drive::DriveFault;
use std::alloc::{AllocError, Global};
use std::fmt::Write;

/// How many octets the request has that is stored.
const ONE_REQUEST: usize = 28;

/// A client sends the first request alone, then another one sends all of them. Writes how many octets each of them gets,
/// and how many are recorded meanwhile.
pub(crate) fn say_hits(
    alloc: Global,
    scene: &Scene<'_>,
    out: &mut String,
) -> Result<(), Unanswered> {
    let mut core = new_core(alloc, scene.keeps_cookies)?;
    say_both(alloc, &mut core, scene, out)
}

/// Serves both clients by that cache.
fn say_both(
    alloc: Global,
    core: &mut Core,
    scene: &Scene<'_>,
    out: &mut String,
) -> Result<(), Unanswered> {
    let notebook = Notebook::new(alloc, None);
    let site = Site {
        alloc,
        scene,
        notebook: &notebook,
    };
    say_clients(core, &site, out)
}

fn say_clients(core: &mut Core, site: &Site<'_>, out: &mut String) -> Result<(), Unanswered> {
    let client = site.scene.client;
    let (first, _) = client.split_at(ONE_REQUEST.min(client.len()));
    say_one(core, 1, first, site, out)?;
    out.push_str("; ")?;
    say_one(core, 2, client, site, out)?;
    Ok(())
}

/// Serves one connection of a client who sends those octets, and writes how many it got, and how many were recorded.
fn say_one(
    core: &mut Core,
    number: u64,
    client: &[u8],
    site: &Site<'_>,
    out: &mut String,
) -> Result<(), AllocError> {
    let mut recorder = Tally::new(b"");
    let clock = Ticking::new(site.scene.step);
    let link = Tally::new(client);
    let mut connection = Connection::new(site.alloc, number, link, site, &clock);
    let answer = served(site.alloc, core, &mut connection, &mut recorder);
    say_counts(answer, connection.client().got(), recorder.got(), out)
}

fn say_counts(
    answer: Result<(), DriveFault>,
    got: u64,
    recorded: u64,
    out: &mut String,
) -> Result<(), AllocError> {
    if answer.is_err() {
        say_returned(answer, out)?;
        out.push_str(": ")?;
    }
    write!(out, "client {got} octets, recorder {recorded} octets")
}
