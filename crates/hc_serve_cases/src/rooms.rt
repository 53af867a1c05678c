//! A cache with room for some connections.

ghost use Rattle.std.specs.Prelude.{ℕ};

use crate::questions::{say_clients, say_incidents, say_needed};
use crate::scene::{core_with, number_of, text_of};
use crate::steps::{connection_of, happening};
use crate::telling::say_returned;
use hc_cases::Unanswered;
use hc_core::{Core, CoreFault};
use hc_drive::{DriveFault, drive};
use hc_framing::MessageText;
use hc_links::{Awaiting, Links, Off};
use hc_order::{Occurrence, Reason, Receiver};
use hc_service::{CoreOptions, Event, Happening};
use std::alloc::{AllocError, Global};
use std::fmt::Write;
use std::hash::BuildHasher;

/// Hands a new cache with room for so many connections what happens, one step after another, and writes what each comes
/// to.
pub(crate) fn say_room(
    alloc: Global,
    about: &[Vec<u8>],
    out: &mut String,
) -> Result<(), Unanswered> {
    let [connections, steps @ ..] = about else {
        return Err(Unanswered::Unknown);
    };
    let options = CoreOptions {
        connections: number_of(connections.as_slice())?,
        ..CoreOptions::usual()
    };
    match core_with(alloc, options) {
        Ok(mut core) => say_steps(alloc, &mut core, steps, out),
        Err(CoreFault::Memory) => Err(Unanswered::Memory),
        Err(fault) => Ok(write!(out, "{fault:?}")?),
    }
}

fn say_steps(
    alloc: Global,
    core: &mut Core,
    steps: &[Vec<u8>],
    out: &mut String,
) -> Result<(), Unanswered> {
    for (place, step) in steps.iter().enumerate() {
        if place > 0 {
            out.push_str("; ")?;
        }
        say_step(alloc, core, text_of(step.as_slice())?, out)?;
    }
    Ok(())
}

/// Writes what the step comes to, or what the cache returns for its question.
fn say_step(
    alloc: Global,
    core: &mut Core,
    step: &str,
    out: &mut String,
) -> Result<(), Unanswered> {
    let Some((word, number)) = step.split_once(" ") else {
        return Err(Unanswered::Unknown);
    };
    let number = number_of(number.as_bytes())? as u64;
    match word {
        "whom" => say_clients(core, number, out),
        "needed" => say_needed(core, number, out),
        _ => {
            let of = happening(alloc, word, number)?;
            say_handed(alloc, core, of, out)
        }
    }
}

/// Writes whether what happens is served, or by which fault it isn't; whether a request of its connection awaits its
/// reply then; and what went wrong.
fn say_handed(
    alloc: Global,
    core: &mut Core,
    of: Happening,
    out: &mut String,
) -> Result<(), Unanswered> {
    let connection = connection_of(&of);
    say_returned(handed(alloc, core, of), out)?;
    if let Some(connection) = connection {
        if core.awaits(connection) {
            out.push_str(", awaits")?;
        }
    }
    say_incidents(core.incidents(), out)?;
    Ok(())
}

/// Hands the cache what happens, and returns what that comes to.
fn handed(alloc: Global, core: &mut Core, of: Happening) -> Result<(), DriveFault> {
    let mut links = Handing { of: Some(of) };
    driven(alloc, core, &mut links)
}

// What `drive` promises is of any links, and costs a check least where it isn't asked of these.
fn driven<S: BuildHasher, L: Links>(
    alloc: Global,
    core: &mut Core<S>,
    links: &mut L,
) -> Result<(), DriveFault> {
    drive(alloc, core, links, &mut Off)
}

/// Links at which one thing happens, whatever the cache awaits. What is sent to them is lost.
struct Handing {
    of: Option<Happening>,
}

impl Drop for Handing {
    fn drop(self) {
        let Handing { of } = self;
        drop(of);
    }
}

impl Links for Handing {
    // It may happen out of turn, so there is no log by which it may.
    ghost tells = { λ _ _. ⊥ };

    ghost shows = { λ _ _. Unit {0} };

    ghost rests = { λ _. Unit {0} };

    ghost most = { λ _. 0 };

    ghost Bounds = { ℕ };

    ghost bounds = { λ _. 0 };

    ghost within = { λ _ _. Unit {0} };

    ghost may_tell = { λ _ _. Unit {0} };

    ghost heeds = { λ _ _. Unit {0} };

    fn next<A: Awaiting>(&mut self, _cache: &A) -> Result<Option<Occurrence>, AllocError> {
        let Some(of) = self.of.take() else {
            return Ok(None);
        };
        Ok(Some(Occurrence {
            event: Event { moment: 1_000, of },
            reason: Reason::Peer,
        }))
    }

    fn send(&mut self, _to: Receiver, _octets: &MessageText) -> Result<(), AllocError> {
        Ok(())
    }

    fn close(&mut self, _link: Receiver) {}
}
