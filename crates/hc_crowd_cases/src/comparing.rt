//! What passed is compared with a run of what happened.

use crate::by_link::ByLink;
use crate::faults::fault_of_links;
use crate::passed::{Sent, heard_in, sent_in};
use crate::playing::{Played, Served, settings};
use crate::verdict::counts_of;
use hc_cases::Unanswered;
use hc_core::{Run, run};
use hc_crowd_world::Play;
use hc_drive::DriveFault;
use hc_service::Event;
use std::alloc::Global;
use std::mem;

/// What came of the comparison.
#[derive(Clone, Copy)]
pub(crate) struct Judged {
    /// What isn't as it has to be, if anything isn't.
    pub(crate) fault: Option<&'static str>,
    /// Whether some replies were hits.
    pub(crate) hits: bool,
    /// Whether some were collapsed.
    pub(crate) collapsed: bool,
    /// Whether some were forwarded.
    pub(crate) forwarded: bool,
}

impl Judged {
    /// What came of nothing.
    pub(crate) fn nothing() -> Self {
        Judged {
            fault: None,
            hits: false,
            collapsed: false,
            forwarded: false,
        }
    }

    /// The same of both.
    pub(crate) fn with(self, other: Judged) -> Self {
        Judged {
            fault: self.fault.or(other.fault),
            hits: self.hits | other.hits,
            collapsed: self.collapsed | other.collapsed,
            forwarded: self.forwarded | other.forwarded,
        }
    }
}

/// Compares what passed with a run of what happened, and takes what happened.
pub(crate) fn compare(alloc: Global, played: &mut Played) -> Result<Judged, Unanswered> {
    let heard = heard_in(alloc, played.served.notes.events.as_slice())?;
    let settings = settings(alloc)?;
    let events = mem::replace(&mut played.served.notes.events, Vec::new(alloc));
    match run(alloc, settings, events) {
        Ok(run) => compared(alloc, &run, &heard, played),
        Err(_) => Err(Unanswered::Memory),
    }
}

fn compared(
    alloc: Global,
    run: &Run,
    heard: &ByLink,
    played: &Played,
) -> Result<Judged, Unanswered> {
    let transcript = run.transcript.as_slice();
    let Some(counts) = counts_of(alloc, transcript)? else {
        return Ok(Judged {
            fault: Some("no"),
            ..Judged::nothing()
        });
    };
    let kept = played.served.recording.len();
    let sent = sent_in(alloc, run.results.as_slice(), kept)?;
    Ok(Judged {
        fault: fault_of(&sent, heard, transcript, played),
        hits: counts.hits > 0,
        collapsed: sent.collapsed,
        forwarded: counts.forwarded > 0,
    })
}

fn fault_of(
    sent: &Sent,
    heard: &ByLink,
    transcript: &[u8],
    played: &Played,
) -> Option<&'static str> {
    fault_of_end(&played.served, transcript)
        .or(fault_of_links(&sent.table, heard, played))
        .or(fault_of_play(&played.play))
}

/// What is wrong with how it ended, and with what was recorded.
fn fault_of_end(served: &Served, transcript: &[u8]) -> Option<&'static str> {
    let recording = served.recording.as_slice();
    if served.notes.torn {
        return Some("memory was refused");
    }
    if !transcript.starts_with(recording) {
        return Some("another recording");
    }
    match served.result {
        Ok(()) if transcript.len() != recording.len() => Some("a part of the recording"),
        Ok(()) if !served.idle => Some("left open in the cache"),
        Ok(()) => None,
        Err(DriveFault::Recorder) => None,
        Err(fault) => Some(name_of(fault)),
    }
}

/// The name of what went wrong while links were served.
pub(crate) fn name_of(fault: DriveFault) -> &'static str {
    match fault {
        DriveFault::Client => "Client",
        DriveFault::Recorder => "Recorder",
        DriveFault::Core(_) => "Core",
    }
}

/// What is wrong with the world.
fn fault_of_play(play: &Play) -> Option<&'static str> {
    if play.tally.broken {
        return Some("memory was refused");
    }
    if play.tally.beyond {
        return Some("too many links");
    }
    None
}
