//! The questions of the cases.

use crate::hits::say_hits;
use crate::notebook::{Device, Fault};
use crate::rooms::say_room;
use crate::scene::{Scene, number_of};
use crate::service::say_service;
use crate::staged::Manner;
use crate::telling::{Told, say_failures, say_octets, say_run};
use hc_cases::{Ask, Case, Unanswered};
use hc_serving::Claim;
use std::alloc::Global;
use std::net::Net;
use std::random::RandomSource;
use std::rt::Files;

/// What is asked of connections.
#[derive(Drop)]
pub(crate) struct Connections<'a, R: Net + Files + RandomSource> {
    pub(crate) system: &'a R,
}

impl<'a, R: Net + Files + RandomSource> Ask for Connections<'a, R>
where
    R::File: Claim,
{
    fn answer(&self, case: &Case<'_>, out: &mut String) -> Result<(), Unanswered> {
        let Case {
            alloc,
            question,
            about,
        } = *case;
        if let Some(manner) = manner_of(question)? {
            return say_service(self.system, alloc, about, manner, out);
        }
        if question == "room" {
            return say_room(alloc, about, out);
        }
        answer_in_memory(alloc, question, &Scene::of(about)?, out)
    }
}

/// What is particular about the run of `serve` that is asked for, if one is.
fn manner_of(question: &str) -> Result<Option<Manner>, Unanswered> {
    if let Some(moment) = question.strip_prefix("serve at ") {
        let moment = number_of(moment.as_bytes())? as u64;
        return Ok(Some(Manner::At(moment)));
    }
    if let Some(write) = question.strip_prefix("serve to a file that fails at write ") {
        let write = number_of(write.as_bytes())? as u64;
        return Ok(Some(Manner::Fails(write)));
    }
    Ok(match question {
        "serve" => Some(Manner::Ends),
        "serve those who stay" => Some(Manner::Stays),
        "serve behind one who has gone" => Some(Manner::Leaves),
        "serve with an origin that waits" => Some(Manner::Waits),
        "serve from a small cache" => Some(Manner::Small),
        "serve to a longer file" => Some(Manner::Overwrites),
        "serve to a file that another records to" => Some(Manner::Claimed),
        _ => None,
    })
}

/// Writes the answer to a question about links in memory.
fn answer_in_memory(
    alloc: Global,
    question: &str,
    scene: &Scene<'_>,
    out: &mut String,
) -> Result<(), Unanswered> {
    let in_time = Scene { step: 1, ..*scene };
    let trickling = Scene {
        trickles: true,
        ..*scene
    };
    let without_cookies = Scene {
        keeps_cookies: false,
        ..*scene
    };
    match question {
        "order" => say_run(alloc, Told::Calls, scene, None, out),
        "order as time passes" => say_run(alloc, Told::Calls, &in_time, None, out),
        "order without cookies" => say_run(alloc, Told::Calls, &without_cookies, None, out),
        "third call of the client fails" => say_run(alloc, Told::Calls, scene, THIRD, out),
        "read after read" => say_run(alloc, Told::Reads, &trickling, None, out),
        "replies" => say_run(alloc, Told::Octets, scene, None, out),
        "each call of the client fails" => say_failures(alloc, scene, Device::Client, out),
        "each call of an origin fails" => say_failures(alloc, scene, Device::Origin, out),
        "each call of the recorder fails" => say_failures(alloc, scene, Device::Recorder, out),
        "one octet a call" => say_octets(alloc, scene, out),
        "hits" => say_hits(alloc, scene, out),
        _ => Err(Unanswered::Unknown),
    }
}

/// The client's third call.
const THIRD: Option<Fault> = Some(Fault {
    device: Device::Client,
    call: 3,
});
