//! Schedules that are written down, a line a thing.

use crate::deeds::{Act, Deed};
use crate::script::{Line, Script};
use crate::words::Words;
use hc_cases::{Unanswered, unescaped};
use hc_crowd::{Limits, Patience};
use hc_order::Receiver;
use std::alloc::Global;

/// The schedule of a text.
///
/// It has a thing a line; empty lines and those that begin with `#` are passed over. Each is something that is set, by name
/// and number, or `at T DEED`, or `forward F after D ACT`, or `again after`, of its second link.
pub fn script_in(alloc: Global, text: &[u8]) -> Result<Script, Unanswered> {
    let mut script = Script::new(alloc, 0, Vec::new(alloc));
    put_text(&mut script, text)?;
    Ok(script)
}

fn put_text(script: &mut Script, text: &[u8]) -> Result<(), Unanswered> {
    let Ok(text) = str::from_utf8(text) else {
        return Err(Unanswered::Unknown);
    };
    let mut settings = Settings {
        list: Vec::new(script.alloc),
    };
    put_lines(script, &mut settings, text)?;
    set(script, &mut settings)
}

fn put_lines<'a>(
    script: &mut Script,
    settings: &mut Settings<'a>,
    text: &'a str,
) -> Result<(), Unanswered> {
    'lines: for line in text.lines() {
        if !line.is_empty() && !line.starts_with('#') {
            put_line(script, settings, Words::of(line))?;
        }
    }
    Ok(())
}

/// Takes a line in.
fn put_line<'a>(
    script: &mut Script,
    settings: &mut Settings<'a>,
    words: Words<'a>,
) -> Result<(), Unanswered> {
    let mut words = words;
    match words.next() {
        "at" => put_cue(script, &mut words),
        "forward" => put_forward(script, &mut words),
        name => settings.put(name, words.number()?),
    }
}

/// What is done at a millisecond.
fn put_cue(script: &mut Script, words: &mut Words<'_>) -> Result<(), Unanswered> {
    let tick = words.number()?;
    let deed = deed_of(script.alloc, words)?;
    Ok(script.cues.put(tick, deed)?)
}

/// What the origin does for a forward.
fn put_forward(script: &mut Script, words: &mut Words<'_>) -> Result<(), Unanswered> {
    let forward = words.number()?;
    let attempt = attempt_of(words)?;
    let delay = words.number()?;
    let line = Line {
        forward,
        attempt,
        delay,
        act: act_of(script.alloc, words)?,
    };
    Ok(script.lines.push(line)?)
}

/// The how-manieth link of a forward it is.
fn attempt_of(words: &mut Words<'_>) -> Result<u32, Unanswered> {
    match words.next() {
        "again" => {
            words.next();
            Ok(1)
        }
        "after" => Ok(0),
        _ => Err(Unanswered::Unknown),
    }
}

/// What is done in the world.
fn deed_of(alloc: Global, words: &mut Words<'_>) -> Result<Deed, Unanswered> {
    match words.next() {
        "client" => client_deed(alloc, words),
        "connect" => Ok(Deed::Connects(1)),
        "connects" => Ok(Deed::Connects(words.number()?)),
        "places" => Ok(Deed::Places(words.number()? as usize)),
        "wall" => Ok(Deed::Wall(Some(words.number()?))),
        "unreadable" => Ok(Deed::Wall(None)),
        "sleep" => Ok(Deed::Sleeps(words.number()?)),
        "stop" => Ok(Deed::Stops),
        _ => Err(Unanswered::Unknown),
    }
}

/// What a client does.
fn client_deed(alloc: Global, words: &mut Words<'_>) -> Result<Deed, Unanswered> {
    let link = Receiver::Client(words.number()?);
    Ok(Deed::Does(link, act_of(alloc, words)?))
}

/// What the other side of a link does.
fn act_of(alloc: Global, words: &mut Words<'_>) -> Result<Act, Unanswered> {
    match words.next() {
        "says" => said(alloc, 1, words.rest()),
        "repeats" => said(alloc, words.number()?, words.rest()),
        "takes" => Ok(Act::Takes(words.number()? as usize)),
        "ends" => Ok(Act::Ends),
        "resets" => Ok(Act::Resets),
        "breaks" => Ok(Act::Breaks),
        "made" => Ok(Act::Made),
        _ => Err(Unanswered::Unknown),
    }
}

/// A text is said so many times.
fn said(alloc: Global, times: u64, text: &str) -> Result<Act, Unanswered> {
    let text = unescaped(alloc, text.as_bytes())?;
    Ok(Act::Says(text.as_slice().repeat(alloc, times as usize)?))
}

/// What is set, by name.
struct Settings<'a> {
    list: Vec<Setting<'a>>,
}

impl<'a> Drop for Settings<'a> {
    fn drop(self) {
        let Settings { list } = self;
        drop(list);
    }
}

#[derive(Clone, Copy)]
struct Setting<'a> {
    name: &'a str,
    value: u64,
}

impl<'a> Settings<'a> {
    fn put(&mut self, name: &'a str, value: u64) -> Result<(), Unanswered> {
        Ok(self.list.push(Setting { name, value })?)
    }

    /// What is set by that name, which is taken out, if anything is.
    fn take(&mut self, name: &str) -> Option<u64> {
        let place = self.list.iter().position(|set| set.name == name)?;
        Some(self.list.remove(place).value)
    }

    /// The same, or what is usual.
    fn number(&mut self, name: &str, usual: u64) -> u64 {
        self.take(name).unwrap_or(usual)
    }

    fn limits(&mut self, usual: Limits) -> Limits {
        Limits {
            connections: self.number("connections", usual.connections as u64) as usize,
            origin_connections: self.number(
                "origin-connections",
                usual.origin_connections as u64,
            ) as usize,
            held: self.number("held", usual.held),
            patience: self.patience(usual.patience),
            queue_timeout: self.number("queue-timeout", usual.queue_timeout),
            connect_timeout: self.number("connect-timeout", usual.connect_timeout),
            abandoned: self.number("abandoned", usual.abandoned),
            drain_timeout: self.number("drain-timeout", usual.drain_timeout),
            clients: self.take("clients"),
        }
    }

    fn patience(&mut self, usual: Patience) -> Patience {
        Patience {
            idle_timeout: self.number("idle-timeout", usual.idle_timeout),
            request_timeout: self.number("request-timeout", usual.request_timeout),
            send_timeout: self.number("send-timeout", usual.send_timeout),
            origin_timeout: self.number("origin-timeout", usual.origin_timeout),
            origin_total: self.number("origin-total", usual.origin_total),
        }
    }
}

/// Sets all that is set. It fails where a name is none that can be.
fn set(script: &mut Script, settings: &mut Settings<'_>) -> Result<(), Unanswered> {
    script.limits = settings.limits(script.limits);
    script.wall = settings.take("wall").or(script.wall);
    script.part = settings.number("part", script.part);
    script.addresses = settings.number("addresses", script.addresses);
    script.writes = settings.number("writes", script.writes);
    script.names = settings.number("names", script.names);
    script.room = settings.number("takes", script.room as u64) as usize;
    script.origin_room = settings.number("origin-takes", script.origin_room as u64) as usize;
    if settings.list.is_empty() {
        Ok(())
    } else {
        Err(Unanswered::Unknown)
    }
}
