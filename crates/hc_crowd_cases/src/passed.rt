//! What passed at each link, by what happened and by what a cache did.

use crate::by_link::ByLink;
use hc_core::{Action, StepResult};
use hc_crowd_world::has_within;
use hc_framing::MessageText;
use hc_order::Receiver;
use hc_service::{Event, Happening};
use hc_transcript::{Format, append_record};
use std::alloc::{AllocError, Global};

/// What was heard at each link.
pub(crate) fn heard_in(alloc: Global, events: &[Event]) -> Result<ByLink, AllocError> {
    let mut heard = ByLink::new(alloc);
    'events: for event in events {
        hear(&mut heard, &event.of)?;
    }
    Ok(heard)
}

fn hear(heard: &mut ByLink, of: &Happening) -> Result<(), AllocError> {
    match of {
        Happening::ClientBytes(c, octets) => heard.put(Receiver::Client(*c), octets.as_slice()),
        Happening::OriginBytes(f, octets) => heard.put(Receiver::Origin(*f), octets.as_slice()),
        _ => Ok(()),
    }
}

/// What was sent to each link, and the texts of the records.
pub(crate) struct Sent {
    pub(crate) table: ByLink,
    text: Vec<u8>,
    /// Whether a reply says that it was collapsed.
    pub(crate) collapsed: bool,
}

impl Drop for Sent {
    fn drop(self) {
        let Sent {
            table,
            text,
            collapsed: _,
        } = self;
        drop(table);
        drop(text);
    }
}

/// What was sent by the steps whose records all stand within so many octets.
pub(crate) fn sent_in(
    alloc: Global,
    results: &[StepResult],
    kept: usize,
) -> Result<Sent, AllocError> {
    let text = Vec::from_slice(alloc, Format::Second.opening())?;
    let mut sent = Sent {
        table: ByLink::new(alloc),
        text,
        collapsed: false,
    };
    'steps: for result in results {
        if !sent.put_step(result, kept)? {
            break;
        }
    }
    Ok(sent)
}

impl Sent {
    /// Puts in what a step sent, if its records stand within so many octets, and returns whether they do.
    fn put_step(&mut self, step: &StepResult, kept: usize) -> Result<bool, AllocError> {
        let Ok(actions) = step else {
            return Ok(true);
        };
        let actions = actions.as_slice();
        put_records(&mut self.text, actions)?;
        if self.text.len() > kept {
            return Ok(false);
        }
        self.put_texts(actions)?;
        Ok(true)
    }

    fn put_texts(&mut self, actions: &[Action]) -> Result<(), AllocError> {
        'actions: for action in actions {
            match action {
                Action::ToClient(c, text) => self.put_reply(Receiver::Client(*c), text)?,
                Action::Forward(f, text) => self.put_text(Receiver::Origin(*f), text)?,
                _ => {}
            }
        }
        Ok(())
    }

    fn put_reply(&mut self, link: Receiver, text: &MessageText) -> Result<(), AllocError> {
        let (front, _) = text.parts();
        if has_within(front.as_slice(), b";collapsed") {
            self.collapsed = true;
        }
        self.put_text(link, text)
    }

    fn put_text(&mut self, link: Receiver, text: &MessageText) -> Result<(), AllocError> {
        let (front, rest) = text.parts();
        self.table.put(link, front.as_slice())?;
        self.table.put(link, rest.as_slice())
    }
}

fn put_records(text: &mut Vec<u8>, actions: &[Action]) -> Result<(), AllocError> {
    'actions: for action in actions {
        if let Action::Record(record) = action {
            append_record(text, record, Format::Second)?;
        }
    }
    Ok(())
}
