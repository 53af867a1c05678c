//! Replies, and the lines that tell them.

ghost use Rattle.std.specs.Prelude.{◌≡◌, ◌+◌, ◌-◌, ◌^◌, min};
ghost use Rattle.hc_access.specs.Accounts.{Accounts, DraftsOne, replies_in, reply_in};

use crate::asked::Asked;
use crate::drafts::Draft;
use crate::heads::{first_line, reply_head, sender_in};
use crate::line::{Replied, front_of, push_time};
use crate::lines::Lines;
use crate::visits::{Answered, Visited, Visits};
use hc_framing::MessageText;
use hc_links::Awaiting;
use hc_order::{Occurrence, Receiver};
use hc_service::{Action, Happening, Incident};
use hc_transcript::{Passed, Record};
use memchr::memmem::find;
use std::alloc::{AllocError, Global};
use std::collections::BTreeMap;
use std::mem;

/// So many milliseconds lie between two looks at replies that clients take slowly.
const PAUSE: u64 = 250;

/// The last moment before the year 10000.
const LAST_MOMENT: u64 = 253_402_300_799;

/// Replies, and the lines that tell them: those that aren't written whole yet wait.
pub(crate) struct Replies {
    alloc: Global,
    visits: Visits,
    /// What was asked, by the numbers of the exchanges that are open.
    asked: BTreeMap<u64, Asked>,
    /// What was asked in the exchange of the reply that was recorded last; none behind what was sent since.
    answers: Option<Asked>,
    /// What stands where it isn't known what was asked.
    unknown: Asked,
    /// The moment of what happened last, and its day and time of day.
    moment: u64,
    time: Vec<u8>,
    /// Of replies that were sent since the links were looked at.
    pub(crate) fresh: Vec<Draft>,
    /// Of replies that weren't written whole then.
    pub(crate) slow: Vec<Draft>,
    /// The millisecond from which on these are looked at again.
    due: u64,
    /// How many replies there are for whose lines memory was refused.
    pub(crate) lost: u64,
}

impl Drop for Replies {
    fn drop(self) {
        let Replies {
            alloc: _,
            visits,
            asked,
            answers,
            unknown,
            moment: _,
            time,
            fresh,
            slow,
            due: _,
            lost: _,
        } = self;
        drop(visits);
        drop(asked);
        drop(answers);
        drop(unknown);
        drop(time);
        drop(fresh);
        drop(slow);
    }
}

/// A reply to a client, and what went wrong in the step that gave it.
#[derive(Clone, Copy)]
struct Given<'a> {
    client: u64,
    text: &'a MessageText,
    incidents: &'a [Incident],
}

impl Replies {
    /// Nothing was asked or replied yet.
    pub(crate) fn new(alloc: Global) -> Result<Self, AllocError> {
        Ok(Replies {
            alloc,
            visits: Visits::new(alloc),
            asked: BTreeMap::new(alloc),
            answers: None,
            unknown: Asked::new(alloc, b"", b"", b"")?,
            moment: 0,
            time: Vec::new(alloc),
            fresh: Vec::new(alloc),
            slow: Vec::new(alloc),
            due: 0,
            lost: 0,
        })
    }

    /// Takes in that something happens.
    pub(crate) fn hear<V: Visited>(&mut self, links: &V, occurrence: &Occurrence) {
        self.pass_to(occurrence.event.moment);
        match &occurrence.event.of {
            Happening::ClientOpened(client) => self.visits.open(*client, links),
            Happening::ClientBytes(client, _) => self.visits.hear(*client, links.tick()),
            Happening::ClientEnd(_) => {}
            Happening::OriginBytes(_, _) => {}
            Happening::OriginEnd(_) => {}
            Happening::OriginFailed(_) => {}
            Happening::Stopping => {}
        }
    }

    /// It is that moment.
    fn pass_to(&mut self, moment: u64) {
        if moment == self.moment && !self.time.is_empty() {
            return;
        }
        self.moment = moment;
        self.time.clear();
        // Where memory is refused, the line tells a part of the time, or a hyphen.
        let _ = push_time(moment.min(LAST_MOMENT), &mut self.time);
    }

    /// Takes in what the cache did by that: a line is drafted for each reply, or it is lost.
    pub(crate) fn see<A: Awaiting>(&mut self, cache: &A, actions: &[Action], tick: u64)
        ensures { Accounts (replies_in actions.now) self.old self.new }
    {
        'actions: for action in actions {
            self.note(cache, action, tick);
        }
    }

    /// Takes in one action.
    fn note<A: Awaiting>(&mut self, cache: &A, action: &Action, tick: u64)
        ensures { Accounts (reply_in «action».now) self.old self.new }
    {
        match action {
            Action::ToClient(client, text) => {
                let comes = cache.held(Receiver::Client(*client)) > 0;
                let reply = Given {
                    client: *client,
                    text,
                    incidents: cache.incidents(),
                };
                self.answer(reply, comes, tick);
            }
            Action::CloseClient(client) => self.visits.close(*client),
            Action::Forward(_, _) => {}
            Action::CloseForward(_) => {}
            Action::Record(record) => self.note_record(record),
        }
    }

    /// Takes in a record: what was asked stands until that is answered.
    fn note_record(&mut self, given: &Record)
        ensures { (self.new.fresh ≡ self.old.fresh) × (self.new.lost ≡ self.old.lost) }
    {
        match &given.of {
            Passed::ClientRequest(message) => {
                if let Ok(asked) = asked_of(self.alloc, message) {
                    let _ = self.asked.insert(given.number, asked);
                }
            }
            Passed::ClientReply(_) => self.answers = self.asked.remove(&given.number),
            Passed::OriginRequest { .. } => {}
            Passed::OriginResponse(_) => {}
            Passed::OriginFailure => {}
        }
    }

    /// A reply was sent to a client.
    fn answer(&mut self, reply: Given<'_>, comes: bool, tick: u64)
        ensures { DraftsOne self.old self.new }
    {
        let octets = reply.text.len() as u64;
        let answered = self.visits.answer(reply.client, octets, comes, tick);
        let drafted = self.drafted(reply, answered);
        self.answers = None;
        self.keep(drafted);
    }

    /// The line of a reply to a client, of which the request isn't known where it has no record.
    fn drafted(&self, reply: Given<'_>, answered: Answered) -> Result<Draft, AllocError> {
        let asked = match &self.answers {
            Some(asked) => asked,
            None => &self.unknown,
        };
        let front = front_of(
            self.alloc,
            self.visits.address(reply.client),
            self.time.as_slice(),
            asked,
            replied_by(reply, self.answers.is_some()),
        )?;
        Ok(Draft {
            client: reply.client,
            end: answered.end,
            begun: answered.begun,
            front,
        })
    }

    /// Keeps a line, or counts it as lost.
    fn keep(&mut self, drafted: Result<Draft, AllocError>)
        ensures { DraftsOne self.old self.new }
    {
        let Ok(draft) = drafted else {
            self.lose();
            return;
        };
        if self.fresh.push(draft).is_err() {
            self.lose();
        }
    }

    /// One line more is lost.
    fn lose(&mut self)
        ensures { self.new ≡ record self.old { lost = min (self.old.lost + 1) (2 ^ 64 - 1) } }
    {
        self.lost = self.lost.saturating_add(1);
    }

    /// A client was turned away who has that address.
    pub(crate) fn turn_away(&mut self, address: &[u8], lines: &mut Lines) {
        if self.refused(address, lines).is_err() {
            self.lose();
        }
    }

    /// Adds the line of a client who was turned away.
    fn refused(&self, address: &[u8], lines: &mut Lines) -> Result<(), AllocError> {
        let replied = Replied {
            status: b"503",
            size: 0,
            mark: b"",
            trouble: b"all places were taken",
        };
        let time = self.time.as_slice();
        let front = front_of(self.alloc, address, time, &self.unknown, replied)?;
        lines.add(front, 0)
    }

    /// Nothing more happens: the lines of all replies are added.
    pub(crate) fn finish(&mut self, tick: u64, lines: &mut Lines) {
        let fresh = mem::replace(&mut self.fresh, Vec::new(self.alloc));
        self.end_all(fresh, tick, lines);
        let slow = mem::replace(&mut self.slow, Vec::new(self.alloc));
        self.end_all(slow, tick, lines);
    }

    /// Adds the lines of those replies.
    fn end_all(&mut self, drafts: Vec<Draft>, tick: u64, lines: &mut Lines) {
        'drafts: for draft in drafts {
            if draft.end_at(tick, lines).is_err() {
                self.lose();
            }
        }
    }

    /// Adds the lines of replies that clients have taken.
    pub(crate) fn look<V: Visited>(&mut self, links: &V, lines: &mut Lines) {
        let fresh = mem::replace(&mut self.fresh, Vec::new(self.alloc));
        self.end_written(fresh, links, lines);
        if links.tick() < self.due {
            return;
        }
        self.due = links.tick().saturating_add(PAUSE);
        let slow = mem::replace(&mut self.slow, Vec::new(self.alloc));
        self.end_written(slow, links, lines);
        self.visits.let_go(links);
    }

    /// Adds the lines of those replies that clients have taken, and keeps the others.
    fn end_written<V: Visited>(&mut self, drafts: Vec<Draft>, links: &V, lines: &mut Lines) {
        'drafts: for draft in drafts {
            self.end_or_keep(draft, links, lines);
        }
    }

    /// Adds the line of a reply if the client has taken it, and keeps it else.
    fn end_or_keep<V: Visited>(&mut self, draft: Draft, links: &V, lines: &mut Lines) {
        let done = if self.visits.has_taken(draft.client, draft.end, links) {
            draft.end_at(links.tick(), lines).is_ok()
        } else {
            self.slow.push(draft).is_ok()
        };
        if !done {
            self.lose();
        }
    }
}

/// What was asked by a request, as it is recorded.
fn asked_of(alloc: Global, message: &MessageText) -> Result<Asked, AllocError> {
    let (front, _) = message.parts();
    let head = front.as_slice();
    let sender = sender_in(head);
    Asked::new(alloc, first_line(head), sender.referer, sender.agent)
}

/// What a reply tells, and why. Its request has a record, or hasn't.
fn replied_by<'a>(reply: Given<'a>, is_recorded: bool) -> Replied<'a> {
    let (front, _) = reply.text.parts();
    let head = reply_head(front.as_slice());
    let trouble: &'static [u8] = if !is_recorded {
        refused_for(reply.incidents, reply.client)
    } else if is_own(head.status, head.mark) {
        failed_for(reply.incidents)
    } else {
        b""
    };
    Replied {
        status: head.status,
        size: reply.text.len().saturating_sub(head.len) as u64,
        mark: head.mark,
        trouble,
    }
}

/// Whether a reply may be the cache's own, since no response came that could be given on: it is a server's error (RFC 9110
/// section 15.6) and no hit.
fn is_own(status: &[u8], mark: &[u8]) -> bool {
    status.starts_with(b"5") && find(mark, b";hit").is_none()
}

/// Why the request of a client was refused in the last step; empty where none was. A request that is refused has no record.
fn refused_for(incidents: &[Incident], client: u64) -> &'static [u8] {
    for incident in incidents {
        match incident {
            Incident::Refused {
                connection,
                trouble,
            } if *connection == client => return trouble.name().as_bytes(),
            Incident::Refused { .. } => {}
            Incident::Failed { .. } => {}
        }
    }
    b""
}

/// Why the forward failed that ended in the last step; empty where none did. One ends there at most, so what is replied to
/// because of it is replied to for that.
fn failed_for(incidents: &[Incident]) -> &'static [u8] {
    for incident in incidents {
        match incident {
            Incident::Refused { .. } => {}
            Incident::Failed { trouble, .. } => return trouble.name().as_bytes(),
        }
    }
    b""
}
