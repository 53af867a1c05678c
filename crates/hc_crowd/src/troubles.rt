//! What was wrong with what came, and with links, by kind.

use hc_head::Target;
use hc_incoming::Trouble;
use hc_links::Awaiting;
use hc_order::Receiver;
use hc_service::Incident;
use std::alloc::{AllocError, Global};
use std::collections::VecDeque;

/// Of what something was that was wrong.
#[derive(Clone, Copy, PartialEq, Eq)]
pub enum Whose {
    /// A client's request, which was refused.
    Request,
    /// The response to a forward, which failed.
    Response,
    /// A client's link, which was cut off.
    Client,
}

/// How often something was wrong, and where it was last.
pub struct Counted {
    /// Of what it was.
    pub whose: Whose,
    /// What was wrong.
    pub trouble: Trouble,
    /// How often.
    pub count: u64,
    /// The number of the connection, or of the forward, where it was last.
    pub last: u64,
    /// What was asked for there: of a response alone, where there was memory for that.
    pub target: Option<Target>,
}

impl Drop for Counted {
    fn drop(self) {
        let Counted {
            whose: _,
            trouble: _,
            count: _,
            last: _,
            target,
        } = self;
        drop(target);
    }
}

/// What befell a link, and isn't counted yet.
#[derive(Clone, Copy)]
struct Noted {
    link: Receiver,
    trouble: Trouble,
}

/// What was wrong with what came, and with links, by kind. Kinds stand in the order in which they came first.
pub struct Troubles {
    alloc: Global,
    kinds: Vec<Counted>,
    /// What befell links, the first of it first. It is counted once the cache can say what was asked for there.
    noted: VecDeque<Noted>,
}

impl Drop for Troubles {
    fn drop(self) {
        let Troubles {
            alloc: _,
            kinds,
            noted,
        } = self;
        drop(kinds);
        drop(noted);
    }
}

impl Troubles {
    /// Nothing was wrong.
    pub(crate) fn new(alloc: Global) -> Self {
        Troubles {
            alloc,
            kinds: Vec::new(alloc),
            noted: VecDeque::new(alloc),
        }
    }

    /// A link has failed, or is cut off, for that. It is counted before the cache is told. Where memory is refused, it isn't.
    pub(crate) fn note(&mut self, link: Receiver, trouble: Trouble) {
        let _ = self.noted.push_back(Noted { link, trouble });
    }

    /// The link of a forward broke off, or didn't.
    pub(crate) fn note_break(&mut self, forward: u64, broke: bool) {
        if broke {
            self.note(Receiver::Origin(forward), Trouble::Broken);
        }
    }

    /// Counts what was noted of links.
    pub(crate) fn count_noted<A: Awaiting>(&mut self, cache: &A) {
        'noted: for _ in 0..self.noted.len() {
            let Some(noted) = self.noted.pop_front() else {
                return;
            };
            self.count_at(noted, cache);
        }
    }

    /// Counts what befell a link. Of a forward the cache says what was asked for.
    fn count_at<A: Awaiting>(&mut self, noted: Noted, cache: &A) {
        match noted.link {
            Receiver::Client(number) => self.add(Whose::Client, noted.trouble, number, None),
            Receiver::Origin(forward) => {
                let target = asked_of(self.alloc, cache, forward);
                self.add(Whose::Response, noted.trouble, forward, target);
            }
        }
    }

    /// How often each kind came, and where it did last.
    pub fn as_slice(&self) -> &[Counted] {
        self.kinds.as_slice()
    }

    /// Counts what was wrong in a step of the cache. Where memory is refused, it isn't counted.
    pub(crate) fn count_all(&mut self, incidents: &[Incident]) {
        'incidents: for incident in incidents {
            self.count(incident);
        }
    }

    fn count(&mut self, incident: &Incident) {
        match incident {
            Incident::Refused {
                connection,
                trouble,
            } => self.add(Whose::Request, *trouble, *connection, None),
            Incident::Failed {
                forward,
                target,
                trouble,
            } => {
                let target = copy_of(self.alloc, target);
                self.add(Whose::Response, *trouble, *forward, target);
            }
        }
    }

    /// That was wrong once more, there.
    fn add(&mut self, whose: Whose, trouble: Trouble, last: u64, target: Option<Target>) {
        let place = self
            .kinds
            .iter()
            .position(|kind| kind.whose == whose && kind.trouble == trouble);
        match place {
            Some(place) => again(&mut self.kinds[place], last, target),
            None => self.begin(whose, trouble, last, target),
        }
    }

    /// That was wrong for the first time.
    fn begin(&mut self, whose: Whose, trouble: Trouble, last: u64, target: Option<Target>) {
        // Where memory is refused, it is counted from the next time on.
        let _ = self.kinds.push(Counted {
            whose,
            trouble,
            count: 1,
            last,
            target,
        });
    }
}

/// What was counted came once more, there.
fn again(kind: &mut Counted, last: u64, target: Option<Target>) {
    kind.count = kind.count.saturating_add(1);
    kind.last = last;
    kind.target = target;
}

/// What is asked for by a forward, where the cache knows it, and there is memory for a copy.
fn asked_of<A: Awaiting>(alloc: Global, cache: &A, forward: u64) -> Option<Target> {
    match cache.target_of(forward) {
        Some(target) => copy_of(alloc, target),
        None => None,
    }
}

/// What is asked for, where there is memory for a copy.
fn copy_of(alloc: Global, target: &Target) -> Option<Target> {
    match target.copy(alloc) {
        Ok(copy) => Some(copy),
        Err(AllocError) => None,
    }
}
