//! What a case is about: a client and origins in memory, a new cache, and a clock.

use crate::links::Memory;
use crate::notebook::{Device, Notebook};
use hc_cases::Unanswered;
use hc_core::{Core, CoreFault};
use hc_fields::Octets;
use hc_links::{Clock, LinkFailure, Origins};
use hc_service::{CoreOptions, CoreSettings};
use std::alloc::Global;
use std::cell::Cell;
use std::hash::BuildHasherDefault;

/// The answer of an origin that can't be connected to.
const NONE: &[u8] = b"-";

/// A new cache with those options, which keeps the largest body too; or why there is none.
pub(crate) fn core_with(alloc: Global, options: CoreOptions) -> Result<Core, CoreFault> {
    let settings = CoreSettings {
        name: Octets::from_slice(alloc, b"hcache")?,
        keys: 4,
        bytes: 67_108_864,
    };
    Core::with_options(alloc, settings, BuildHasherDefault::new(), options)
}

/// A new cache, which keeps responses that set a cookie, or doesn't.
pub(crate) fn new_core(alloc: Global, keeps_cookies: bool) -> Result<Core, Unanswered> {
    let options = CoreOptions {
        keeps_cookies,
        ..CoreOptions::usual()
    };
    match core_with(alloc, options) {
        Ok(core) => Ok(core),
        Err(CoreFault::Memory) => Err(Unanswered::Memory),
        Err(_) => Err(Unanswered::Unknown),
    }
}

/// A clock that begins at Thu, 01 Jan 1970 00:16:40 GMT.
#[derive(Drop)]
pub(crate) struct Ticking {
    moment: Cell<u64>,
    /// How many seconds it moves on each time that it is asked.
    step: u64,
}

impl Ticking {
    pub(crate) fn new(step: u64) -> Self {
        Ticking {
            moment: Cell::new(1_000),
            step,
        }
    }
}

impl Clock for Ticking {
    // What a cell holds no clause can know.
    ghost may_tell = { λ _ _. Unit {0} };

    fn now(&self) -> u64 {
        let moment = self.moment.get();
        self.moment.set(moment.saturating_add(self.step));
        moment
    }
}

/// The text of a part.
pub(crate) fn text_of(part: &[u8]) -> Result<&str, Unanswered> {
    match str::from_utf8(part) {
        Ok(text) => Ok(text),
        Err(_) => Err(Unanswered::Unknown),
    }
}

/// The number that a part is.
pub(crate) fn number_of(part: &[u8]) -> Result<usize, Unanswered> {
    match text_of(part)?.parse() {
        Ok(number) => Ok(number),
        Err(_) => Err(Unanswered::Unknown),
    }
}

/// The answer at a place, if an origin can be connected to for it.
pub(crate) fn answer_at(answers: &[Vec<u8>], place: usize) -> Option<&[u8]> {
    let answer = answers.get(place)?.as_slice();
    if answer == NONE {
        return None;
    }
    Some(answer)
}

/// How links move octets, how time passes, what a client sends, and what origins answer.
#[derive(Clone, Copy)]
pub(crate) struct Scene<'a> {
    /// The most octets that a call moves.
    pub(crate) most: usize,
    /// How many seconds pass from one thing that happens to the next.
    pub(crate) step: u64,
    /// Whether origins give and take one octet a call, and nothing of their links is noted.
    pub(crate) trickles: bool,
    /// Whether the cache keeps responses that set a cookie.
    pub(crate) keeps_cookies: bool,
    pub(crate) client: &'a [u8],
    /// The answers of origins, forward by forward.
    pub(crate) answers: &'a [Vec<u8>],
}

impl<'a> Scene<'a> {
    /// The scene of those parts: a number, what the client sends, and the answers. No time passes.
    pub(crate) fn of(parts: &'a [Vec<u8>]) -> Result<Self, Unanswered> {
        let [most, client, answers @ ..] = parts else {
            return Err(Unanswered::Unknown);
        };
        Ok(Scene {
            most: number_of(most.as_slice())?,
            step: 0,
            trickles: false,
            keeps_cookies: true,
            client: client.as_slice(),
            answers,
        })
    }
}

/// Origins in memory, which have an answer for each forward, in order.
#[derive(Clone, Copy)]
pub(crate) struct Site<'a> {
    pub(crate) alloc: Global,
    pub(crate) scene: &'a Scene<'a>,
    pub(crate) notebook: &'a Notebook,
}

impl<'a> Site<'a> {
    /// What the forward is answered, if it can be made.
    fn answer(&self, forward: u64) -> Option<&'a [u8]> {
        let place = forward.checked_sub(1)?;
        answer_at(self.scene.answers, place as usize)
    }
}

impl<'a> Origins for Site<'a> {
    type Link = Memory<'a>;

    fn connect(&self, forward: u64) -> Result<Memory<'a>, LinkFailure> {
        let Some(answer) = self.answer(forward) else {
            self.notebook.note(Device::Origin, "refuses", None);
            return Err(LinkFailure);
        };
        let (device, most) = if self.scene.trickles {
            (Device::Quiet, 1)
        } else {
            (Device::Origin, self.scene.most)
        };
        Ok(Memory::new(self.alloc, device, answer, most, self.notebook))
    }
}
