//! What was wrong with what came, and with links, is told, kind by kind.

ghost use Rattle.hc_notices.specs.Voices.{GoesOn};

use hc_crowd::{Counted, Whose};
use hc_head::Target;
use hc_notices::{Notice, Voice, Wrongs};
use hc_shown::push_target;
use std::alloc::{AllocError, Global};
use std::io::Write;

/// So many milliseconds lie between two lines about a kind at least.
const PAUSE: u64 = 1_000;

/// How often a kind was told, and the millisecond before which nothing more is said of it.
#[derive(Clone, Copy)]
struct Spoken {
    count: u64,
    due: u64,
}

/// What was told of each kind, in the order in which kinds came first.
pub(crate) struct SpokenWrongs {
    alloc: Global,
    kinds: Vec<Spoken>,
}

impl Drop for SpokenWrongs {
    fn drop(self) {
        let SpokenWrongs { alloc: _, kinds } = self;
        drop(kinds);
    }
}

impl SpokenWrongs {
    /// Nothing was told.
    pub(crate) fn new(alloc: Global) -> Self {
        SpokenWrongs {
            alloc,
            kinds: Vec::new(alloc),
        }
    }

    /// How often that kind came and wasn't told, if its time has come by that millisecond. Then it counts as told.
    fn take_untold(&mut self, place: usize, count: u64, tick: u64) -> u64 {
        if place >= self.kinds.len() && self.kinds.push(Spoken { count: 0, due: 0 }).is_err() {
            return 0;
        }
        let Some(spoken) = self.kinds.get_mut(place) else {
            return 0;
        };
        if tick < spoken.due {
            return 0;
        }
        let untold = count.saturating_sub(spoken.count);
        if untold > 0 {
            *spoken = Spoken {
                count,
                due: tick.saturating_add(PAUSE),
            };
        }
        untold
    }
}

/// Says of each kind how often it came since it was told last, if its time has come.
pub(crate) fn say_wrongs<E: Write>(
    spoken: &mut SpokenWrongs,
    voice: &mut Voice<'_, E>,
    tick: u64,
    kinds: &[Counted],
)
    ensures { GoesOn E.contents voice.old voice.new }
{
    let mut place = 0;
    'kinds: for kind in kinds {
        let untold = spoken.take_untold(place, kind.count, tick);
        say_wrong(spoken.alloc, voice, untold, kind);
        place = place.saturating_add(1);
    }
}

/// Says that a kind came so often since it was told last, if it did, and where it did last. Where memory is refused for that,
/// nothing is said.
fn say_wrong<E: Write>(alloc: Global, voice: &mut Voice<'_, E>, count: u64, kind: &Counted)
    ensures { GoesOn E.contents voice.old voice.new }
{
    if count == 0 {
        return;
    }
    let Ok(last) = place_of(alloc, kind) else {
        return;
    };
    let wrongs = Wrongs {
        what: kind.trouble.name(),
        count,
        last: last.as_str(),
    };
    match kind.whose {
        Whose::Request => voice.say(Notice::Refused(wrongs)),
        Whose::Response => voice.say(Notice::Failed(wrongs)),
        Whose::Client => voice.say(Notice::CutOff(wrongs)),
    }
}

/// Where it was last: on a connection, or for what was asked for.
fn place_of(alloc: Global, kind: &Counted) -> Result<String, AllocError> {
    match &kind.target {
        Some(target) => for_target(alloc, target),
        None => numbered(alloc, kind),
    }
}

/// The connection, or the forward where what it asks for isn't known.
fn numbered(alloc: Global, kind: &Counted) -> Result<String, AllocError> {
    let number = kind.last;
    match kind.whose {
        Whose::Request => format!(in alloc; "on connection {number}"),
        Whose::Response => format!(in alloc; "for forward {number}"),
        Whose::Client => format!(in alloc; "on connection {number}"),
    }
}

fn for_target(alloc: Global, target: &Target) -> Result<String, AllocError> {
    let mut text = String::new(alloc);
    text.push_str("for ")?;
    push_target(target, &mut text)?;
    Ok(text)
}
