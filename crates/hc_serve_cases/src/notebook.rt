//! What passed at links in memory, in the order in which it came.

use hc_cases::show_short;
use std::alloc::{AllocError, Global};
use std::cell::{Cell, RefCell};
use std::fmt::Write;

/// Whose link it is.
#[derive(Clone, Copy, PartialEq, Eq)]
pub(crate) enum Device {
    /// The client's.
    Client,
    /// That of a forward to an origin.
    Origin,
    /// The recorder's.
    Recorder,
    /// That of a forward of which nothing is noted.
    Quiet,
}

impl Device {
    /// Its name, and how many words are noted of octets that it moves: of a record its kind, its number and its moment.
    fn name(self) -> (&'static str, u32) {
        match self {
            Device::Client => ("client", 2),
            Device::Origin => ("origin", 2),
            Device::Recorder => ("recorder", 3),
            Device::Quiet => ("", 0),
        }
    }
}

/// The call that is to fail: the how-manieth of that device's links, its reads and writes counted together.
#[derive(Clone, Copy)]
pub(crate) struct Fault {
    pub(crate) device: Device,
    pub(crate) call: u64,
}

/// A notebook that links share. Where memory is refused, something is missing in it.
pub(crate) struct Notebook {
    fault: Option<Fault>,
    /// How many calls of the fault's device there were.
    calls: Cell<u64>,
    /// Whether that call has failed, and none was made since.
    silent: Cell<bool>,
    /// How many reads there were at all links.
    reads: Cell<u64>,
    notes: RefCell<String>,
    /// What was written to origins, all forwards one behind another.
    forwards: RefCell<Vec<u8>>,
}

impl Drop for Notebook {
    fn drop(self) {
        let Notebook {
            fault: _,
            calls: _,
            silent: _,
            reads: _,
            notes,
            forwards,
        } = self;
        drop(notes);
        drop(forwards);
    }
}

impl Notebook {
    /// An empty one, which names the call that is to fail, if one is.
    pub(crate) fn new(alloc: Global, fault: Option<Fault>) -> Self {
        Notebook {
            fault,
            calls: Cell::new(0),
            silent: Cell::new(false),
            reads: Cell::new(0),
            notes: RefCell::new(String::new(alloc)),
            forwards: RefCell::new(Vec::new(alloc)),
        }
    }

    /// Counts a call, and returns whether it fails.
    pub(crate) fn fails(&self, device: Device) -> bool {
        self.silent.set(false);
        match self.fault {
            Some(fault) if fault.device == device => self.fails_at(device, fault.call),
            _ => false,
        }
    }

    fn fails_at(&self, device: Device, call: u64) -> bool {
        self.calls.set(self.calls.get().saturating_add(1));
        if self.calls.get() != call {
            return false;
        }
        self.note(device, "fails", None);
        self.silent.set(true);
        true
    }

    /// Whether the call that is to fail was made.
    pub(crate) fn has_failed(&self) -> bool {
        match self.fault {
            Some(fault) => self.calls.get() >= fault.call,
            None => false,
        }
    }

    /// Whether no call was made behind that one.
    pub(crate) fn is_silent(&self) -> bool {
        self.silent.get()
    }

    /// Counts a read.
    pub(crate) fn count_read(&self) {
        self.reads.set(self.reads.get().saturating_add(1));
    }

    /// How many reads were counted.
    pub(crate) fn reads(&self) -> u64 {
        self.reads.get()
    }

    /// Notes what came of a call: behind all else how many octets were moved, if any can be, and their first words.
    pub(crate) fn note(&self, device: Device, deed: &str, octets: Option<&[u8]>) {
        self.silent.set(false);
        if device == Device::Quiet {
            return;
        }
        if let Ok(mut notes) = self.notes.try_borrow_mut() {
            let _ = say_call(device, deed, octets, &mut notes);
        }
    }

    /// Notes that octets were written to a link.
    pub(crate) fn gets(&self, device: Device, octets: &[u8]) {
        self.note(device, "gets", Some(octets));
        if device != Device::Origin {
            return;
        }
        if let Ok(mut forwards) = self.forwards.try_borrow_mut() {
            let _ = forwards.extend_from_slice(octets);
        }
    }

    /// All notes, the oldest first, and what was written to origins.
    pub(crate) fn contents(self) -> (String, Vec<u8>) {
        let Notebook {
            fault: _,
            calls: _,
            silent: _,
            reads: _,
            notes,
            forwards,
        } = self;
        (notes.into_inner(), forwards.into_inner())
    }
}

/// Writes what came of a call behind what came before.
fn say_call(
    device: Device,
    deed: &str,
    octets: Option<&[u8]>,
    notes: &mut String,
) -> Result<(), AllocError> {
    if !notes.is_empty() {
        notes.push_str(", ")?;
    }
    let (name, words) = device.name();
    write!(notes, "{name} {deed}")?;
    match octets {
        Some(octets) => say_octets(octets, words, notes),
        None => Ok(()),
    }
}

fn say_octets(octets: &[u8], words: u32, notes: &mut String) -> Result<(), AllocError> {
    let count = octets.len();
    write!(notes, " {count}")?;
    if count > 0 {
        notes.push_str(" ")?;
        show_short(first_words(octets, words), notes)?;
    }
    Ok(())
}

/// The most octets of words.
const LONGEST: usize = 16;

/// So many words with which the octets begin.
fn first_words(octets: &[u8], words: u32) -> &[u8] {
    let (front, _) = octets.split_at(octets.len().min(LONGEST));
    let mut spaces = 0u32;
    for (place, octet) in front.iter().enumerate() {
        if *octet == b' ' {
            spaces = spaces.saturating_add(1);
        }
        if spaces == words {
            return &front[..place];
        }
    }
    front
}
