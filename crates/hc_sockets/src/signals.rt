//! Signals that ask the program to stop.

ghost use Rattle.std.specs.Prelude.{◌≡◌, ◌==◌, ◌^◌, ◌<◌, ◌≤◌, not, true, bit_and, length, IfOk};
ghost use Rattle.std.specs.Option.{SomeIff};
ghost use Rattle.std.specs.Str.{trim};
ghost use Rattle.std.specs.Str.Parse.{IsNumeral, digits_value, without_leading_plus};

use crate::process::{behind_name, fill};
use std::alloc::Global;
use std::fs::File;
use std::io;
use std::io::{Read, Seek};
use std::rt::Files;

/// Where the system tells which signals are blocked, and which are pending.
const STATUS: &str = "/proc/self/status";

/// So many octets of that are read at most.
const MOST: usize = 16_384;

/// SIGINT and SIGTERM, each a bit of a mask of signals.
const STOPS: u64 = 0x4002;

/// So many milliseconds pass at least until the system is asked again.
const INTERVAL: u64 = 250;

/// Which signals are blocked, and which are pending.
#[derive(Clone, Copy)]
struct Masks {
    blocked: u64,
    /// Pending for the thread, or for the whole process.
    pending: u64,
}

impl Masks {
    /// Whether one is pending that asks to stop.
    fn ask_to_stop(self) -> bool
        ensures { result ≡ not (bit_and self.pending 0x4002 == 0) }
    {
        self.pending & STOPS != 0
    }

    /// Whether each that asks to stop is blocked, and so stays pending.
    fn block_stops(self) -> bool
        ensures { result ≡ (bit_and self.blocked 0x4002 == 0x4002) }
    {
        self.blocked & STOPS == STOPS
    }
}

/// What is known of signals that ask the program to stop. They have to be blocked: one that isn't ends the program.
pub(crate) struct Signals<F: Read + Seek> {
    status: F,
    text: Vec<u8>,
    /// Whether both were blocked at the start.
    heard: bool,
    /// Whether one came.
    came: bool,
    /// The millisecond from which on the system is asked again.
    due: u64,
}

impl<F: Read + Seek + Drop> Drop for Signals<F> {
    fn drop(self) {
        let Signals {
            status,
            text,
            heard: _,
            came: _,
            due: _,
        } = self;
        drop(status);
        drop(text);
    }
}

impl<F: Read + Seek + Drop> Signals<F> {
    /// Opens what the system tells, and asks it for the first time. It fails where the system doesn't tell.
    pub(crate) fn new<R: Files<File = F>>(rt: &R, alloc: Global) -> io::Result<Self> {
        let mut signals = Signals {
            text: Vec::from_elem(alloc, 0, MOST)?,
            status: File::open(rt, STATUS)?,
            heard: false,
            came: false,
            due: 0,
        };
        signals.heard = signals.masks()?.block_stops();
        Ok(signals)
    }

    /// Whether signals that ask the program to stop can be seen.
    pub(crate) fn are_heard(&self) -> bool
        ensures { result ≡ self.now.heard }
    {
        self.heard
    }

    /// Whether such a signal came, as far as it is known at that millisecond. Once one came, it did for ever.
    pub(crate) fn have_come(&mut self, tick: u64) -> bool
        ensures told { result ≡ self.new.came }
        ensures stays { self.old.came ≡ true → result ≡ true }
    {
        if self.came {
            return true;
        }
        if tick < self.due {
            return false;
        }
        self.due = tick.saturating_add(INTERVAL);
        if let Ok(masks) = self.masks() {
            self.came = masks.ask_to_stop();
        }
        self.came
    }

    /// What the system tells now.
    fn masks(&mut self) -> io::Result<Masks>
        ensures { self.new.came ≡ self.old.came }
    {
        let count = read_anew(&mut self.status, self.text.as_mut_slice())?;
        match masks_of(&self.text.as_slice()[..count]) {
            Some(masks) => Ok(masks),
            None => Err(io::Error::other("it tells of no signals")),
        }
    }
}

/// Reads a file from its beginning.
fn read_anew<F: Read + Seek>(file: &mut F, buffer: &mut [u8]) -> io::Result<usize>
    ensures { IfOk result (λ count. count ≤ length buffer.new) }
{
    file.rewind()?;
    fill(file, buffer)
}

/// The masks of a text that tells them.
fn masks_of(text: &[u8]) -> Option<Masks> {
    let blocked = mask_behind(text, "SigBlk:")?;
    let thread = mask_behind(text, "SigPnd:")?;
    let process = mask_behind(text, "ShdPnd:")?;
    Some(Masks {
        blocked,
        pending: thread | process,
    })
}

/// The mask that a text tells behind that name.
fn mask_behind(text: &[u8], name: &str) -> Option<u64> {
    mask_of(behind_name(text, name)?)
}

/// The mask that hexadecimal digits tell, with blanks around them.
fn mask_of(digits: &str) -> Option<u64>
    ensures { SomeIff result (IsNumeral 16 (without_leading_plus (trim digits.now)) × (digits_value 16 (without_leading_plus (trim digits.now)) < 2 ^ 64))
        (digits_value 16 (without_leading_plus (trim digits.now))) }
{
    u64::from_str_radix(digits.trim(), 16).ok()
}
