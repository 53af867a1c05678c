//! The command `split`: a recording in a file, and its parts in a folder.

ghost use Rattle.std.specs.Prelude.{◌≡◌, ◌⊎◌, ◌<◌};
ghost use Rattle.std.specs.Io.KnownBytes.{Keeps};
ghost use Rattle.hc_parting.specs.Ends.{EndsSplit};

use crate::filling::{Stop, chosen, fill};
use crate::folder::{PART, Place, TABLE, manifest_name, name_in, place_of};
use crate::manifest::{head_line, put_entry};
use hc_auditing::{Trouble, opened, printed, said};
use hc_history::Verdict;
use hc_split::{Extent, Families, Outlet, Parts, SplitFault};
use hc_transcript::{Format, RecordFault};
use std::alloc::{AllocError, Global};
use std::fs::File;
use std::io::{BufWriter, Write};
use std::rt::Files;
use std::{fs, io};

/// What is split, into how many parts, and where they go.
#[derive(Clone, Copy)]
pub struct SplitOrder<'a> {
    /// The recording, a regular file.
    pub file: &'a str,
    /// How many parts there are to be, from 1 to 500.
    pub parts: u64,
    /// The folder of the parts, which is made, or has no file yet.
    pub dir: &'a str,
}

// Why a recording isn't split.
#[derive(Clone, Copy)]
enum Unsplit {
    // It is malformed at that position, by that fault.
    Malformed(u64, RecordFault),
    // It isn't read twice, as a pipe.
    Pipe,
    // The folder has files, or is none.
    Taken,
    // The recording can't be read, or memory was refused.
    Input(Trouble),
    // The parts can't be written.
    Output(io::Error),
}

impl From<AllocError> for Unsplit {
    fn from(_error: AllocError) -> Unsplit {
        Unsplit::Input(Trouble::Memory)
    }
}

/// Splits the recording as is asked, and returns the exit status: 0, or 2 where it is malformed, as a line on the output
/// says, or 64 where it isn't read twice or the folder has files, or 3 where it couldn't be done; a line on `faults` says
/// why.
pub fn split<R, W: Write, E: Write>(
    rt: &R,
    order: SplitOrder<'_>,
    output: &mut W,
    faults: &mut E,
) -> u8
where
    R: Files + AllocGlobal,
    requires { 0 < order.parts }
    ensures { EndsSplit result (W.contents output.old) (W.contents output.new) }
{
    match done(rt, order) {
        Ok(()) => 0,
        Err(Unsplit::Malformed(position, fault)) => {
            malformed(rt.alloc(), position, fault, output, faults)
        }
        Err(Unsplit::Pipe) => refused(
            "it is read twice, so it can't be a pipe or a device",
            faults,
        ),
        Err(Unsplit::Taken) => refused("the folder of the parts isn't empty", faults),
        Err(Unsplit::Input(trouble)) => trouble.told(order.file, faults),
        Err(Unsplit::Output(error)) => Trouble::Device(error).told(order.dir, faults),
    }
}

// Says where the recording is malformed, and returns the exit status.
fn malformed<W: Write, E: Write>(
    alloc: Global,
    position: u64,
    fault: RecordFault,
    output: &mut W,
    faults: &mut E,
) -> u8
    ensures { EndsSplit result (W.contents output.old) (W.contents output.new) }
{
    match said(alloc, &Verdict::Malformed(position, fault), output) {
        Ok(status) => status,
        Err(trouble) => trouble.told("", faults),
    }
}

// Says why nothing is done, and returns the exit status.
fn refused<E: Write>(why: &str, faults: &mut E) -> u8
    ensures { result ≡ 64 }
{
    let _ = writeln!(faults, "error: {why}");
    let _ = faults.flush();
    64
}

fn done<R: Files + AllocGlobal>(rt: &R, order: SplitOrder<'_>) -> Result<(), Unsplit>
    requires { 0 < order.parts }
{
    let place = free_place(rt, order)?;
    let (format, parts) = parts_of(rt, order)?;
    written(rt, order, place, parts, format)
}

// Writes the parts, and what they are.
fn written<R: Files + AllocGlobal>(
    rt: &R,
    order: SplitOrder<'_>,
    place: Place,
    parts: Parts,
    format: Format,
) -> Result<(), Unsplit> {
    let mut outlets = outlets_in(rt, order, place, format)?;
    filled(rt, order, parts, format, &mut outlets)?;
    noted(rt, order, outlets)
}

// What stands where the parts go, where they can go there, and the recording can be read twice.
fn free_place<R: Files + AllocGlobal>(rt: &R, order: SplitOrder<'_>) -> Result<Place, Unsplit> {
    match fs::metadata(rt, order.file) {
        Ok(found) if found.is_file() || found.is_dir() => {}
        Ok(_) => return Err(Unsplit::Pipe),
        Err(error) => return Err(Unsplit::Input(Trouble::Device(error))),
    }
    match place_of(rt, order.dir) {
        Ok(Place::Taken) => Err(Unsplit::Taken),
        Ok(place) => Ok(place),
        Err(error) => Err(Unsplit::Output(error)),
    }
}

// The format of the recording, and the part of each of its targets.
fn parts_of<R: Files + AllocGlobal>(
    rt: &R,
    order: SplitOrder<'_>,
) -> Result<(Format, Parts), Unsplit>
    requires { 0 < order.parts }
{
    let mut input = match opened(rt, order.file) {
        Ok(input) => input,
        Err(error) => return Err(Unsplit::Input(Trouble::Device(error))),
    };
    match chosen(rt.alloc(), &mut input) {
        Ok((format, families)) => parted(format, families, order),
        Err(Stop::Trouble(trouble)) => Err(Unsplit::Input(trouble)),
        Err(Stop::Fault(fault)) => Err(unsplit_by(fault)),
    }
}

fn parted(
    format: Format,
    families: Families,
    order: SplitOrder<'_>,
) -> Result<(Format, Parts), Unsplit>
    requires { 0 < order.parts }
{
    let parts = families.parted(order.parts as usize)?;
    Ok((format, parts))
}

// Why a recording isn't split, in which that was met.
fn unsplit_by(fault: SplitFault) -> Unsplit {
    match fault {
        SplitFault::Broken(position, fault) => Unsplit::Malformed(position, fault),
        SplitFault::Changed => {
            Unsplit::Input(Trouble::Device(io::Error::other("it changed while it was split")))
        }
        SplitFault::Memory => Unsplit::Input(Trouble::Memory),
        SplitFault::Output(error) => Unsplit::Output(error),
    }
}

// Where each part goes: files that are new.
fn outlets_in<R: Files + AllocGlobal>(
    rt: &R,
    order: SplitOrder<'_>,
    place: Place,
    format: Format,
) -> Result<Vec<Outlet<BufWriter<R::File>>>, Unsplit> {
    if place == Place::Free {
        fs::create_dir(rt, order.dir).map_err(Unsplit::Output)?;
    }
    let mut outlets = Vec::new(rt.alloc());
    for number in 1..=order.parts as usize {
        put_outlet(rt, order.dir, number, format, &mut outlets)?;
    }
    Ok(outlets)
}

fn put_outlet<R: Files + AllocGlobal>(
    rt: &R,
    dir: &str,
    number: usize,
    format: Format,
    outlets: &mut Vec<Outlet<BufWriter<R::File>>>,
) -> Result<(), Unsplit> {
    let text = new_file(rt, dir, number, PART)?;
    let table = new_file(rt, dir, number, TABLE)?;
    match Outlet::new(format, text, table) {
        Ok(outlet) => match outlets.push(outlet) {
            Ok(()) => Ok(()),
            Err(_) => Err(Unsplit::Input(Trouble::Memory)),
        },
        Err(error) => Err(Unsplit::Output(error)),
    }
}

// A file of the part of that number that is made, which wasn't there, behind a buffer.
fn new_file<R: Files + AllocGlobal>(
    rt: &R,
    dir: &str,
    number: usize,
    ending: &str,
) -> Result<BufWriter<R::File>, Unsplit> {
    let name = name_in(rt.alloc(), dir, number, ending)?;
    match File::create_new(rt, name.as_str()) {
        Ok(file) => BufWriter::new(rt.alloc(), file).map_err(Unsplit::Output),
        Err(error) => Err(Unsplit::Output(error)),
    }
}

// Puts the records into their parts.
fn filled<R: Files + AllocGlobal>(
    rt: &R,
    order: SplitOrder<'_>,
    parts: Parts,
    format: Format,
    outlets: &mut Vec<Outlet<BufWriter<R::File>>>,
) -> Result<(), Unsplit> {
    let mut input = match opened(rt, order.file) {
        Ok(input) => input,
        Err(error) => return Err(Unsplit::Input(Trouble::Device(error))),
    };
    match fill(rt.alloc(), parts, format, &mut input, outlets) {
        Ok(()) => Ok(()),
        Err(SplitFault::Broken(_, _)) => Err(unsplit_by(SplitFault::Changed)),
        Err(fault) => Err(unsplit_by(fault)),
    }
}

// Writes what the parts are, once they are whole.
fn noted<R: Files + AllocGlobal>(
    rt: &R,
    order: SplitOrder<'_>,
    outlets: Vec<Outlet<BufWriter<R::File>>>,
) -> Result<(), Unsplit> {
    let text = manifest_of(rt.alloc(), outlets)?;
    let mut file = manifest_in(rt, order.dir)?;
    printed(text.as_str(), &mut file).map_err(Unsplit::Output)
}

// The file that says what the parts are, which is made.
fn manifest_in<R: Files + AllocGlobal>(rt: &R, dir: &str) -> Result<R::File, Unsplit> {
    let name = manifest_name(rt.alloc(), dir)?;
    File::create_new(rt, name.as_str()).map_err(Unsplit::Output)
}

// The text that says what the parts are, which are closed.
fn manifest_of<W: Write + Drop>(alloc: Global, outlets: Vec<Outlet<W>>) -> Result<String, Unsplit> {
    let parts = outlets.len();
    let mut entries = String::new(alloc);
    let records = put_entries(outlets, &mut entries)?;
    let mut text = head_line(alloc, parts, records)?;
    text.push_str(entries.as_str())?;
    Ok(text)
}

// Puts the line of each part behind a text, and returns how many records all of them have.
fn put_entries<W: Write + Drop>(
    outlets: Vec<Outlet<W>>,
    text: &mut String,
) -> Result<u64, Unsplit> {
    let mut records = 0u64;
    let mut number = 0usize;
    for outlet in outlets {
        number = number.saturating_add(1);
        let extent = extent_of(outlet)?;
        records = records.saturating_add(extent.records);
        put_entry(number, &extent, text)?;
    }
    Ok(records)
}

// What a part has, which is closed.
fn extent_of<W: Write + Drop>(outlet: Outlet<W>) -> Result<Extent, Unsplit> {
    match outlet.close() {
        Ok(tally) => Ok(tally.extent()),
        Err(error) => Err(Unsplit::Output(error)),
    }
}
