//! The command `join`: the verdicts on the parts of a recording, as one.

ghost use Rattle.std.specs.Prelude.{◌≡◌};
ghost use Rattle.hc_parting.specs.Ends.{EndsJoin};

use crate::folder::{PART, TABLE, VERDICT, manifest_name, name_in};
use crate::manifest::{entries_of, is_entry, lines_told, split_line};
use crate::verdicts::verdict_said;
use hc_auditing::{Fed, Trouble, all_of, buffer, ended, opened, pull, said};
use hc_history::Verdict;
use hc_options::Minimums;
use hc_split::{Extent, Joined, Tally, Told, told};
use std::alloc::Global;
use std::fmt::Display;
use std::io::{ErrorKind, Read, Write};
use std::rt::Files;

/// Joins the verdicts on the parts in that folder, says the verdict on the whole on the output, and returns the exit status
/// of an audit: 0, 1, or 4 where too few replies were judged. Where there is no verdict it is 3, and lines on `faults` say
/// of which parts there is none; where the folder has no split it is 64.
pub fn join<R, W: Write, E: Write>(
    rt: &R,
    dir: &str,
    least: Minimums,
    output: &mut W,
    faults: &mut E,
) -> u8
where
    R: Files + AllocGlobal,
    ensures { EndsJoin least result (W.contents output.old) (W.contents output.new) }
{
    match manifest_in(rt, dir) {
        Ok(Some(manifest)) => join_by(rt, dir, manifest.as_slice(), least, output, faults),
        Ok(None) => no_split(dir, faults),
        Err(trouble) => trouble.told(dir, faults),
    }
}

// The manifest of the parts in a folder; none where no part is told.
fn manifest_in<R: Files + AllocGlobal>(rt: &R, dir: &str) -> Result<Option<Vec<u8>>, Trouble> {
    let name = manifest_name(rt.alloc(), dir)?;
    let mut file = match opened(rt, name.as_str()) {
        Ok(file) => file,
        Err(error) if is_lacking(error.kind()) => return Ok(None),
        Err(error) => return Err(Trouble::Device(error)),
    };
    let text = all_of(rt.alloc(), &mut file)?;
    Ok(Some(text))
}

fn is_lacking(kind: ErrorKind) -> bool {
    kind == ErrorKind::NotFound || kind == ErrorKind::NotADirectory
}

// Says that a folder has no split, and returns the exit status.
fn no_split<E: Write>(dir: &str, faults: &mut E) -> u8
    ensures { result ≡ 64 }
{
    let _ = writeln!(faults, "error: {dir} has no manifest of a split");
    let _ = faults.flush();
    64
}

// Joins the verdicts on the parts of that manifest.
fn join_by<R, W: Write, E: Write>(
    rt: &R,
    dir: &str,
    manifest: &[u8],
    least: Minimums,
    output: &mut W,
    faults: &mut E,
) -> u8
where
    R: Files + AllocGlobal,
    ensures { EndsJoin least result (W.contents output.old) (W.contents output.new) }
{
    let alloc = rt.alloc();
    match all_told(rt, dir, manifest, faults) {
        Ok(Some(all)) => concluded(alloc, all.as_slice(), least, output, faults),
        Ok(None) => no_split(dir, faults),
        Err(trouble) => trouble.told(dir, faults),
    }
}

// What is told of each part of a manifest; none where it is no manifest.
fn all_told<R: Files + AllocGlobal, E: Write>(
    rt: &R,
    dir: &str,
    manifest: &[u8],
    faults: &mut E,
) -> Result<Option<Vec<Told>>, Trouble> {
    let Some(entries) = entries_of(rt.alloc(), manifest)? else {
        return Ok(None);
    };
    let mut all = Vec::new(rt.alloc());
    put_told(rt, dir, entries, &mut all, faults)?;
    Ok(Some(all))
}

// Puts what is told of each of those parts behind what stands there.
fn put_told<R: Files + AllocGlobal, E: Write>(
    rt: &R,
    dir: &str,
    entries: &[u8],
    all: &mut Vec<Told>,
    faults: &mut E,
) -> Result<(), Trouble> {
    let mut rest = entries;
    for number in 1..=lines_told(entries).lines {
        if let Some((line, behind)) = split_line(rest) {
            let tells = part_told(rt, ListedPart { dir, number, line }, faults)?;
            if all.push(tells).is_err() {
                return Err(Trouble::Memory);
            }
            rest = behind;
        }
    }
    Ok(())
}

// A part, as the manifest lists it.
#[derive(Clone, Copy)]
struct ListedPart<'a> {
    // The folder in which its files are.
    dir: &'a str,
    // Its number, from 1 on.
    number: usize,
    // The line that describes it.
    line: &'a [u8],
}

// What is told of that part.
fn part_told<R: Files + AllocGlobal, E: Write>(
    rt: &R,
    part: ListedPart<'_>,
    faults: &mut E,
) -> Result<Told, Trouble> {
    let name = name_in(rt.alloc(), part.dir, part.number, PART)?;
    match part_seen(rt, part.dir, part.number, name.as_str()) {
        Ok(seen) => told_of(rt, part, name.as_str(), &seen, faults),
        Err(trouble) => untold_by(trouble, name.as_str(), faults),
    }
}

// The same of a part that was seen.
fn told_of<R: Files + AllocGlobal, E: Write>(
    rt: &R,
    part: ListedPart<'_>,
    name: &str,
    seen: &Seen,
    faults: &mut E,
) -> Result<Told, Trouble> {
    let ListedPart { dir, number, line } = part;
    if !is_entry(rt.alloc(), number, &seen.extent, line)? {
        let why = "it, or its table, isn't as it was split";
        return Ok(untold(name, why, faults));
    }
    let name = name_in(rt.alloc(), dir, number, VERDICT)?;
    told_by(rt, name.as_str(), seen, faults)
}

// What the file of that name tells of a part.
fn told_by<R: Files + AllocGlobal, E: Write>(
    rt: &R,
    name: &str,
    seen: &Seen,
    faults: &mut E,
) -> Result<Told, Trouble> {
    match octets_in(rt, name) {
        Ok(text) => told_in(rt.alloc(), text.as_slice(), name, seen, faults),
        Err(trouble) => untold_by(trouble, name, faults),
    }
}

// What that text, which the file of that name has, tells of a part.
fn told_in<E: Write>(
    alloc: Global,
    text: &[u8],
    name: &str,
    seen: &Seen,
    faults: &mut E,
) -> Result<Told, Trouble> {
    let Some(verdict) = verdict_said(alloc, text)? else {
        let why = "it isn't the line of a yes or a no";
        return Ok(untold(name, why, faults));
    };
    let tells = told(&verdict, seen.table.as_slice());
    if !fits(&tells, &seen.extent) {
        let why = "it is the verdict on another recording";
        return Ok(untold(name, why, faults));
    }
    Ok(tells)
}

// What is told of a part whose file of that name can't be read: nothing, unless memory was refused.
fn untold_by<E: Write>(trouble: Trouble, name: &str, faults: &mut E) -> Result<Told, Trouble> {
    match trouble {
        Trouble::Memory => Err(Trouble::Memory),
        Trouble::Device(error) => Ok(untold(name, error, faults)),
        Trouble::Output(error) => Ok(untold(name, error, faults)),
    }
}

// Whether that may be told of a part that has so much.
fn fits(tells: &Told, extent: &Extent) -> bool {
    match tells {
        Told::Right(counts) => counts.records == extent.records,
        Told::Wrong(_, _) => true,
        Told::Nothing => false,
    }
}

// Says why nothing is told of a part.
fn untold<D: Display + Drop, E: Write>(name: &str, why: D, faults: &mut E) -> Told {
    let _ = writeln!(faults, "{name}: {why}");
    let _ = faults.flush();
    Told::Nothing
}

// The octets of the file of that name.
fn octets_in<R: Files + AllocGlobal>(rt: &R, name: &str) -> Result<Vec<u8>, Trouble> {
    match opened(rt, name) {
        Ok(mut file) => all_of(rt.alloc(), &mut file),
        Err(error) => Err(Trouble::Device(error)),
    }
}

// What a part has, and its table.
struct Seen {
    extent: Extent,
    table: Vec<u8>,
}

impl Drop for Seen {
    fn drop(self) {
        let Seen { extent: _, table } = self;
        drop(table);
    }
}

// What the part of that number, whose octets the file of that name has, has.
fn part_seen<R: Files + AllocGlobal>(
    rt: &R,
    dir: &str,
    number: usize,
    name: &str,
) -> Result<Seen, Trouble> {
    let table = table_of(rt, dir, number)?;
    let extent = extent_of(rt, name, table.as_slice())?;
    Ok(Seen { extent, table })
}

// The table of the part of that number.
fn table_of<R: Files + AllocGlobal>(rt: &R, dir: &str, number: usize) -> Result<Vec<u8>, Trouble> {
    let name = name_in(rt.alloc(), dir, number, TABLE)?;
    octets_in(rt, name.as_str())
}

// What a part of that table has, whose octets the file of that name has.
fn extent_of<R: Files + AllocGlobal>(rt: &R, name: &str, table: &[u8]) -> Result<Extent, Trouble> {
    match opened(rt, name) {
        Ok(mut file) => weighed(rt.alloc(), table, &mut file),
        Err(error) => Err(Trouble::Device(error)),
    }
}

// The same, of octets that are read piece after piece.
fn weighed<F: Read>(alloc: Global, table: &[u8], file: &mut F) -> Result<Extent, Trouble> {
    let mut piece = buffer(alloc)?;
    let mut tally = Tally::new();
    tally.add_table(table);
    let mut weighing = Weighing { tally };
    match pull(&mut weighing, &mut (), file, piece.as_mut_slice()) {
        Ok(_) => Ok(weighing.extent()),
        Err(trouble) => Err(trouble),
    }
}

struct Weighing {
    tally: Tally,
}

impl Drop for Weighing {
    fn drop(self) {
        let Weighing { tally } = self;
        drop(tally);
    }
}

impl Weighing {
    fn extent(self) -> Extent {
        let Weighing { tally } = self;
        tally.extent()
    }
}

impl Fed<()> for Weighing {
    type Answer = ();

    ghost goes = { λ _ _ _ _ _ _. Unit {0} };

    ghost fails = { λ _. Unit {0} };

    ghost stays = { λ _ _. tt };

    ghost goes_on = { λ _ _ _ _ _ _ _ _ _ _ _. tt };

    fn take(&mut self, piece: &[u8], _told: &mut ()) -> Result<Option<()>, Trouble> {
        self.tally.add_text(piece);
        Ok(None)
    }
}

// Says the verdict that the parts tell, and returns the exit status.
fn concluded<W: Write, E: Write>(
    alloc: Global,
    all: &[Told],
    least: Minimums,
    output: &mut W,
    faults: &mut E,
) -> u8
    ensures { EndsJoin least result (W.contents output.old) (W.contents output.new) }
{
    match hc_split::join(all) {
        Joined::Right(counts) => answered(alloc, &Verdict::Yes(counts), least, output, faults),
        Joined::Wrong(position, why) => {
            answered(alloc, &Verdict::No(position, why), least, output, faults)
        }
        Joined::Lacking(_) => without("no verdict, since there is none on a part", faults),
        Joined::TooMany => without("no verdict, since too much is counted", faults),
    }
}

// Says the verdict, and returns the exit status.
fn answered<W: Write, E: Write>(
    alloc: Global,
    verdict: &Verdict,
    least: Minimums,
    output: &mut W,
    faults: &mut E,
) -> u8
    ensures { EndsJoin least result (W.contents output.old) (W.contents output.new) }
{
    match said(alloc, verdict, output) {
        Ok(_) => ended(alloc, least, verdict, faults),
        Err(trouble) => trouble.told("", faults),
    }
}

// Says why there is no verdict, and returns the exit status.
fn without<E: Write>(why: &str, faults: &mut E) -> u8
    ensures { result ≡ 3 }
{
    let _ = writeln!(faults, "error: {why}");
    let _ = faults.flush();
    Trouble::STATUS
}
