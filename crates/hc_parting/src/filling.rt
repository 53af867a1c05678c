//! A recording that is read piece after piece, and put into its parts.

ghost use Rattle.std.specs.Prelude.{◌≡◌, ◌<◌, ◌++◌, ℕ, List, [], IfSome, OnOk, None, length};
ghost use Rattle.hc_transcript.specs.declared.record.Record.{Record};
ghost use Rattle.hc_transcript.specs.Items.{Item};
ghost use Rattle.hc_transcript.specs.Transcript.{IsTranscript};
ghost use Rattle.hc_split.specs.Parting.{part_by};
ghost use Rattle.hc_split.specs.Splitting.{IsSplitting};
ghost use Rattle.hc_parting.specs.Filling.{Fills, IsParted};
ghost use Rattle.hc_parting.specs.Laws.{fills_nothing, fills_on};

use hc_auditing::{Fed, Trouble, buffer, pull};
use hc_split::{Families, FamilyReader, Outlet, Parts, SplitFault, Splitter};
use hc_transcript::Format;
use std::alloc::Global;
use std::io::{Read, Write};

/// Why a reading comes to nothing.
#[derive(Clone, Copy)]
pub(crate) enum Stop {
    /// By what was read, or by what is written.
    Fault(SplitFault),
    /// By the input, or by memory.
    Trouble(Trouble),
}

// ---- the first reading

struct Choosing {
    reader: FamilyReader,
}

impl Drop for Choosing {
    fn drop(self) {
        let Choosing { reader } = self;
        drop(reader);
    }
}

impl Choosing {
    // The families, and the format, of what was read.
    fn finish(self) -> Result<(Format, Families), Stop> {
        let Choosing { reader } = self;
        match reader.finish() {
            Ok(found) => Ok(found),
            Err(fault) => Err(Stop::Fault(fault)),
        }
    }
}

impl Fed<()> for Choosing {
    type Answer = SplitFault;

    ghost goes = { λ _ _ _ _ _ _. Unit {0} };

    ghost fails = { λ _. Unit {0} };

    ghost stays = { λ _ _. tt };

    ghost goes_on = { λ _ _ _ _ _ _ _ _ _ _ _. tt };

    fn take(&mut self, piece: &[u8], _told: &mut ()) -> Result<Option<SplitFault>, Trouble> {
        match self.reader.feed(piece) {
            Ok(()) => Ok(None),
            Err(fault) => Ok(Some(fault)),
        }
    }
}

/// The families of the targets of what `input` gives, and the format of that.
pub(crate) fn chosen<R: Read>(alloc: Global, input: &mut R) -> Result<(Format, Families), Stop> {
    let Ok(mut piece) = buffer(alloc) else {
        return Err(Stop::Trouble(Trouble::Memory));
    };
    let reader = FamilyReader::new(alloc);
    chosen_by(Choosing { reader }, input, piece.as_mut_slice())
}

fn chosen_by<R: Read>(
    mut choosing: Choosing,
    input: &mut R,
    piece: &mut [u8],
) -> Result<(Format, Families), Stop>
    requires { 0 < length piece.old }
{
    match pull(&mut choosing, &mut (), input, piece) {
        Ok(None) => choosing.finish(),
        Ok(Some(fault)) => Err(Stop::Fault(fault)),
        Err(trouble) => Err(Stop::Trouble(trouble)),
    }
}

// ---- the second reading

struct Filling {
    splitter: Splitter,
}

impl Drop for Filling {
    fn drop(self) {
        let Filling { splitter } = self;
        drop(splitter);
    }
}

impl Filling {
    // Ends what was read.
    fn finish(self) -> Result<(), SplitFault>
        ensures { (octets : List ℕ) (records : List Record) (h : List Item) → IsSplitting self.splitter octets records h
            → OnOk result (IsTranscript self.splitter.format octets records h) }
    {
        let Filling { splitter } = self;
        splitter.finish()
    }
}

impl<W: Write + Drop> Fed<Vec<Outlet<W>>> for Filling {
    type Answer = SplitFault;

    ghost goes = { λ first before last after octets fault. Fills W.contents first.splitter before.items last.splitter after.items octets fault };

    ghost fails = { λ _. Unit {0} };

    ghost stays = { λ filling outlets. fills_nothing W.contents filling.splitter outlets.items };

    ghost goes_on = { λ first middle last before between after some more fault. fills_on W.contents first.splitter middle.splitter last.splitter
        before.items between.items after.items some more fault };

    fn take(
        &mut self,
        piece: &[u8],
        told: &mut Vec<Outlet<W>>,
    ) -> Result<Option<SplitFault>, Trouble> {
        match self.splitter.feed(piece, told.as_mut_slice()) {
            Ok(()) => Ok(None),
            Err(fault) => Ok(Some(fault)),
        }
    }
}

/// Puts the records of what `input` gives into those parts.
pub fn fill<R: Read, W: Write + Drop>(
    alloc: Global,
    parts: Parts,
    format: Format,
    input: &mut R,
    outlets: &mut Vec<Outlet<W>>,
) -> Result<(), SplitFault>
    ensures { OnOk result (IfSome (R.remaining input.old) (λ octets. IsParted W.contents (part_by parts) format octets outlets.old.items outlets.new.items)) }
{
    let Ok(mut piece) = buffer(alloc) else {
        return Err(SplitFault::Memory);
    };
    let splitter = Splitter::new(alloc, parts, format);
    filled_by(Filling { splitter }, input, piece.as_mut_slice(), outlets)
}

fn filled_by<R: Read, W: Write + Drop>(
    mut filling: Filling,
    input: &mut R,
    piece: &mut [u8],
    outlets: &mut Vec<Outlet<W>>,
) -> Result<(), SplitFault>
    requires { 0 < length piece.old }
    ensures { IsSplitting filling.splitter [] [] [] → OnOk result (IfSome (R.remaining input.old) (λ octets.
        IsParted W.contents (part_by filling.splitter.parts) filling.splitter.format octets outlets.old.items outlets.new.items)) }
{
    match pull(&mut filling, outlets, input, piece) {
        Ok(None) => filling.finish(),
        Ok(Some(fault)) => Err(fault),
        Err(Trouble::Memory) => Err(SplitFault::Memory),
        Err(Trouble::Device(error)) => Err(SplitFault::Output(error)),
        Err(Trouble::Output(error)) => Err(SplitFault::Output(error)),
    }
}
