//! The first reading of a recording, by which its parts are chosen.

ghost use Rattle.std.specs.Prelude.{◌≡◌, ◌<◌, Ok, true};
ghost use Rattle.hc_transcript.specs.Reader.{HasItem, unread};

use crate::families::Families;
use crate::fault::{SplitFault, fault_at};
use hc_transcript::{Format, RecordFault, RecordReader};
use std::alloc::Global;

/// Reads a recording that comes in pieces, and takes in the families of its targets.
pub struct FamilyReader {
    reader: RecordReader,
    families: Families,
}

impl Drop for FamilyReader {
    fn drop(self) {
        let FamilyReader { reader, families } = self;
        drop(reader);
        drop(families);
    }
}

impl FamilyReader {
    /// One that was given nothing.
    pub fn new(alloc: Global) -> Self {
        FamilyReader {
            reader: RecordReader::new(alloc),
            families: Families::new(alloc),
        }
    }

    /// Takes the next piece, and each record that is whole then.
    pub fn feed(&mut self, piece: &[u8]) -> Result<(), SplitFault> {
        if let Err(fault) = self.reader.feed(piece) {
            return Err(fault_at(&self.reader, fault));
        }
        'records: while self.read()? {
            self.note()?;
        }
        Ok(())
    }

    // Reads the next record, if it is whole: `true` where one was read.
    fn read(&mut self) -> Result<bool, SplitFault>
        ensures lends { result ≡ Ok true → HasItem self.new.reader }
        ensures shrinks { result ≡ Ok true → unread self.new.reader < unread self.old.reader }
    {
        match self.reader.advance() {
            Ok(found) => Ok(found),
            Err(fault) => Err(fault_at(&self.reader, fault)),
        }
    }

    // Takes in the record that was read last.
    fn note(&mut self) -> Result<(), SplitFault>
        requires { HasItem self.old.reader }
        ensures { self.new.reader ≡ self.old.reader }
    {
        let octets = self.reader.text().len() as u64;
        let view = self.reader.view();
        match self.families.note(&view, octets) {
            Ok(()) => Ok(()),
            Err(_) => Err(SplitFault::Memory),
        }
    }

    /// Ends the recording, and tells its format beside the families.
    pub fn finish(mut self) -> Result<(Format, Families), SplitFault> {
        let format = self.end()?;
        let FamilyReader { reader, families } = self;
        drop(reader);
        Ok((format, families))
    }

    // Ends the recording, and tells its format.
    fn end(&mut self) -> Result<Format, SplitFault> {
        if let Err(fault) = self.reader.finish() {
            return Err(fault_at(&self.reader, fault));
        }
        match self.reader.format() {
            Some(format) => Ok(format),
            None => Err(SplitFault::Broken(0, RecordFault::Torn)),
        }
    }
}
