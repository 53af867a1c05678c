//! The records of a recording, each put into its part.

ghost use Rattle.std.specs.Prelude.{◌≡◌, ◌<◌, ◌++◌, ℕ, List, [], IfOk, OnOk, Ok, true};
ghost use Rattle.hc_transcript.specs.declared.record.Record.{Record};
ghost use Rattle.hc_transcript.specs.Items.{Item};
ghost use Rattle.hc_transcript.specs.Reader.{HasItem, Lends, unread};
ghost use Rattle.hc_transcript.specs.Transcript.{IsTranscript};
ghost use Rattle.hc_split.specs.Parting.{part_by};
ghost use Rattle.hc_split.specs.Routing.{IsRouted, RoutesAs};
ghost use Rattle.hc_split.specs.Splitting.{HasRead, IsSplitting, SplitsOn};

use crate::fault::{SplitFault, fault_at};
use crate::outlets::{Outlet, give};
use crate::parts::Parts;
use crate::routes::{RouteFault, Routes};
use hc_transcript::{Format, RecordReader};
use std::alloc::Global;
use std::io::Write;

/// Puts the records of a transcript of that format, which comes in pieces, into their parts.
pub struct Splitter {
    reader: RecordReader,
    routes: Routes,
    parts: Parts,
    format: Format,
}

impl Drop for Splitter {
    fn drop(self) {
        let Splitter {
            reader,
            routes,
            parts,
            format: _,
        } = self;
        drop(reader);
        drop(routes);
        drop(parts);
    }
}

impl Splitter {
    /// One that was given nothing.
    pub fn new(alloc: Global, parts: Parts, format: Format) -> Self
        ensures is { IsSplitting result [] [] [] }
        ensures parts { result.parts ≡ parts }
        ensures format { result.format ≡ format }
    {
        Splitter {
            reader: RecordReader::new(alloc),
            routes: Routes::new(alloc),
            parts,
            format,
        }
    }

    /// Takes the next piece, and puts each record that is whole then into its part.
    pub fn feed<W: Write + Drop>(
        &mut self,
        piece: &[u8],
        outlets: &mut [Outlet<W>],
    ) -> Result<(), SplitFault>
        ensures { (octets : List ℕ) (records : List Record) (h : List Item) → IsSplitting self.old octets records h
            → OnOk result (SplitsOn W.contents outlets.old outlets.new self.old self.new (octets ++ piece.now) records h) }
    {
        self.take(piece)?;
        'records: while self.step(outlets)? {}
        Ok(())
    }

    fn take(&mut self, piece: &[u8]) -> Result<(), SplitFault>
        ensures fed { (octets : List ℕ) (records : List Record) (h : List Item) → IsSplitting self.old octets records h
            → OnOk result (IsSplitting self.new (octets ++ piece.now) records h) }
        ensures parts { self.new.parts ≡ self.old.parts }
        ensures format { self.new.format ≡ self.old.format }
    {
        match self.reader.feed(piece) {
            Ok(()) => Ok(()),
            Err(fault) => Err(fault_at(&self.reader, fault)),
        }
    }

    // Puts the next record into its part, if it is whole: `true` where one was.
    fn step<W: Write + Drop>(&mut self, outlets: &mut [Outlet<W>]) -> Result<bool, SplitFault>
        ensures on { (octets : List ℕ) (records : List Record) (h : List Item) → IsSplitting self.old octets records h
            → OnOk result (SplitsOn W.contents outlets.old outlets.new self.old self.new octets records h) }
        ensures shrinks { result ≡ Ok true → unread self.new.reader < unread self.old.reader }
    {
        if !self.read()? {
            return Ok(false);
        }
        let part = self.routed()?;
        match give(outlets, part, self.reader.records(), self.reader.text()) {
            Ok(()) => Ok(true),
            Err(error) => Err(SplitFault::Output(error)),
        }
    }

    // Reads the next record, if it is whole: `true` where one was read.
    fn read(&mut self) -> Result<bool, SplitFault>
        ensures read { (octets : List ℕ) (records : List Record) (h : List Item) → IsSplitting self.old octets records h
            → IfOk result (λ found. HasRead found self.new octets records h) }
        ensures lends { result ≡ Ok true → HasItem self.new.reader }
        ensures shrinks { result ≡ Ok true → unread self.new.reader < unread self.old.reader }
        ensures parts { self.new.parts ≡ self.old.parts }
        ensures format { self.new.format ≡ self.old.format }
    {
        match self.reader.advance() {
            Err(fault) => Err(fault_at(&self.reader, fault)),
            Ok(false) => Ok(false),
            Ok(true) => {
                if self.reader.format() != Some(self.format) {
                    return Err(SplitFault::Changed);
                }
                Ok(true)
            }
        }
    }

    // The part of the record that was read last.
    fn routed(&mut self) -> Result<usize, SplitFault>
        requires { HasItem self.old.reader }
        ensures routed { (h : List Item) (item : Item) → RoutesAs (part_by self.old.parts) self.old.routes h
            → Lends self.old.reader item
            → IfOk result (IsRouted (part_by self.old.parts) self.new.routes h item) }
        ensures reader { self.new.reader ≡ self.old.reader }
        ensures parts { self.new.parts ≡ self.old.parts }
        ensures format { self.new.format ≡ self.old.format }
    {
        let view = self.reader.view();
        match self.routes.route(&self.parts, &view) {
            Ok(part) => Ok(part),
            Err(RouteFault::Memory) => Err(SplitFault::Memory),
            Err(RouteFault::Apart) => Err(SplitFault::Changed),
            Err(RouteFault::NothingOpen) => Err(SplitFault::Changed),
        }
    }

    /// Ends the recording.
    pub fn finish(mut self) -> Result<(), SplitFault>
        ensures { (octets : List ℕ) (records : List Record) (h : List Item) → IsSplitting self octets records h
            → OnOk result (IsTranscript self.format octets records h) }
    {
        if self.reader.format() != Some(self.format) {
            return Err(SplitFault::Changed);
        }
        match self.reader.finish() {
            Ok(()) => Ok(()),
            Err(fault) => Err(fault_at(&self.reader, fault)),
        }
    }
}
