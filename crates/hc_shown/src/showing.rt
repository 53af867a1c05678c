//! The records of a transcript that comes in pieces, from one position to another.

ghost use Rattle.std.specs.Prelude.{◌≡◌, ◌<◌, ◌++◌, ℕ, List, [], None, IfOk, OnOk, Ok, string_bytes};
ghost use Rattle.hc_transcript.specs.Items.{Item};
ghost use Rattle.hc_transcript.specs.Reader.{HasItem, Lends, records_read, unread};
ghost use Rattle.hc_shown.specs.declared.span.Span.{Span};
ghost use Rattle.hc_shown.specs.Shown.{AddsIf, is_within};
ghost use Rattle.hc_shown.specs.Showings.{EndsShowing, GivesNext, GivesStage, HasShown, Shows};

use crate::record::push_record;
use crate::span::Span;
use hc_transcript::{RecordFault, RecordReader};
use std::alloc::{AllocError, Global};

/// Shows the records of a transcript from one position to another. It holds the octets of a record that isn't whole yet,
/// and reads no record after the last.
#[derive(Drop)]
pub struct Showing {
    reader: RecordReader,
    span: Span,
}

/// How far the records have come.
#[derive(Clone, Copy)]
pub enum ShowingStage {
    /// The last position hasn't come.
    More,
    /// It has.
    Last,
    /// A record at that position or before it breaks the octets, however they go on.
    Broken(u64, RecordFault),
}

/// How octets end before the last position.
#[derive(Clone, Copy)]
pub enum EarlyEnding {
    /// With their last record.
    Short,
    /// They break at this position, by this fault.
    Broken(u64, RecordFault),
}

impl Showing {
    /// It was fed nothing. Positions count from 1.
    pub fn new(alloc: Global, span: Span) -> Self
        requires { 0 < span.last }
        ensures { Shows result span [] [] }
    {
        Showing {
            reader: RecordReader::new(alloc),
            span,
        }
    }

    /// Takes the next piece, and puts the records at the end of `out` that are whole then and at one of the positions.
    pub fn feed(&mut self, piece: &[u8], out: &mut String) -> Result<ShowingStage, AllocError>
        ensures { (span : Span) (octets text : List ℕ) → Shows self.old span octets text
            → IfOk result (GivesStage self.new span (octets ++ piece.now) text (string_bytes out.old) (string_bytes out.new)) }
    {
        if self.reader.feed(piece).is_err() {
            return Err(AllocError);
        }
        self.show_whole(out)
    }

    fn show_whole(&mut self, out: &mut String) -> Result<ShowingStage, AllocError>
        ensures { (span : Span) (octets text : List ℕ) → HasShown self.old span octets text
            → IfOk result (GivesStage self.new span octets text (string_bytes out.old) (string_bytes out.new)) }
    {
        'records: loop {
            match self.show_next(out)? {
                Some(reach) => return Ok(reach),
                None => {}
            }
        }
    }

    // Reads the next record, if it is whole, and puts it at the end of `out` where it is at one of the
    // positions. Where more may be whole, it returns none.
    fn show_next(&mut self, out: &mut String) -> Result<Option<ShowingStage>, AllocError>
        ensures gives { (span : Span) (octets text : List ℕ) → HasShown self.old span octets text
            → IfOk result (GivesNext self.new span octets text (string_bytes out.old) (string_bytes out.new)) }
        ensures shrinks { result ≡ Ok None → unread self.new.reader < unread self.old.reader }
    {
        if self.reader.records() >= self.span.last {
            return Ok(Some(ShowingStage::Last));
        }
        match self.reader.advance() {
            Err(RecordFault::Memory) => Err(AllocError),
            Err(fault) => Ok(Some(ShowingStage::Broken(self.reader.position(), fault))),
            Ok(false) => Ok(Some(ShowingStage::More)),
            Ok(true) => {
                self.show(out)?;
                Ok(None)
            }
        }
    }

    // Puts the record that was read last at the end of `out`, where it is at one of the positions.
    fn show(&self, out: &mut String) -> Result<(), AllocError>
        requires { HasItem self.now.reader }
        ensures { (position : ℕ) (item : Item) → records_read self.now.reader ≡ position → Lends self.now.reader item
            → OnOk result (AddsIf (is_within self.now.span position) position item (string_bytes out.old) (string_bytes out.new)) }
    {
        let position = self.reader.records();
        if !self.span.contains(position) {
            return Ok(());
        }
        let item = self.reader.view().copy(*out.allocator())?;
        push_record(position, &item, out)
    }

    /// How all octets that were fed end, where the last position hasn't come.
    pub fn finish(mut self) -> EarlyEnding
        ensures { (span : Span) (octets text : List ℕ) → Shows self span octets text → EndsShowing result span octets text }
    {
        let position = self.reader.position();
        match self.reader.finish() {
            Ok(()) => EarlyEnding::Short,
            Err(fault) => EarlyEnding::Broken(position, fault),
        }
    }
}
