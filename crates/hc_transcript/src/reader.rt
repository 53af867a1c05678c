//! A reader of the records of a transcript.

ghost use Rattle.std.specs.Prelude.{◌≡◌, ◌≢◌, ℕ, ◌+◌, ◌<◌, ◌≤◌, ◌⊎◌, List, [], ◌∷◌, ◌++◌, length, Some, None, is_ok, IsSome, OnOk, OnErr, IfErr, Ok, Err, true, false, if◌then◌else◌};
ghost use Rattle.hc_transcript.specs.declared.record.Record.{Record};
ghost use Rattle.hc_transcript.specs.Limits.{greatest_moment, longest_unfinished};
ghost use Rattle.hc_transcript.specs.Items.{Item, moment_of};
ghost use Rattle.hc_transcript.specs.Lending.{lent_len, lent_end, lent_moment};
ghost use Rattle.hc_transcript.specs.Transcript.{IsTranscript};

use crate::fault::RecordFault;
use crate::format::{Format, format_at, may_open};
use crate::framed::{Framed, record_at};
use crate::line::Line;
use crate::open_numbers::Standing;
use crate::places::RecordPlaces;
use crate::view::RecordView;
use hc_fields::{Waiting, piece};
use std::alloc::Global;

/// A record that is lent: its line, where its message begins, and how many octets it takes.
#[derive(Clone, Copy)]
struct Lent {
    line: Line,
    start: usize,
    len: usize,
}

/// Reads the records of a transcript that comes in pieces. It holds the octets of the record that it
/// lends, and those that were fed and not yet read.
pub struct RecordReader {
    /// The octets of the record that is lent, and those that wait behind it.
    held: Waiting,
    lent: Option<Lent>,
    places: RecordPlaces,
    format: Option<Format>,
    standing: Standing,
    fault: Option<RecordFault>,
    ghost octets_within: { lent_len lent ≤ length held },
    ghost message_within: { lent_end lent ≤ lent_len lent },
    ghost in_time: { lent_moment lent ≤ greatest_moment },
}

impl Drop for RecordReader {
    fn drop(self) {
        let RecordReader {
            held,
            lent: _,
            places,
            format: _,
            standing,
            fault: _,
        } = self;
        drop(held);
        drop(places);
        drop(standing);
    }
}

impl RecordReader {
    ghost use Rattle.hc_transcript.specs.Reader.{Agrees, GivesAdvance, PositionsNext, HasFailed, HasNoFault, fault_met, HasItem, Lends, lent, text_lent, waiting, CountsRecord, HasUnread, unread, octets_held, records_read, format_read, KeepsFormat, BeginsAs, reader_position};
    ghost use Rattle.hc_transcript.specs.ReaderParts.{is_whole_by, GivesOpening, KeepsRead};

    /// A reader that was given nothing.
    pub fn new(alloc: Global) -> Self
        ensures { Agrees result [] [] [] }
    {
        RecordReader {
            held: Waiting::new(alloc),
            lent: None,
            places: RecordPlaces::new(alloc),
            format: None,
            standing: Standing::new(alloc),
            fault: None,
        }
    }

    /// Takes the next piece. After a fault that fault is returned again, and nothing changes.
    pub fn feed(&mut self, piece: &[u8]) -> Result<(), RecordFault>
        ensures ok { (octets : List ℕ) (records : List Record) (h : List Item) → Agrees self.old octets records h
            → OnOk result (Agrees self.new (octets ++ piece.now) records h) }
        ensures counted { records_read self.new ≡ records_read self.old }
        ensures position { reader_position self.new ≡ reader_position self.old }
        ensures format { format_read self.new ≡ format_read self.old }
        ensures lends { lent self.new ≡ lent self.old }
        ensures unread { unread self.new ≡ (if is_ok result then unread self.old + length piece.now else unread self.old) }
        // Only memory can fail, unless a fault was returned before.
        ensures err { IfErr result (λ f. HasFailed self.new f × ((f ≡ RecordFault.Memory) ⊎ HasFailed self.old f)) }
        ensures unfailed { OnOk result (HasNoFault self.old × HasNoFault self.new) }
        ensures failed { (f : RecordFault) → HasFailed self.old f → (result ≡ Err f) × (self.new ≡ self.old) }
    {
        if let Some(fault) = self.fault {
            return Err(fault);
        }
        if self.held.push(piece).is_err() {
            self.fault = Some(RecordFault::Memory);
            return Err(RecordFault::Memory);
        }
        Ok(())
    }

    /// Reads the next record, if it is whole: `true` where one was read, which `view` then lends.
    /// What was lent before is given up. After a fault that fault is returned again, and nothing
    /// changes.
    pub fn advance(&mut self) -> Result<bool, RecordFault>
        // Which records were read of which octets, and where each fault stands.
        ensures gives { (octets : List ℕ) (records : List Record) (h : List Item) → Agrees self.old octets records h
            → GivesAdvance result self.new octets records h }
        ensures lends { result ≡ Ok true → HasItem self.new }
        ensures opened { result ≡ Ok true → IsSome (format_read self.new) }
        ensures gives_up { HasNoFault self.old → result ≢ Ok true → lent self.new ≡ None }
        ensures shrinks { result ≡ Ok true → unread self.new < unread self.old }
        ensures waits { result ≡ Ok false → octets_held self.new ≤ longest_unfinished }
        ensures counted { CountsRecord result (records_read self.old) (records_read self.new) }
        ensures position { PositionsNext result self.old self.new }
        ensures format { KeepsFormat self.old self.new }
        // Whatever it returns, a format that was read is that of the octets.
        ensures told { (octets : List ℕ) (records : List Record) (h : List Item) → Agrees self.old octets records h
            → BeginsAs (format_read self.new) octets }
        ensures err { IfErr result (HasFailed self.new) }
        ensures unfailed { OnOk result (HasNoFault self.old × HasNoFault self.new) }
        ensures failed { (f : RecordFault) → HasFailed self.old f → (result ≡ Err f) × (self.new ≡ self.old) }
    {
        if let Some(earlier) = self.fault {
            return Err(earlier);
        }
        self.give_up();
        match self.step() {
            Ok(found) => Ok(found),
            Err(fault) => {
                self.fault = Some(fault);
                Err(fault)
            }
        }
    }

    /// Gives up what is lent.
    fn give_up(&mut self)
        ensures held { self.new.held ≡ waiting self.old }
        ensures none { self.new.lent ≡ None }
        ensures stay { KeepsRead self.old self.new }
    {
        if let Some(lent) = self.lent.take() {
            self.held.skip(lent.len);
        }
    }

    /// The record that was read last, with its message read. It is lent until the next call of `advance`.
    pub fn view(&self) -> RecordView<'_>
        requires { HasItem self.now }
        ensures lent { lent self.now ≡ Some result }
        ensures item { (item : Item) → Lends self.now item → result ≡ item }
        ensures in_time { moment_of result ≤ greatest_moment }
    {
        let lent = self.lent.unwrap();
        let message = piece(self.held.as_slice(), lent.start, lent.line.size as usize);
        self.places.record(&lent.line, message)
    }

    /// The octets of the record that was read last: its line, its message and its last line feed.
    pub fn text(&self) -> &[u8]
        ensures { result.now ≡ text_lent self.now }
    {
        let held = self.held.as_slice();
        match self.lent {
            None => &[],
            Some(lent) => {
                let (text, _) = held.split_at(lent.len);
                text
            }
        }
    }

    /// The octets that wait behind those that are lent.
    fn waiting(&self) -> &[u8]
        ensures { result.now ≡ waiting self.now }
    {
        let held = self.held.as_slice();
        match self.lent {
            None => held,
            Some(lent) => {
                let (_, behind) = held.split_at(lent.len);
                behind
            }
        }
    }

    /// How many octets it holds: those of the record that is lent, and those that were not yet read.
    pub fn rest(&self) -> usize
        ensures { result ≡ octets_held self.now }
    {
        self.held.as_slice().len()
    }

    /// How many records were read, at most 4 * 10 ^ 12.
    pub fn records(&self) -> u64
        ensures value { result ≡ records_read self.now }
        ensures few { result ≤ 4000000000000 }
    {
        self.standing.records()
    }

    /// The format that the opening tells; none until `advance` has read it whole.
    pub fn format(&self) -> Option<Format>
        ensures { result ≡ format_read self.now }
    {
        self.format
    }

    /// The position of what is read next, or of what broke: 0 is the opening, the first record has 1.
    pub fn position(&self) -> u64
        ensures { result ≡ reader_position self.now }
    {
        match self.format {
            Some(_) => self.standing.records() + 1,
            None => 0,
        }
    }

    /// Ends the transcript: `Torn` where no opening is whole, or octets are left after the last
    /// record that was read. After a fault that fault is returned again. Only the fault changes, and
    /// where there is none nothing does.
    pub fn finish(&mut self) -> Result<(), RecordFault>
        ensures ok { (octets : List ℕ) (records : List Record) (h : List Item) → Agrees self.old octets records h
            → OnOk result ((format : Format) × IsTranscript format octets records h) }
        ensures unchanged { OnOk result (self.new ≡ self.old) }
        ensures counted { records_read self.new ≡ records_read self.old }
        ensures position { reader_position self.new ≡ reader_position self.old }
        ensures format { format_read self.new ≡ format_read self.old }
        ensures lends { lent self.new ≡ lent self.old }
        ensures unread { unread self.new ≡ unread self.old }
        ensures err { IfErr result (λ f. HasFailed self.new f × ((f ≡ RecordFault.Torn) ⊎ HasFailed self.old f)) }
        ensures torn { (octets : List ℕ) (records : List Record) (h : List Item) → Agrees self.old octets records h
            → OnErr result (HasUnread self.old) }
        ensures unfailed { OnOk result (HasNoFault self.old × HasNoFault self.new) }
        ensures failed { (f : RecordFault) → HasFailed self.old f → (result ≡ Err f) × (self.new ≡ self.old) }
    {
        if let Some(met) = self.fault {
            return Err(met);
        }
        if !self.is_whole() {
            self.fault = Some(RecordFault::Torn);
            return Err(RecordFault::Torn);
        }
        Ok(())
    }

    /// Whether an opening is there, and no octet after the last record that was read.
    fn is_whole(&self) -> bool
        ensures { result ≡ is_whole_by self.now.format (waiting self.now) }
    {
        let left = self.waiting();
        match self.format {
            Some(_) => left.is_empty(),
            None => left == Format::First.opening() || left == Format::Second.opening(),
        }
    }

    /// Reads the opening where that is still to be read, and the next record, if both are whole.
    fn step(&mut self) -> Result<bool, RecordFault>
        requires { self.old.lent ≡ None }
        ensures gives { (octets : List ℕ) (records : List Record) (h : List Item) → Agrees self.old octets records h
            → GivesAdvance result self.new octets records h }
        ensures lends { result ≡ Ok true → HasItem self.new }
        ensures opened { result ≡ Ok true → IsSome (format_read self.new) }
        ensures gives_up { result ≢ Ok true → lent self.new ≡ None }
        ensures shrinks { result ≡ Ok true → unread self.new < unread self.old }
        ensures waits { result ≡ Ok false → octets_held self.new ≤ longest_unfinished }
        ensures counted { CountsRecord result (records_read self.old) (records_read self.new) }
        ensures position { PositionsNext result self.old self.new }
        ensures format { KeepsFormat self.old self.new }
        // Whatever it returns, a format that was read is that of the octets.
        ensures told { (octets : List ℕ) (records : List Record) (h : List Item) → Agrees self.old octets records h
            → BeginsAs (format_read self.new) octets }
        ensures fault { fault_met self.new ≡ fault_met self.old }
    {
        let format = match self.format {
            Some(format) => format,
            None => match self.read_opening() {
                Err(fault) => return Err(fault),
                Ok(None) => return Ok(false),
                Ok(Some(format)) => format,
            },
        };
        self.read_record(format)
    }

    /// Reads the opening, if it is whole, and returns its format.
    fn read_opening(&mut self) -> Result<Option<Format>, RecordFault>
        requires format { self.old.format ≡ None }
        requires lent { self.old.lent ≡ None }
        ensures { GivesOpening result self.old self.new }
    {
        let held = self.held.as_slice();
        let Some(format) = format_at(held) else {
            return if may_open(held) {
                Ok(None)
            } else {
                Err(RecordFault::Opening)
            };
        };
        self.held.skip(format.opening().len());
        self.format = Some(format);
        Ok(Some(format))
    }

    /// Reads the record behind the opening, if it is whole.
    fn read_record(&mut self, format: Format) -> Result<bool, RecordFault>
        requires format { self.old.format ≡ Some format }
        requires lent { self.old.lent ≡ None }
        ensures gives { (octets : List ℕ) (records : List Record) (h : List Item) → Agrees self.old octets records h
            → GivesAdvance result self.new octets records h }
        ensures lends { result ≡ Ok true → HasItem self.new }
        ensures gives_up { result ≢ Ok true → lent self.new ≡ None }
        ensures shrinks { result ≡ Ok true → unread self.new < unread self.old }
        ensures waits { result ≡ Ok false → octets_held self.new ≤ longest_unfinished }
        ensures counted { CountsRecord result (records_read self.old) (records_read self.new) }
        ensures format { self.new.format ≡ Some format }
        ensures fault { fault_met self.new ≡ fault_met self.old }
    {
        let framed = match record_at(format, self.held.as_slice(), &self.standing) {
            Err(fault) => return Err(fault),
            Ok(None) => return Ok(false),
            Ok(Some(framed)) => framed,
        };
        let to_head = self
            .standing
            .is_to_head(framed.line.kind, framed.line.number);
        match self.places.find(&framed.line, framed.message, to_head) {
            Err(fault) => return Err(fault),
            Ok(()) => {}
        }
        self.standing
            .note(&self.places.record(&framed.line, framed.message))?;
        let Framed { line, len, .. } = framed;
        self.lent = Some(Lent {
            line,
            start: len - line.size as usize - 1,
            len,
        });
        Ok(true)
    }
}
