//! Who is told facts: a text, or the members of an object.

use crate::page::Page;
use hc_fields::{FieldsView, Lines};
use hc_head::Method;
use hc_transcript::Kind;

/// A record of a recording.
#[derive(Clone, Copy)]
pub struct RecordName {
    /// Its position, of which that of the first record is 1.
    pub position: u64,
    /// What passed.
    pub kind: Kind,
    /// The number of its exchange or its forward.
    pub number: u64,
    /// In whole seconds since 1970.
    pub moment: u64,
}

impl RecordName {
    /// The letter that begins a record of its kind.
    pub fn letter(&self) -> &'static str {
        match self.kind {
            Kind::ClientRequest => "q",
            Kind::OriginRequest => "f",
            Kind::OriginResponse => "r",
            Kind::OriginFailure => "x",
            Kind::ClientReply => "a",
        }
    }
}

/// What a message has of a field: nothing, or its lines.
#[derive(Drop)]
pub struct FieldOf<'a> {
    /// The name, in any case.
    pub name: &'a [u8],
    /// The fields of the message.
    pub fields: FieldsView<'a>,
}

impl<'a> FieldOf<'a> {
    /// That field of those.
    pub fn new<L: Lines>(name: &'a [u8], fields: &'a L) -> Self {
        FieldOf {
            name,
            fields: fields.lent(),
        }
    }
}

/// Who is told facts. A text has the words that stand between them, and an object the names of all facts, also of those that
/// no sentence tells. So one function tells a fact to both.
pub trait Teller {
    /// Whether it is a text.
    fn is_text(&self) -> bool;

    /// A page on which nothing is written.
    fn page(&self) -> Page;

    /// Words. A text alone has them.
    fn words(&mut self, _words: &str) {}

    /// A number that no member has, between two texts.
    fn count(&mut self, _before: &str, _number: u64, _after: &str) {}

    /// A record that is named after a text, by its position, its letter and its number. An object has it by `place`.
    fn record(&mut self, _before: &str, _record: RecordName) {}

    /// A moment, as a date and a time of day. A text alone has it.
    fn moment(&mut self, _moment: u64) {}

    /// Octets between two texts. A text alone has them.
    fn said_octets(&mut self, _before: &str, _octets: &[u8], _after: &str) {}

    /// What a message has of a field, with its lines joined, or `none`. A text alone has it.
    fn said_value(&mut self, _field: &FieldOf<'_>) {}

    /// Spaces up to the 16th column of a line, and one at least. A text alone has them.
    fn fill(&mut self) {}

    /// A number that an object alone has.
    fn fact(&mut self, _name: &'static str, _number: u64) {}

    /// A number that an object alone has, or null.
    fn some(&mut self, _name: &'static str, _number: Option<u64>) {}

    /// A text that an object alone has.
    fn word(&mut self, _name: &'static str, _word: &str) {}

    /// What is true or false, which an object alone has.
    fn flag(&mut self, _name: &'static str, _flag: bool) {}

    /// What a message has of a field, with its lines joined, or null, which an object alone has.
    fn known(&mut self, _name: &'static str, _field: &FieldOf<'_>) {}

    /// What is written on a page.
    fn said(&mut self, name: &'static str, page: Page);

    /// Begins an object of that name in an object.
    fn begin(&mut self, _name: &'static str) {}

    /// Begins a list of that name in an object.
    fn begin_list(&mut self, _name: &'static str) {}

    /// Begins an object in a list.
    fn begin_item(&mut self) {
        self.begin("");
    }

    /// Ends the object or the list that was begun last.
    fn end(&mut self) {}

    /// A number, in a text between two others.
    fn number(&mut self, name: &'static str, before: &str, number: u64, after: &str) {
        self.count(before, number, after);
        self.fact(name, number);
    }

    /// A number that may be below 0, in a text after another.
    fn signed(&mut self, name: &'static str, before: &str, number: i64);

    /// Octets, in a text after another.
    fn octets(&mut self, name: &'static str, before: &str, octets: &[u8]) {
        let mut page = self.page();
        page.said_octets("", octets, "");
        self.words(before);
        self.said(name, page);
    }

    /// Octets, in a text in quotes.
    fn quoted(&mut self, name: &'static str, octets: &[u8]);

    /// What a message has of a field, in a text after another, with its lines joined.
    fn value(&mut self, name: &'static str, before: &str, field: &FieldOf<'_>) {
        self.words(before);
        self.said_value(field);
        self.known(name, field);
    }

    /// The same, each line by itself.
    fn values(&mut self, name: &'static str, before: &str, field: &FieldOf<'_>);

    /// A method, in a text between two others.
    fn method(&mut self, name: &'static str, before: &str, method: &Method, after: &str) {
        self.octets(name, before, method.as_slice());
        self.words(after);
    }

    /// What separates the things of a list in a text: the one text before the first, the other before each further one.
    fn separator(&mut self, is_first: bool, before: &str, between: &str) {
        self.words(if is_first { before } else { between });
    }

    /// How many things there are besides those that are named, if there are any. A text alone has it.
    fn say_more(&mut self, more: u64) {
        if more != 0 {
            self.count(", and ", more, " more");
        }
    }

    /// The same; an object has the number in any case.
    fn more(&mut self, name: &'static str, more: u64) {
        self.fact(name, more);
        self.say_more(more);
    }

    /// The members of a record in an object that is begun: its position, its number, its moment and the letter of its kind.
    fn place(&mut self, record: RecordName) {
        self.fact("position", record.position);
        self.fact("number", record.number);
        self.fact("moment", record.moment);
        self.word("kind", record.letter());
    }

    /// A record as an object of that name, if there is one.
    fn some_record(&mut self, name: &'static str, record: Option<RecordName>) {
        if let Some(record) = record {
            self.begin(name);
            self.place(record);
            self.end();
        }
    }
}
