//! What is told as a JSON object.

use hc_shown::{FieldOf, Page, Teller};
use serde_json::{Map, Value, push, put};
use std::alloc::{AllocError, Global};

// An object or a list that was begun, and the name that it has in the object that was begun before it.
#[derive(Drop)]
struct Begun {
    name: &'static str,
    value: Value,
}

/// A JSON object that is told its members, and objects and lists in it. Where memory is refused for one of
/// them, there are no members: `into_members` returns that.
#[derive(Drop)]
pub(crate) struct NestedObject {
    alloc: Global,
    // The object itself, and those in it that were begun and haven't ended.
    begun: Vec<Begun>,
    is_refused: bool,
}

impl NestedObject {
    /// No member.
    pub(crate) fn new(alloc: Global) -> Self {
        let mut object = NestedObject {
            alloc,
            begun: Vec::new(alloc),
            is_refused: false,
        };
        object.begin_item();
        object
    }

    /// Its members.
    pub(crate) fn into_members(self) -> Result<Map<String, Value>, AllocError> {
        let NestedObject {
            alloc: _,
            begun,
            is_refused,
        } = self;
        match begun.into_iter().next() {
            Some(
                Begun {
                    name: _,
                    value: Value::Object(members),
                },
            ) if !is_refused => Ok(members),
            _ => Err(AllocError),
        }
    }

    // Begins an object or a list of that name.
    fn begin_value(&mut self, name: &'static str, value: Value) {
        if self.begun.push(Begun { name, value }).is_err() {
            self.is_refused = true;
        }
    }

    // Adds a value to what was begun last, if it could be made.
    fn add(&mut self, name: &str, made: Result<Value, AllocError>) {
        let alloc = self.alloc;
        let added = match (made, self.begun.last_mut()) {
            (Ok(value), Some(begun)) => add_to(&mut begun.value, alloc, name, value),
            _ => Err(AllocError),
        };
        if added.is_err() {
            self.is_refused = true;
        }
    }
}

// Adds a value to an object or a list.
fn add_to(begun: &mut Value, alloc: Global, name: &str, value: Value) -> Result<(), AllocError> {
    match begun {
        Value::Object(members) => put(members, alloc, name, value),
        Value::Array(items) => push(items, value),
        _ => Ok(()),
    }
}

// What is written on a page.
fn page_value(page: Page) -> Result<Value, AllocError> {
    Ok(Value::String(page.into_text()?))
}

impl Teller for NestedObject {
    fn is_text(&self) -> bool {
        false
    }

    fn fact(&mut self, name: &'static str, number: u64) {
        self.add(name, Ok(Value::from(number)));
    }

    fn some(&mut self, name: &'static str, number: Option<u64>) {
        match number {
            Some(number) => self.fact(name, number),
            None => self.add(name, Ok(Value::Null)),
        }
    }

    fn word(&mut self, name: &'static str, word: &str) {
        let made = Value::try_from_str(self.alloc, word);
        self.add(name, made);
    }

    fn flag(&mut self, name: &'static str, flag: bool) {
        self.add(name, Ok(Value::from(flag)));
    }

    fn known(&mut self, name: &'static str, field: &FieldOf<'_>) {
        let mut page = self.page();
        if page.joined(field) {
            self.said(name, page);
        } else {
            self.some(name, None);
        }
    }

    fn page(&self) -> Page {
        Page::new(self.alloc)
    }

    fn said(&mut self, name: &'static str, page: Page) {
        self.add(name, page_value(page));
    }

    fn begin(&mut self, name: &'static str) {
        let members = Map::new(self.alloc);
        self.begin_value(name, Value::Object(members));
    }

    fn begin_list(&mut self, name: &'static str) {
        let items = Vec::new(self.alloc);
        self.begin_value(name, Value::Array(items));
    }

    fn end(&mut self) {
        match self.begun.pop() {
            Some(Begun { name, value }) => self.add(name, Ok(value)),
            None => self.is_refused = true,
        }
    }

    fn signed(&mut self, name: &'static str, _: &str, number: i64) {
        self.add(name, Ok(Value::from(number)));
    }

    fn quoted(&mut self, name: &'static str, octets: &[u8]) {
        self.octets(name, "", octets);
    }

    fn values(&mut self, name: &'static str, _: &str, field: &FieldOf<'_>) {
        self.begin_list(name);
        for line in field.fields.values(field.name) {
            let mut page = self.page();
            page.shown_value(field.name, line);
            self.said("", page);
        }
        self.end();
    }
}
