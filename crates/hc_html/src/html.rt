//! The writer of a document.

ghost use Rattle.std.specs.Prelude.{◌≡◌, ◌++◌, IfOk, OnOk, false, string_bytes};
ghost use Rattle.hc_html.specs.Marked.{IsDocument, IsMarked, begin_text, end_text, escaped, escaped_octet, heading_text, link_text, place_text};

use crate::front::FRONT;
use crate::tags::{Class, Tag};
use std::alloc::{AllocError, Global};
use std::fmt::Write;

/// A document that grows. Where memory is refused for a piece of it, the whole is never given:
/// `into_document` returns that.
pub struct Html {
    alloc: Global,
    text: String,
    is_refused: bool,
    ghost marked: { is_refused ≡ false → ∥ IsMarked (string_bytes text) ∥₁ },
}

impl Drop for Html {
    fn drop(self) {
        let Html {
            alloc: _,
            text,
            is_refused: _,
        } = self;
        drop(text);
    }
}

impl Html {
    /// Nothing.
    pub fn new(alloc: Global) -> Self {
        Html {
            alloc,
            text: String::new(alloc),
            is_refused: false,
        }
    }

    /// Begins an element.
    pub fn begin(&mut self, tag: Tag, class: Class) {
        if push_begin(tag, class, &mut self.text).is_err() {
            self.is_refused = true;
        }
    }

    /// Ends it.
    pub fn end(&mut self, tag: Tag) {
        if push_end(tag, &mut self.text).is_err() {
            self.is_refused = true;
        }
    }

    /// Writes the position of a reply, to which others lead.
    pub fn place(&mut self, position: u64) {
        if push_place(position, &mut self.text).is_err() {
            self.is_refused = true;
        }
    }

    /// Writes one that leads there.
    pub fn link(&mut self, position: u64) {
        if push_link(position, &mut self.text).is_err() {
            self.is_refused = true;
        }
    }

    /// Writes a text. Nothing in it is markup.
    pub fn words(&mut self, words: &str) {
        if push_escaped(words, &mut self.text).is_err() {
            self.is_refused = true;
        }
    }

    /// The same of a text that was made, if it could be.
    pub fn made(&mut self, made: Result<String, AllocError>) {
        match made {
            Ok(words) => self.words(words.as_str()),
            Err(_) => self.is_refused = true,
        }
    }

    /// Writes a number, and a text after it.
    pub fn count(&mut self, number: u64, after: &str) {
        self.made(format!(in self.alloc; "{number}{after}"));
    }

    /// Writes an element that has a text alone.
    pub fn leaf(&mut self, tag: Tag, class: Class, words: &str) {
        self.begin(tag, class);
        self.words(words);
        self.end(tag);
    }

    /// The same of a text that was made, if it could be.
    pub fn leaf_made(&mut self, tag: Tag, class: Class, made: Result<String, AllocError>) {
        self.begin(tag, class);
        self.made(made);
        self.end(tag);
    }

    /// The whole, behind what a document begins with, and that line.
    pub fn into_document(self, line: &str) -> Result<String, AllocError>
        ensures { IfOk result (λ text. IsDocument line.now (string_bytes text)) }
    {
        let Html {
            alloc,
            text,
            is_refused,
        } = self;
        if is_refused {
            return Err(AllocError);
        }
        let mut whole = String::new(alloc);
        push_heading(line, &mut whole)?;
        whole.push_str(text.as_str())?;
        Ok(whole)
    }
}

// Puts what a document begins with at the end, and that line.
fn push_heading(line: &str, out: &mut String) -> Result<(), AllocError>
    ensures { OnOk result (string_bytes out.new ≡ string_bytes out.old ++ heading_text line.now) }
{
    out.push_str(FRONT)?;
    push_begin(Tag::P, Class::Line, out)?;
    push_escaped(line, out)?;
    push_end(Tag::P, out)
}

// Puts the tag at the end with which an element begins.
fn push_begin(tag: Tag, class: Class, out: &mut String) -> Result<(), AllocError>
    ensures { OnOk result (string_bytes out.new ≡ string_bytes out.old ++ begin_text tag class) }
{
    let (name, drawn) = (tag.name(), class.text());
    write!(out, "<{name}{drawn}>")
}

// And that with which it ends.
fn push_end(tag: Tag, out: &mut String) -> Result<(), AllocError>
    ensures { OnOk result (string_bytes out.new ≡ string_bytes out.old ++ end_text tag) }
{
    let name = tag.name();
    write!(out, "</{name}>")
}

fn push_place(position: u64, out: &mut String) -> Result<(), AllocError>
    ensures { OnOk result (string_bytes out.new ≡ string_bytes out.old ++ place_text position) }
{
    write!(out, "<b id=p{position}>{position}</b>")
}

fn push_link(position: u64, out: &mut String) -> Result<(), AllocError>
    ensures { OnOk result (string_bytes out.new ≡ string_bytes out.old ++ link_text position) }
{
    write!(out, "<a href=#p{position}>{position}</a>")
}

// Puts a text at the end, with what stands for each octet of it.
fn push_escaped(text: &str, out: &mut String) -> Result<(), AllocError>
    ensures { OnOk result (string_bytes out.new ≡ string_bytes out.old ++ escaped text.now) }
{
    for octet in text.as_bytes() {
        push_octet(*octet, out)?;
    }
    Ok(())
}

// Puts what stands for an octet at the end.
fn push_octet(octet: u8, out: &mut String) -> Result<(), AllocError>
    ensures { OnOk result (string_bytes out.new ≡ string_bytes out.old ++ escaped_octet octet) }
{
    match octet {
        b'&' => out.push_str("&amp;"),
        b'<' => out.push_str("&lt;"),
        b'>' => out.push_str("&gt;"),
        b'"' => out.push_str("&quot;"),
        b'\'' => out.push_str("&#39;"),
        10 | 32..=126 => out.push(char::from(octet)),
        _ => out.push_str("&#65533;"),
    }
}
