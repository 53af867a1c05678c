//! Heads that are read where they lie.

ghost use Rattle.std.specs.Prelude.{◌≡◌, ◌-◌, ◌≤◌, All, bytes_eq, map, OnOk};
ghost use Rattle.std.specs.Str.{str_to_ascii_lowercase};
ghost use Rattle.hc_fields.specs.Views.{piece};
ghost use Rattle.hc_head.specs.Places.{AreOrdered, line_of, without_named};

use crate::fault::HeadFault;
use crate::head::{Room, Step, Version};
use crate::parts::version_of;
use crate::requests::find_request;
use crate::responses::find_response;
use crate::statuses::StatusCode;
use crate::views::{RequestHeadView, ResponseHeadView};
use hc_fields::{FieldsView, LineSpan, piece};
use httparse::spans::{EMPTY_HEADER_SPAN, HeaderSpan, Span};
use std::alloc::{AllocError, Global};

/// Where a part of a head stands in its octets.
#[derive(Clone, Copy)]
struct Place {
    start: usize,
    len: usize,
}

/// Where the parts of a head stand in octets that somebody else keeps, with the octets of the head in lower case for the
/// names of its lines. The memory serves one head after another.
pub struct HeadPlaces {
    alloc: Global,
    method: Place,
    target: Place,
    status: StatusCode,
    version: Version,
    names: Vec<u8>,
    lines: Vec<LineSpan>,
    /// What the lines were found by.
    spans: Vec<HeaderSpan>,
}

impl Drop for HeadPlaces {
    fn drop(self) {
        let HeadPlaces {
            alloc: _,
            method: _,
            target: _,
            status: _,
            version: _,
            names,
            lines,
            spans,
        } = self;
        drop(names);
        drop(lines);
        drop(spans);
    }
}

fn place_of(span: Span) -> Place
    requires { span.start ≤ span.end }
    ensures start { result.start ≡ span.start }
    ensures len { result.len ≡ span.end - span.start }
{
    Place {
        start: span.start,
        len: span.end - span.start,
    }
}

fn line_of(span: HeaderSpan) -> LineSpan
    requires name { span.name.start ≤ span.name.end }
    requires value { span.value.start ≤ span.value.end }
    ensures { result ≡ line_of span }
{
    LineSpan {
        name_start: span.name.start,
        name_len: span.name.end - span.name.start,
        value_start: span.value.start,
        value_len: span.value.end - span.value.start,
    }
}

/// Keeps the octets in lower case, in place of others.
fn lower_into(names: &mut Vec<u8>, octets: &[u8]) -> Result<(), AllocError>
    ensures { OnOk result (names.new.items ≡ str_to_ascii_lowercase octets.now) }
{
    names.truncate(0);
    names.extend_from_slice(octets)?;
    names.as_mut_slice().make_ascii_lowercase();
    Ok(())
}

/// Keeps where the lines stand that the spans cover, in place of others.
fn lines_into(lines: &mut Vec<LineSpan>, spans: &[HeaderSpan]) -> Result<(), AllocError>
    requires { All AreOrdered spans.now }
    ensures { OnOk result (lines.new.items ≡ map line_of spans.now) }
{
    lines.truncate(0);
    for span in spans {
        lines.push(line_of(*span))?;
    }
    Ok(())
}

/// Whether the line has that name.
fn is_named(names: &[u8], name: &[u8], line: &LineSpan) -> bool
    ensures { result ≡ bytes_eq (piece names.now line.now.name_start line.now.name_len) name.now }
{
    piece(names, line.name_start, line.name_len) == name
}

/// Leaves out the lines of that name.
fn remove_lines(lines: &mut Vec<LineSpan>, names: &[u8], name: &[u8])
    ensures { lines.new.items ≡ without_named names.now name.now lines.old.items }
{
    lines.retain(|line| !is_named(names, name, line))
}

impl HeadPlaces {
    ghost use Rattle.std.specs.Prelude.{◌≡◌, ℕ, List, length, map, take, IfOk, OnOk};
    ghost use Rattle.httparse.specs.Spans.{IsSectionWithin, RequestExceeds, ResponseExceeds};
    ghost use Rattle.hc_fields.specs.Values.{without};
    ghost use Rattle.hc_head.specs.Heads.{BeginsRequestHead, BeginsResponseHead, field_at, request_field_count, response_field_count};
    ghost use Rattle.hc_head.specs.Reading.{GivesHead, CanBecomeHead, OnUnfinished, OnTooManyFields};
    ghost use Rattle.hc_head.specs.Places.{lines_at, request_at, response_at, told};

    /// Places that no head was found for. They take no memory until one is looked for.
    pub fn new(alloc: Global) -> Self {
        let nowhere = Place { start: 0, len: 0 };
        HeadPlaces {
            alloc,
            method: nowhere,
            target: nowhere,
            status: StatusCode::OK,
            version: Version::Http11,
            names: Vec::new(alloc),
            lines: Vec::new(alloc),
            spans: Vec::new(alloc),
        }
    }

    /// Has so many spans for lines to be found by.
    fn make_room(&mut self, fields: usize) -> Result<(), AllocError>
        ensures { OnOk result (length self.new.spans.items ≡ fields) }
    {
        if self.spans.len() != fields {
            self.spans = vec![in self.alloc; EMPTY_HEADER_SPAN; fields]?;
        }
        Ok(())
    }

    /// Keeps where so many lines stand in a head of that length.
    fn keep_lines(&mut self, octets: &[u8], len: usize, count: usize) -> Result<(), AllocError>
        requires { IsSectionWithin octets.now self.old.spans.items len count }
        ensures { OnOk result (lines_at self.new octets.now ≡ map (field_at octets.now) (take count self.old.spans.items)) }
    {
        lower_into(&mut self.names, &octets[..len])?;
        lines_into(&mut self.lines, &self.spans[..count])?;
        Ok(())
    }

    /// Finds where the parts of the request's head stand that begins the octets, of which no more than the room are looked
    /// at. How long the head is is told, or nothing where it hasn't ended.
    pub fn find_request(&mut self, octets: &[u8], room: Room) -> Result<Option<usize>, HeadFault>
        // Each result stands only where it says so.
        ensures gives { GivesHead BeginsRequestHead request_field_count (told (request_at self.new octets.now) result)
            octets.now room }
        // More octets are wanted only where they can make a head.
        ensures unfinished { OnUnfinished (told (request_at self.new octets.now) result)
            (CanBecomeHead BeginsRequestHead (take room.octets octets.now)) }
        // Too many fields are told only behind a start line and more fields than the room, each of them valid.
        ensures too_many { OnTooManyFields (told (request_at self.new octets.now) result)
            (RequestExceeds room.fields (take room.octets octets.now)) }
    {
        self.make_room(room.fields)?;
        match find_request(octets, room, self.spans.as_mut_slice()) {
            Err(fault) => Err(fault),
            Ok(Step::More) => Ok(None),
            Ok(Step::Whole(found, len)) => {
                self.keep_lines(octets, len, found.headers)?;
                self.method = place_of(found.method);
                self.target = place_of(found.path);
                self.version = version_of(found.version);
                Ok(Some(len))
            }
        }
    }

    /// The same of a response.
    pub fn find_response(&mut self, octets: &[u8], room: Room) -> Result<Option<usize>, HeadFault>
        // Each result stands only where it says so.
        ensures gives { GivesHead BeginsResponseHead response_field_count (told (response_at self.new octets.now) result)
            octets.now room }
        // More octets are wanted only where they can make a head.
        ensures unfinished { OnUnfinished (told (response_at self.new octets.now) result)
            (CanBecomeHead BeginsResponseHead (take room.octets octets.now)) }
        // Too many fields are told only behind a start line and more fields than the room, each of them valid.
        ensures too_many { OnTooManyFields (told (response_at self.new octets.now) result)
            (ResponseExceeds room.fields (take room.octets octets.now)) }
    {
        self.make_room(room.fields)?;
        match find_response(octets, room, self.spans.as_mut_slice()) {
            Err(fault) => Err(fault),
            Ok(Step::More) => Ok(None),
            Ok(Step::Whole(found, len)) => {
                self.keep_lines(octets, len, found.spans.headers)?;
                self.status = found.status;
                self.version = version_of(found.spans.version);
                Ok(Some(len))
            }
        }
    }

    /// The head of the request that stands there in the octets.
    pub fn request<'a>(&'a self, octets: &'a [u8]) -> RequestHeadView<'a>
        ensures { result ≡ request_at self.now octets.now }
    {
        RequestHeadView {
            method: piece(octets, self.method.start, self.method.len),
            target: piece(octets, self.target.start, self.target.len),
            version: self.version,
            fields: self.fields(octets),
        }
    }

    /// The head of the response that stands there in the octets.
    pub fn response<'a>(&'a self, octets: &'a [u8]) -> ResponseHeadView<'a>
        ensures { result ≡ response_at self.now octets.now }
    {
        ResponseHeadView {
            status: self.status,
            version: self.version,
            fields: self.fields(octets),
        }
    }

    /// The field lines that stand there in the octets.
    fn fields<'a>(&'a self, octets: &'a [u8]) -> FieldsView<'a>
        ensures { result ≡ lines_at self.now octets.now }
    {
        FieldsView::at(self.names.as_slice(), octets, self.lines.as_slice())
    }

    /// Leaves out the lines of that name, which is one in lower case.
    pub fn remove(&mut self, name: &[u8])
        ensures lines { (octets : List ℕ) → lines_at self.new octets ≡ without name.now (lines_at self.old octets) }
        ensures stay { self.new ≡ record self.old { lines = self.new.lines } }
    {
        remove_lines(&mut self.lines, self.names.as_slice(), name)
    }
}
