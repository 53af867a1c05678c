//! Writing heads.

ghost use Rattle.std.specs.Prelude.{◌≡◌, ◌++◌, codes, decimal, flat_map, IfOk, OnOk};
ghost use Rattle.hc_head.specs.Texts.{version_text, request_line, status_line, field_line, length_field, with_length, section_text, request_head_text, response_head_text};

use crate::head::{RequestHead, ResponseHead, Version};
use hc_fields::{Field, Octets};
use std::alloc::{AllocError, Global};
use std::io::Write;

fn version_text(version: Version) -> &'static str
    ensures { result.now ≡ version_text version }
{
    match version {
        Version::Http10 => "HTTP/1.0",
        Version::Http11 => "HTTP/1.1",
    }
}

fn write_request_line(text: &mut Vec<u8>, head: &RequestHead) -> Result<(), AllocError>
    ensures { OnOk result (text.new.items ≡ text.old.items ++ request_line head.now) }
{
    text.extend_from_slice(head.method.as_slice())?;
    text.extend_from_slice(b" ")?;
    text.extend_from_slice(head.target.as_slice())?;
    text.extend_from_slice(b" ")?;
    text.extend_from_slice(version_text(head.version).as_bytes())?;
    text.extend_from_slice(b"\r\n")
}

fn write_status_line(text: &mut Vec<u8>, head: &ResponseHead) -> Result<(), AllocError>
    ensures { OnOk result (text.new.items ≡ text.old.items ++ status_line head.now) }
{
    let version = version_text(head.version);
    let status = head.status.as_u16();
    write!(text, "{version} {status} \r\n").map_err(|_| AllocError)
}

fn write_field(text: &mut Vec<u8>, field: &Field) -> Result<(), AllocError>
    ensures { OnOk result (text.new.items ≡ text.old.items ++ field_line field.now) }
{
    text.extend_from_slice(field.name.as_slice())?;
    text.extend_from_slice(b": ")?;
    text.extend_from_slice(field.value.as_slice())?;
    text.extend_from_slice(b"\r\n")
}

fn write_fields(text: &mut Vec<u8>, fields: &[Field]) -> Result<(), AllocError>
    ensures { OnOk result (text.new.items ≡ text.old.items ++ flat_map field_line fields.now) }
{
    for field in fields {
        write_field(text, field)?;
    }
    Ok(())
}

fn write_length(text: &mut Vec<u8>, length: u64) -> Result<(), AllocError>
    ensures { OnOk result (text.new.items ≡ text.old.items ++ field_line (length_field length)) }
{
    write!(text, "content-length: {length}\r\n").map_err(|_| AllocError)
}

fn write_section(
    text: &mut Vec<u8>,
    fields: &[Field],
    length: Option<u64>,
) -> Result<(), AllocError>
    ensures { OnOk result (text.new.items
        ≡ text.old.items ++ section_text (with_length fields.now length)) }
{
    write_fields(text, fields)?;
    if let Some(length) = length {
        write_length(text, length)?;
    }
    text.extend_from_slice(b"\r\n")
}

/// The text of a request's head, with a last line for the length of the body where that is given.
pub fn write_request(
    alloc: Global,
    head: &RequestHead,
    length: Option<u64>,
) -> Result<Octets, AllocError>
    ensures { IfOk result (λ text. text ≡ request_head_text head.now length) }
{
    let mut text = Vec::new(alloc);
    write_request_line(&mut text, head)?;
    write_section(&mut text, head.fields.lines(), length)?;
    Ok(Octets::from_vec(text))
}

/// The text of a response's head, with an empty reason phrase and a last line for the length of the
/// body where that is given.
pub fn write_response(
    alloc: Global,
    head: &ResponseHead,
    length: Option<u64>,
) -> Result<Octets, AllocError>
    ensures { IfOk result (λ text. text ≡ response_head_text head.now length) }
{
    let mut text = Vec::new(alloc);
    write_status_line(&mut text, head)?;
    write_section(&mut text, head.fields.lines(), length)?;
    Ok(Octets::from_vec(text))
}
