//! Responses of one host, as a store is given them.
ghost use Rattle.std.specs.Prelude.{◌≡◌, ◌∷◌, ◌++◌, [], IfOk, OnOk};
ghost use Rattle.hc_fields.specs.Values.{line};
ghost use Rattle.hc_bench.specs.Responses.{forward, path, request_fields, response, response_fields, stored_of, target_of};

use hc_fields::{Field, Fields, Octets, SharedOctets};
use hc_framing::Message;
use hc_head::{Method, RequestHead, ResponseHead, StatusCode, Target, Version};
use hc_update::{Stored, initial};
use std::alloc::{AllocError, Global};

/// The moment of each request and response, in seconds since 1970, which the dates tell too.
pub const MOMENT: u64 = 1_000;

/// How many octets a body has.
const BODY: usize = 100;

/// The target of that number.
pub fn target_of(alloc: Global, number: usize) -> Result<Target, AllocError>
    ensures { IfOk result (λ target. target ≡ target_of number) }
{
    Ok(Target {
        host: Octets::from_slice(alloc, b"h")?,
        path: path(alloc, number)?,
    })
}

/// The fields of each request.
pub fn request_fields(alloc: Global) -> Result<Fields, AllocError>
    ensures { IfOk result (λ fields. fields ≡ request_fields) }
{
    let mut fields = Fields::new(alloc);
    push(alloc, &mut fields, b"host", b"h")?;
    Ok(fields)
}

/// What is stored of the response for the target of that number.
#[tactic(auto, unfolding(crate::specs::Responses::stored_of))]
pub fn stored_of(alloc: Global, number: usize) -> Result<Stored, AllocError>
    ensures { IfOk result (λ stored. stored ≡ stored_of number) }
{
    let forward = forward(alloc, number)?;
    let response = response(alloc)?;
    initial(alloc, forward, MOMENT, response, MOMENT)
}

// The path of that number.
fn path(alloc: Global, number: usize) -> Result<Octets, AllocError>
    ensures { IfOk result (λ octets. octets ≡ path number) }
{
    let text = format!(in alloc; "/{number}")?;
    Ok(Octets::from_vec(text.into_bytes()))
}

/// A GET for the target of that number.
pub fn forward(alloc: Global, number: usize) -> Result<RequestHead, AllocError>
    ensures { IfOk result (λ head. head ≡ forward number) }
{
    Ok(RequestHead {
        method: Method::GET,
        target: path(alloc, number)?,
        version: Version::Http11,
        fields: request_fields(alloc)?,
    })
}

/// The fields of each response.
pub fn response_fields(alloc: Global) -> Result<Fields, AllocError>
    ensures { IfOk result (λ fields. fields ≡ response_fields) }
{
    let mut fields = Fields::new(alloc);
    push(
        alloc,
        &mut fields,
        b"date",
        b"Thu, 01 Jan 1970 00:16:40 GMT",
    )?;
    push(alloc, &mut fields, b"cache-control", b"max-age=600")?;
    push(
        alloc,
        &mut fields,
        b"last-modified",
        b"Thu, 01 Jan 1970 00:00:00 GMT",
    )?;
    Ok(fields)
}

// Puts a line behind the others.
fn push(alloc: Global, fields: &mut Fields, name: &[u8], value: &[u8]) -> Result<(), AllocError>
    ensures { OnOk result (fields.new ≡ fields.old ++ line name.now value.now ∷ []) }
{
    let field = Field::new(alloc, name, value)?;
    fields.push(field)
}

// A response that is fresh for ten minutes.
fn response(alloc: Global) -> Result<Message<ResponseHead>, AllocError>
    ensures { IfOk result (λ message. message ≡ response) }
{
    let body = "x".repeat(alloc, BODY)?;
    Ok(Message {
        head: ResponseHead {
            status: StatusCode::OK,
            version: Version::Http11,
            fields: response_fields(alloc)?,
        },
        body: SharedOctets::from_vec(alloc, body.into_bytes())?,
    })
}
