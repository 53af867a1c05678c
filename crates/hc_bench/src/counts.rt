//! Two short messages, and what is counted while they are read.
ghost use Rattle.std.specs.Prelude.{◌<◌};

use crate::feeding::feed;
use crate::lines::counts_line;
use crate::messages::{chunked_response, long_request};
use crate::print::printed;
use crate::trouble::Trouble;
use hc_framing::{Kind, MessageHead};
use hc_head::{RequestHead, ResponseHead, Room};
use std::alloc::Global;
use std::io::Write;

/// How many octets the pieces have.
const SIZES: [usize; 3] = [1, 7, 8_192];

/// Reads a request and a response, and says what was counted, in a line for each size of the pieces.
pub fn count<W: Write>(alloc: Global, output: &mut W) -> Result<(), Trouble> {
    let request = long_request(alloc, 4, 80)?;
    counted::<RequestHead, _>(alloc, "request", Kind::Request, request.as_bytes(), output)?;
    let response = chunked_response(alloc, 3, 100)?;
    counted::<ResponseHead, _>(
        alloc,
        "response",
        Kind::Response { to_head: false },
        response.as_bytes(),
        output,
    )
}

fn counted<H: MessageHead, W: Write>(
    alloc: Global,
    name: &str,
    kind: Kind,
    octets: &[u8],
    output: &mut W,
) -> Result<(), Trouble> {
    for size in SIZES {
        printed(counted_line::<H>(alloc, name, kind, octets, size)?, output)?;
    }
    Ok(())
}

fn counted_line<H: MessageHead>(
    alloc: Global,
    name: &str,
    kind: Kind,
    octets: &[u8],
    size: usize,
) -> Result<String, Trouble>
    requires { 0 < size }
{
    let fed = feed::<H>(alloc, kind, Room::RECORDED, octets, size)?;
    Ok(counts_line(alloc, name, size, &fed)?)
}
