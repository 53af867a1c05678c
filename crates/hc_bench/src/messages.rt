//! Messages of any length, made in memory.
ghost use Rattle.std.specs.Prelude.{◌≡◌, IfOk, string_bytes};
ghost use Rattle.hc_bench.specs.Messages.{chunked_response, long_request};

use std::alloc::{AllocError, Global};

/// A response whose body is so many chunks of so many octets each.
pub fn chunked_response(alloc: Global, chunks: usize, size: usize) -> Result<String, AllocError>
    ensures { IfOk result (λ text. string_bytes text ≡ chunked_response chunks size) }
{
    let data = "x".repeat(alloc, size)?;
    let chunk = format!(in alloc; "{size:x}\r\n{data}\r\n")?;
    let body = chunk.as_str().repeat(alloc, chunks)?;
    format!(in alloc; "HTTP/1.1 200 \r\ntransfer-encoding: chunked\r\n\r\n{body}0\r\n\r\n")
}

/// A request without a body that has so many fields beside the Host line, with values of so many
/// octets each.
pub fn long_request(alloc: Global, fields: usize, length: usize) -> Result<String, AllocError>
    ensures { IfOk result (λ text. string_bytes text ≡ long_request fields length) }
{
    let value = "x".repeat(alloc, length)?;
    let line = format!(in alloc; "long: {value}\r\n")?;
    let lines = line.as_str().repeat(alloc, fields)?;
    format!(in alloc;
        "GET /index.html HTTP/1.1\r\nhost: www.a-long-name.example:8080\r\n{lines}\r\n"
    )
}
