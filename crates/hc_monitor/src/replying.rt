//! Replies to whoever watches over a proxy.

use crate::asking::Wanted;
use crate::page::PAGE;
use std::alloc::{AllocError, Global};
use std::io::Write;

/// What a reply has behind its head.
#[derive(Clone, Copy)]
pub enum Body<'a> {
    /// The numbers; none where memory was refused for them.
    Metrics(Option<&'a [u8]>),
    /// Whether it serves, and isn't about to stop.
    Health(bool),
    /// What can be told of no more than what was wanted.
    Fixed(Wanted),
}

/// The status, the kind of body, and the body.
#[derive(Clone, Copy)]
struct Told<'a> {
    status: &'a str,
    kind: &'a str,
    body: &'a [u8],
}

/// The kind of a line of text.
const TEXT: &str = "text/plain; charset=utf-8";

/// The kind of the page. What it has may be loaded from nowhere else.
const HTML: &str = "text/html; charset=utf-8\r\nContent-Security-Policy: default-src 'none'; \
style-src 'unsafe-inline'; script-src 'unsafe-inline'; connect-src 'self'";

/// The kind of the numbers: the text format of Prometheus.
const METRICS: &str = "text/plain; version=0.0.4; charset=utf-8";

/// A reply, behind which the connection is closed. It fails only where memory is refused.
pub fn reply(alloc: Global, body: Body<'_>) -> Result<Vec<u8>, AllocError> {
    let told = told_by(body);
    let mut out = Vec::with_capacity(alloc, told.body.len().saturating_add(512))?;
    push_head(told, &mut out)?;
    out.extend_from_slice(told.body)?;
    Ok(out)
}

/// Puts the head of a reply at the end.
fn push_head(told: Told<'_>, out: &mut Vec<u8>) -> Result<(), AllocError> {
    out.extend_from_slice(b"HTTP/1.1 ")?;
    out.extend_from_slice(told.status.as_bytes())?;
    out.extend_from_slice(b"\r\nContent-Type: ")?;
    out.extend_from_slice(told.kind.as_bytes())?;
    let length = told.body.len();
    write!(out, "\r\nContent-Length: {length}").map_err(|_| AllocError)?;
    out.extend_from_slice(
        b"\r\nCache-Control: no-store\r\nX-Content-Type-Options: nosniff\r\nConnection: close\r\n\r\n",
    )
}

/// What is told.
fn told_by<'a>(body: Body<'a>) -> Told<'a> {
    match body {
        Body::Metrics(Some(metrics)) => Told {
            status: "200 OK",
            kind: METRICS,
            body: metrics,
        },
        Body::Metrics(None) => line("503 Service Unavailable", b"out of memory\n"),
        Body::Health(true) => line("200 OK", b"serves\n"),
        Body::Health(false) => line("503 Service Unavailable", b"stops\n"),
        Body::Fixed(wanted) => fixed(wanted),
    }
}

/// What is told by what was wanted alone.
fn fixed(wanted: Wanted) -> Told<'static> {
    match wanted {
        Wanted::Page => Told {
            status: "200 OK",
            kind: HTML,
            body: PAGE.as_bytes(),
        },
        Wanted::Other => line("405 Method Not Allowed\r\nAllow: GET", b"GET alone\n"),
        Wanted::Nothing => line("404 Not Found", b"/, /metrics or /health\n"),
        _ => line("400 Bad Request", b"no request of HTTP/1.1\n"),
    }
}

/// A line of text.
fn line<'a>(status: &'a str, body: &'a [u8]) -> Told<'a> {
    Told {
        status,
        kind: TEXT,
        body,
    }
}
