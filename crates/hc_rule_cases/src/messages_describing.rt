//! Heads, messages and faults as text.

use hc_cases::{show, show_line, show_short};
use hc_fields::Fields;
use hc_framing::{FrameFault, Kind, Message, MessageHead, whole_request, whole_response};
use hc_head::{HeadFault, RequestHead, ResponseHead, Version};
use std::alloc::{AllocError, Global};
use std::fmt::Write;

/// A head that can be shown, of a message that can be read whole.
pub trait ShownHead: MessageHead {
    /// Writes its first line and its fields.
    fn show(&self, out: &mut String) -> Result<(), AllocError>;

    /// The message of that kind that the octets are.
    fn whole(alloc: Global, octets: &[u8], kind: Kind) -> Result<Message<Self>, FrameFault>;
}

impl ShownHead for RequestHead {
    fn show(&self, out: &mut String) -> Result<(), AllocError> {
        show_short(self.method.as_slice(), out)?;
        out.push_str(" ")?;
        show(self.target.as_slice(), out)?;
        out.push_str(" ")?;
        out.push_str(version(self.version))?;
        lines(&self.fields, out)
    }

    fn whole(alloc: Global, octets: &[u8], _kind: Kind) -> Result<Message<Self>, FrameFault> {
        whole_request(alloc, octets)
    }
}

impl ShownHead for ResponseHead {
    fn show(&self, out: &mut String) -> Result<(), AllocError> {
        let status = self.status.as_u16();
        write!(out, "{status} ")?;
        out.push_str(version(self.version))?;
        lines(&self.fields, out)
    }

    fn whole(alloc: Global, octets: &[u8], kind: Kind) -> Result<Message<Self>, FrameFault> {
        whole_response(alloc, octets, kind == Kind::Response { to_head: true })
    }
}

fn version(version: Version) -> &'static str {
    match version {
        Version::Http10 => "HTTP/1.0",
        Version::Http11 => "HTTP/1.1",
    }
}

/// Writes the lines of fields, each behind a semicolon.
fn lines(fields: &Fields, out: &mut String) -> Result<(), AllocError> {
    for line in fields.lines() {
        out.push_str("; ")?;
        show_line(line, out)?;
    }
    Ok(())
}

/// Writes a message.
pub fn message<H: ShownHead>(message: &Message<H>, out: &mut String) -> Result<(), AllocError> {
    message.head.show(out)?;
    if message.body.is_empty() {
        return out.push_str("; no body");
    }
    out.push_str("; body ")?;
    show(message.body.as_slice(), out)
}

/// Writes which fault it is.
pub fn head_fault(fault: HeadFault, out: &mut String) -> Result<(), AllocError> {
    write!(out, "fault {fault:?}")
}

/// Writes which fault it is, and of a head's which that is.
pub fn frame_fault(fault: FrameFault, out: &mut String) -> Result<(), AllocError> {
    match fault {
        FrameFault::Head(fault) => {
            out.push_str("fault Head, head ")?;
            head_fault(fault, out)
        }
        fault => write!(out, "fault {fault:?}"),
    }
}
