ghost use Rattle.std.specs.Prelude.{◌≡◌, IfOk};
ghost use Rattle.hc_head.specs.declared.head.Target.{Target};

use crate::methods::Method;
use crate::statuses::StatusCode;
use hc_fields::{Fields, Octets};
use std::alloc::{AllocError, Global};

/// The version of a message (RFC 9112 section 2.3).
#[derive(Clone, Copy, PartialEq, Eq)]
pub enum Version {
    /// HTTP/1.0.
    Http10,
    /// HTTP/1.1.
    Http11,
}

/// The head of a request: its request line and its field lines (RFC 9112 section 3).
pub struct RequestHead {
    /// The method, in its own case (RFC 9110 section 9).
    pub method: Method,
    /// The target as it was written (RFC 9112 section 3.2).
    pub target: Octets,
    /// The version of whoever sent it.
    pub version: Version,
    /// The field lines, in order.
    pub fields: Fields,
}

impl Drop for RequestHead {
    fn drop(self) {
        let RequestHead {
            method,
            target,
            version: _,
            fields,
        } = self;
        drop(method);
        drop(target);
        drop(fields);
    }
}

/// The head of a response: its status line, without the reason phrase, and its field lines
/// (RFC 9112 section 4).
pub struct ResponseHead {
    /// From 100 to 999 (RFC 9110 section 15).
    pub status: StatusCode,
    /// The version of whoever sent it.
    pub version: Version,
    /// The field lines, in order.
    pub fields: Fields,
}

impl Drop for ResponseHead {
    fn drop(self) {
        let ResponseHead {
            status: _,
            version: _,
            fields,
        } = self;
        drop(fields);
    }
}

/// What a request is about: a host with its port, and a path with its query (RFC 9112 section 3.3).
/// Targets are compared by the host and then by the path, octet by octet.
#[derive(PartialEq, Eq, PartialOrd, Ord, Hash)]
pub struct Target {
    /// The host in lower case, and its port unless that is 80.
    pub host: Octets,
    /// The path with its query, as it was written.
    pub path: Octets,
}

impl Drop for Target {
    fn drop(self) {
        let Target { host, path } = self;
        drop(host);
        drop(path);
    }
}

impl Target {
    /// The same target in memory of its own.
    pub fn copy(&self, alloc: Global) -> Result<Target, AllocError>
        ensures { IfOk result (λ t. t ≡ self.now) }
    {
        Ok(Target {
            host: self.host.copy(alloc)?,
            path: self.path.copy(alloc)?,
        })
    }
}

/// How many octets a head may have, and how many fields.
#[derive(Clone, Copy, PartialEq, Eq)]
pub struct Room {
    /// The most octets of a head.
    pub octets: usize,
    /// The most field lines of a head.
    pub fields: usize,
}

impl Room {
    /// The room for heads of messages that come over a connection.
    pub const RECEIVED: Room = Room {
        octets: 65_536,
        fields: 100,
    };

    /// The room for heads of messages in a transcript.
    pub const RECORDED: Room = Room {
        octets: 131_072,
        fields: 128,
    };

    /// The same room, but for `FEW` fields.
    pub(crate) fn for_few(self) -> Room
        ensures { (result.octets ≡ self.octets) × (result.fields ≡ 24) }
    {
        Room {
            octets: self.octets,
            fields: FEW,
        }
    }
}

/// Of so many fields a head is read without memory for their places. Most heads have no more.
pub(crate) const FEW: usize = 24;

/// Whether a head has come.
#[derive(Drop)]
pub enum Step<H> {
    /// It may still come.
    More,
    /// The head, and how many octets it takes.
    Whole(H, usize),
}
