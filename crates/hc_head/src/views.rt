//! Heads that are lent, which contracts see as those that are owned.

ghost use Rattle.std.specs.Prelude.{◌≡◌, IfOk};
ghost use Rattle.hc_head.specs.declared.head.RequestHead.{RequestHead};
ghost use Rattle.hc_head.specs.declared.head.ResponseHead.{ResponseHead};

use crate::head::{RequestHead, ResponseHead, Version};
use crate::methods::{Method, names_head};
use crate::statuses::StatusCode;
use hc_fields::{FieldsView, Lines, Octets};
use std::alloc::{AllocError, Global};
use std::marker::Model;

/// The head of a request that is lent. Contracts see it as a head that owns its parts.
#[derive(Drop)]
pub struct RequestHeadView<'a> {
    /// The octets of the method, in its own case (RFC 9110 section 9).
    pub method: &'a [u8],
    /// The target as it was written (RFC 9112 section 3.2).
    pub target: &'a [u8],
    /// The version of whoever sent it.
    pub version: Version,
    /// The field lines, in order.
    pub fields: FieldsView<'a>,
}

impl<'a> Model for RequestHeadView<'a> {
    ghost use Rattle.hc_head.specs.declared.head.RequestHead.{RequestHead};

    ghost Value = { RequestHead };

    ghost view = { λ v. record { method = v.method.now; target = v.target.now; version = v.version; fields = v.fields } };
}

/// The head of a response that is lent. Contracts see it as a head that owns its lines.
#[derive(Drop)]
pub struct ResponseHeadView<'a> {
    /// From 100 to 999 (RFC 9110 section 15).
    pub status: StatusCode,
    /// The version of whoever sent it.
    pub version: Version,
    /// The field lines, in order.
    pub fields: FieldsView<'a>,
}

impl<'a> Model for ResponseHeadView<'a> {
    ghost use Rattle.hc_head.specs.declared.head.ResponseHead.{ResponseHead};

    ghost Value = { ResponseHead };

    ghost view = { λ v. record { status = v.status; version = v.version; fields = v.fields } };
}

impl<'a> RequestHeadView<'a> {
    ghost use Rattle.hc_head.specs.Methods.{is_head};

    /// The same head in memory of its own.
    pub fn copy(&self, alloc: Global) -> Result<RequestHead, AllocError>
        ensures { IfOk result (λ head. head ≡ self.now) }
    {
        Ok(RequestHead {
            method: Method::from_slice(alloc, self.method)?,
            target: Octets::from_slice(alloc, self.target)?,
            version: self.version,
            fields: self.fields.copy(alloc)?,
        })
    }

    /// Whether the method is HEAD (RFC 9110 section 9.3.2).
    pub fn is_head(&self) -> bool
        ensures { result ≡ is_head self.now.method }
    {
        names_head(self.method)
    }
}

impl<'a> ResponseHeadView<'a> {
    /// The same head in memory of its own.
    pub fn copy(&self, alloc: Global) -> Result<ResponseHead, AllocError>
        ensures { IfOk result (λ head. head ≡ self.now) }
    {
        Ok(ResponseHead {
            status: self.status,
            version: self.version,
            fields: self.fields.copy(alloc)?,
        })
    }
}

impl RequestHead {
    /// The head, lent.
    pub fn lent(&self) -> RequestHeadView<'_>
        ensures { result ≡ self.now }
    {
        RequestHeadView {
            method: self.method.as_slice(),
            target: self.target.as_slice(),
            version: self.version,
            fields: self.fields.lent(),
        }
    }
}

impl ResponseHead {
    /// The head, lent.
    pub fn lent(&self) -> ResponseHeadView<'_>
        ensures { result ≡ self.now }
    {
        ResponseHeadView {
            status: self.status,
            version: self.version,
            fields: self.fields.lent(),
        }
    }
}
