//! What requests are about.

use crate::blocks::fields_of_lines;
use crate::messages_describing::head_fault;
use crate::starts::method_of;
use hc_cases::{Case, Unanswered, show, yes_or_no};
use hc_fields::Octets;
use hc_head::{HeadFault, RequestHead, Target, Version};
use std::alloc::{AllocError, Global};

/// A request with that method, that target and those lines.
pub fn head(
    alloc: Global,
    method: &[u8],
    target: &[u8],
    lines: &[Vec<u8>],
) -> Result<RequestHead, Unanswered> {
    let fields = fields_of_lines(alloc, lines)?;
    let target = Octets::from_slice(alloc, target)?;
    let method = method_of(alloc, method)?;
    Ok(RequestHead {
        method,
        target,
        version: Version::Http11,
        fields,
    })
}

/// Writes the host and the path that a request is for.
pub fn target(case: &Case<'_>, out: &mut String) -> Result<(), Unanswered> {
    let [method, path, lines @ ..] = case.about else {
        return Err(Unanswered::Unknown);
    };
    let head = head(case.alloc, method, path, lines)?;
    Ok(told(case.alloc, &head, out)?)
}

fn told(alloc: Global, head: &RequestHead, out: &mut String) -> Result<(), AllocError> {
    match found(alloc, head) {
        Ok(target) => described(&target, out),
        Err(fault) => head_fault(fault, out),
    }
}

fn found(alloc: Global, head: &RequestHead) -> Result<Target, HeadFault> {
    Ok(hc_head::target(alloc, head)?.copy(alloc)?)
}

fn described(target: &Target, out: &mut String) -> Result<(), AllocError> {
    out.push_str("host ")?;
    show(target.host.as_slice(), out)?;
    out.push_str("; path ")?;
    show(target.path.as_slice(), out)
}

/// Writes whether a method is unsafe.
pub fn is_unsafe(case: &Case<'_>, out: &mut String) -> Result<(), Unanswered> {
    let [method] = case.about else {
        return Err(Unanswered::Unknown);
    };
    let method = method_of(case.alloc, method)?;
    let is = hc_head::is_unsafe(&method);
    drop(method);
    Ok(yes_or_no(is, out)?)
}
