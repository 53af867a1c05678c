//! The methods of requests.

ghost use Rattle.std.specs.Prelude.{◌≡◌, ◌||◌, codes, bytes_eq, nat_eq, IfOk};
ghost use Rattle.std.specs.Cmp.{partial_equiv_from_equiv};
ghost use Rattle.std.specs.Cmp.Lexicographic.{pointwise, nat_list_eq_equiv};
ghost use Rattle.hc_head.specs.Methods.{is_get, is_head, is_safe, is_unsafe};

use std::alloc::{AllocError, Global};
use std::marker::Model;

/// The method of a request, which contracts see as its octets (RFC 9110 section 9). Its case matters.
pub struct Method(Name);

// The methods that caches answer take no memory.
enum Name {
    Get,
    Head,
    Other(Vec<u8>),
}

impl Drop for Name {
    fn drop(self) {
        match self {
            Name::Get | Name::Head => {}
            Name::Other(octets) => drop(octets),
        }
    }
}

impl Drop for Method {
    fn drop(self) {
        let Method(name) = self;
        drop(name);
    }
}

impl Model for Method {
    ghost use Rattle.std.specs.Prelude.{ℕ, List};

    ghost Value = { List ℕ };

    ghost use Rattle.hc_head.specs.MethodNames.{name_octets};

    ghost view = { λ method. name_octets method.0 };
}

impl Method {
    /// GET
    pub const GET: Method = Method(Name::Get);

    /// HEAD
    pub const HEAD: Method = Method(Name::Head);

    /// The method of those octets, whatever they are: that they are a token is for its caller to see to.
    pub fn from_slice(alloc: Global, octets: &[u8]) -> Result<Method, AllocError>
        ensures { IfOk result (λ method. method ≡ octets.now) }
    {
        if octets == b"GET".as_slice() {
            return Ok(Method(Name::Get));
        }
        if octets == b"HEAD".as_slice() {
            return Ok(Method(Name::Head));
        }
        Ok(Method(Name::Other(Vec::from_slice(alloc, octets)?)))
    }

    /// The octets themselves.
    pub fn as_slice(&self) -> &[u8]
        ensures { result.now ≡ self.now }
    {
        match &self.0 {
            Name::Get => b"GET",
            Name::Head => b"HEAD",
            Name::Other(octets) => octets.as_slice(),
        }
    }
}

impl Clone for Method {
    ghost is_clone = { λ method copy. copy ≡ method };

    fn clone(&self) -> Result<Method, AllocError> {
        Ok(Method(match &self.0 {
            Name::Get => Name::Get,
            Name::Head => Name::Head,
            Name::Other(octets) => Name::Other(octets.clone()?),
        }))
    }
}

impl PartialEq for Method {
    ghost eq = { pointwise nat_eq };

    ghost laws = { partial_equiv_from_equiv nat_list_eq_equiv };

    fn eq(&self, other: &Method) -> bool {
        self.as_slice() == other.as_slice()
    }
}

impl Eq for Method {
    ghost laws = { nat_list_eq_equiv };
}

/// Whether the method is GET (RFC 9110 section 9.3.1). The case of a method matters.
pub fn is_get(method: &Method) -> bool
    ensures { result ≡ is_get method.now }
{
    method.as_slice() == b"GET".as_slice()
}

/// Whether the method is HEAD (RFC 9110 section 9.3.2). The case of a method matters.
pub fn is_head(method: &Method) -> bool
    ensures { result ≡ is_head method.now }
{
    names_head(method.as_slice())
}

/// Whether the octets are the method HEAD.
pub(crate) fn names_head(method: &[u8]) -> bool
    ensures { result ≡ is_head method.now }
{
    method == b"HEAD".as_slice()
}

/// Whether a cache may answer the method from what it stores.
pub fn is_get_or_head(method: &Method) -> bool
    ensures { result ≡ (is_get method.now || is_head method.now) }
{
    is_get(method) || is_head(method)
}

/// Whether the method is OPTIONS (RFC 9110 section 9.3.7).
pub(crate) fn is_options(method: &[u8]) -> bool
    ensures { result ≡ bytes_eq method.now (codes "OPTIONS") }
{
    method == b"OPTIONS".as_slice()
}

/// Whether the method is CONNECT (RFC 9110 section 9.3.6).
pub(crate) fn is_connect(method: &[u8]) -> bool
    ensures { result ≡ bytes_eq method.now (codes "CONNECT") }
{
    method == b"CONNECT".as_slice()
}

fn is_safe(method: &Method) -> bool
    ensures { result ≡ is_safe method.now }
{
    is_get(method)
        || is_head(method)
        || is_options(method.as_slice())
        || method.as_slice() == b"TRACE".as_slice()
}

/// Whether a request by this method may change what it is about (RFC 9110 section 9.2.1): any but
/// GET, HEAD, OPTIONS and TRACE, so that a method that hcache doesn't know counts as one.
pub fn is_unsafe(method: &Method) -> bool
    ensures { result ≡ is_unsafe method.now }
{
    !is_safe(method)
}
