//! The fields that a message loses when it is forwarded or stored.

ghost use Rattle.std.specs.Prelude.{◌≡◌};
ghost use Rattle.std.specs.List.{list_any};
ghost use Rattle.std.specs.Str.{bytes_eq};
ghost use Rattle.hc_fields.specs.Connection.{is_for_connection, is_for_proxy, is_named_by_connection, removed, left_out_of_store};

use crate::fields::Fields;
use crate::views::{FieldsView, Lines};

/// The fields that are for one connection alone, whatever Connection names.
const FOR_CONNECTION: [&[u8]; 7] = [
    b"connection",
    b"proxy-connection",
    b"keep-alive",
    b"te",
    b"transfer-encoding",
    b"upgrade",
    b"trailer",
];

/// The fields that are for a proxy alone.
const FOR_PROXY: [&[u8]; 3] = [
    b"proxy-authenticate",
    b"proxy-authentication-info",
    b"proxy-authorization",
];

/// Whether the name is among those.
pub fn is_among(names: &[&[u8]], name: &[u8]) -> bool
    ensures { result ≡ list_any (λ known. bytes_eq known.now name.now) names.now }
{
    names.iter().any(|known| *known == name)
}

fn is_for_connection(name: &[u8]) -> bool
    ensures { result ≡ is_for_connection name.now }
{
    is_among(&FOR_CONNECTION, name)
}

fn is_for_proxy(name: &[u8]) -> bool
    ensures { result ≡ is_for_proxy name.now }
{
    is_among(&FOR_PROXY, name)
}

impl<'a> FieldsView<'a> {
    /// Whether a member of a Connection line names that field, in any case.
    fn is_named_by_connection(&self, name: &[u8]) -> bool
        ensures { result ≡ is_named_by_connection name.now self.now }
    {
        self.members(b"connection")
            .any(|member| member.eq_ignore_ascii_case(name))
    }

    /// Whether a field of that name is left out when a message with these lines is forwarded (RFC
    /// 9110 section 7.6.1). The name is one in lower case.
    pub fn removed(&self, name: &[u8]) -> bool
        ensures { result ≡ removed name.now self.now }
    {
        is_for_connection(name) || self.is_named_by_connection(name)
    }

    /// Whether a field of that name is left out when a response with these lines is stored (RFC
    /// 9111 section 3.1): what is removed, and what is for a proxy. The name is one in lower case.
    pub fn left_out_of_store(&self, name: &[u8]) -> bool
        ensures { result ≡ left_out_of_store name.now self.now }
    {
        self.removed(name) || is_for_proxy(name)
    }
}

impl Fields {
    /// Whether a field of that name is left out when a message with these lines is forwarded, as of
    /// lines that are lent.
    pub fn removed(&self, name: &[u8]) -> bool
        ensures { result ≡ removed name.now self.now }
    {
        self.lent().removed(name)
    }

    /// Whether a field of that name is left out when a response with these lines is stored, as of
    /// lines that are lent.
    pub fn left_out_of_store(&self, name: &[u8]) -> bool
        ensures { result ≡ left_out_of_store name.now self.now }
    {
        self.lent().left_out_of_store(name)
    }
}
