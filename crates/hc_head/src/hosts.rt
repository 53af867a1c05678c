//! Hosts with their ports, as Host lines and the authorities of URIs have them.

ghost use Rattle.std.specs.Prelude.{◌≡◌, ℕ, ◌<◌, ◌≤◌, ◌==◌, ◌&&◌, nat_lt, slice_index, length, IfSome, IfNone, List, OnOk};
ghost use Rattle.std.specs.List.{list_all, prefix_len};
ghost use Rattle.std.specs.Char.{is_ascii_digit};
ghost use Rattle.hc_head.specs.HostScan.{FindsFront, authority_of};
ghost use Rattle.hc_head.specs.Hosts.{Authority, HasAuthority, IsAddress, IsHost, IsName, is_address_octet, is_default_port, is_name_octet, is_port, normal_host};

use hc_fields::Octets;
use std::alloc::AllocError;

/// The longest host, its brackets included and its port not.
const LONGEST_HOST: usize = 255;

/// A host, and its port with the colon, or nothing.
#[derive(Clone, Copy)]
pub(crate) struct HostAndPort<'a> {
    pub host: &'a [u8],
    pub port: &'a [u8],
}

fn is_name_octet(octet: u8) -> bool
    ensures { result ≡ is_name_octet octet }
{
    octet.is_ascii_alphanumeric() || b"-._~!$&'()*+,;=%".contains(&octet)
}

fn is_address_octet(octet: u8) -> bool
    ensures { result ≡ is_address_octet octet }
{
    octet.is_ascii_hexdigit() || octet == b':' || octet == b'.'
}

fn are_digits(text: &[u8]) -> bool
    ensures { result ≡ list_all is_ascii_digit text.now }
{
    text.iter().all(|octet| octet.is_ascii_digit())
}

fn name_len(text: &[u8]) -> usize
    ensures value { result ≡ prefix_len is_name_octet text.now }
    ensures within { result ≤ length text.now }
{
    text.iter()
        .take_while(|octet| is_name_octet(**octet))
        .count()
}

fn address_len(behind: &[u8]) -> usize
    ensures value { result ≡ prefix_len is_address_octet behind.now }
    ensures within { result ≤ length behind.now }
{
    behind
        .iter()
        .take_while(|octet| is_address_octet(**octet))
        .count()
}

fn name_end(text: &[u8]) -> Option<usize>
    ensures { FindsFront IsName text.now result }
{
    let len = name_len(text);
    if len > 0 { Some(len) } else { None }
}

/// Whether the bracket that closes an address stands behind so many octets.
fn is_closed(behind: &[u8], len: usize) -> bool
    ensures { result ≡ (nat_lt len (length behind.now) && slice_index behind.now len == 93) }
{
    len < behind.len() && behind[len] == b']'
}

fn address_end(text: &[u8]) -> Option<usize>
    ensures { FindsFront IsAddress text.now result }
{
    let (first, behind) = text.split_first()?;
    let len = address_len(behind);
    if *first == b'[' && len > 0 && is_closed(behind, len) {
        Some(len + 2)
    } else {
        None
    }
}

/// Where the host at the front ends, if one stands there.
fn host_end(text: &[u8]) -> Option<usize>
    ensures { FindsFront IsHost text.now result }
{
    let end = match name_end(text) {
        Some(end) => end,
        None => address_end(text)?,
    };
    if end <= LONGEST_HOST { Some(end) } else { None }
}

fn is_port(text: &[u8]) -> bool
    ensures { result ≡ is_port text.now }
{
    match text.split_first() {
        None => true,
        Some((first, digits)) => *first == b':' && digits.len() <= 5 && are_digits(digits),
    }
}

/// The host and the port that the text consists of.
pub(crate) fn host_and_port(text: &[u8]) -> Option<HostAndPort<'_>>
    ensures found { IfSome result (λ a. HasAuthority text.now (authority_of a)) }
    ensures none { IfNone result ((a : Authority) → ¬ (HasAuthority text.now a)) }
{
    let (host, port) = text.split_at(host_end(text)?);
    if is_port(port) {
        Some(HostAndPort { host, port })
    } else {
        None
    }
}

fn is_default_port(port: &[u8]) -> bool
    ensures { result ≡ is_default_port port.now }
{
    port == b":".as_slice() || port == b":80".as_slice()
}

/// Puts the host in lower case in the place of other octets, with its port where that says something.
pub(crate) fn put_host(host: &mut Octets, from: HostAndPort<'_>) -> Result<(), AllocError>
    ensures { OnOk result (host.new ≡ normal_host (authority_of from.entry)) }
{
    host.clear();
    host.extend_from_slice(from.host)?;
    host.make_ascii_lowercase();
    if !is_default_port(from.port) {
        host.extend_from_slice(from.port)?;
    }
    Ok(())
}
