//! What is secret, and where an octet stands in a text that may have URIs.

ghost use Rattle.std.specs.Prelude.{◌≡◌, ◌≤◌, ◌==◌, length, not};
ghost use Rattle.std.specs.List.{before_last, list_any, prefix_len, suffix_len};
ghost use Rattle.std.specs.Str.{str_eq_ignore_ascii_case};
ghost use Rattle.hc_shown.specs.Hidden.{begins_parameter, begun_behind, ends_authority, ends_uri, ends_value, front, is_hidden, name_length, names_secret, parameter_behind, place_behind, userinfo_length};
ghost use Rattle.hc_shown.specs.Secrets.{has_word, is_credential, is_secret_name};

use crate::octets::first;

/// The fields that bear credentials, or what stands for them.
const CREDENTIALS: [&[u8]; 9] = [
    b"authorization",
    b"proxy-authorization",
    b"authentication-info",
    b"www-authenticate",
    b"cookie",
    b"set-cookie",
    b"set-cookie2",
    b"x-api-key",
    b"x-auth-token",
];

/// The words of which one stands in the name of a parameter whose value is secret.
const SECRETS: [&[u8]; 7] = [
    b"token",
    b"key",
    b"secret",
    b"password",
    b"signature",
    b"code",
    b"session",
];

fn is_one_of(names: &[&[u8]], name: &[u8]) -> bool
    ensures { result ≡ list_any (λ known. str_eq_ignore_ascii_case name.now known.now) names.now }
{
    names.iter().any(|known| name.eq_ignore_ascii_case(known))
}

/// Whether a field of that name bears credentials, so that its value is hidden. The name is one in any case.
pub(crate) fn is_credential(name: &[u8]) -> bool
    ensures { result ≡ is_credential name.now }
{
    is_one_of(&CREDENTIALS, name)
}

// Whether the word, one in lower case, stands in the name.
fn has_word(mut name: &[u8], word: &[u8]) -> bool
    ensures { result ≡ has_word name.entry.now word.now }
{
    while let Some((_, rest)) = name.split_first() {
        if first(name, word.len()).eq_ignore_ascii_case(word) {
            return true;
        }
        name = rest;
    }
    false
}

fn has_any(name: &[u8], words: &[&[u8]]) -> bool
    ensures { result ≡ list_any (λ word. has_word name.now word.now) words.now }
{
    words.iter().any(|word| has_word(name, word))
}

// Whether one of the words stands in the name of a parameter, in any case.
fn is_secret_name(name: &[u8]) -> bool
    ensures { result ≡ is_secret_name name.now }
{
    has_any(name, &SECRETS)
}

fn ends_uri(octet: u8) -> bool
    ensures { result ≡ ends_uri octet }
{
    octet == b'"' || octet == b'<' || octet == b'>' || octet == b' ' || octet == b'\t'
}

fn begins_parameter(octet: u8) -> bool
    ensures { result ≡ begins_parameter octet }
{
    octet == b'?' || octet == b'#' || octet == b'&' || octet == b';'
}

fn ends_value(octet: u8) -> bool
    ensures { result ≡ ends_value octet }
{
    octet == b'&' || octet == b'#' || ends_uri(octet)
}

fn authority_len(octets: &[u8]) -> usize
    ensures value { result ≡ prefix_len (λ octet. not (ends_authority octet)) octets.now }
    ensures within { result ≤ length octets.now }
{
    octets
        .iter()
        .take_while(|octet| {
            !(**octet == b'/' || **octet == b'?' || **octet == b'#' || ends_uri(**octet))
        })
        .count()
}

fn behind_last_at(authority: &[u8]) -> usize
    ensures value { result ≡ suffix_len (λ octet. not (octet == 64)) authority.now }
    ensures within { result ≤ length authority.now }
{
    authority
        .iter()
        .rev()
        .take_while(|octet| **octet != b'@')
        .count()
}

#[tactic(auto, using(crate::proofs::HiddenLemmas::length_before_last))]
fn before_last_at(authority: &[u8]) -> usize
    ensures { result ≡ length (before_last (λ octet. octet == 64) authority.now) }
{
    (authority.len() - behind_last_at(authority)).saturating_sub(1)
}

// How many octets of userinfo there are after two slashes.
fn userinfo_len(octets: &[u8]) -> usize
    ensures { result ≡ userinfo_length octets.now }
{
    before_last_at(&octets[..authority_len(octets)])
}

fn name_len(octets: &[u8]) -> usize
    ensures value { result ≡ name_length octets.now }
    ensures within { result ≤ length octets.now }
{
    octets
        .iter()
        .take_while(|octet| {
            !(**octet == b'=' || begins_parameter(**octet) || ends_uri(**octet))
        })
        .count()
}

// Whether the octets begin with a name that is like a secret's, and a `=`.
fn names_secret(octets: &[u8]) -> bool
    ensures { result ≡ names_secret octets.now }
{
    let len = name_len(octets);
    len < octets.len() && octets[len] == b'=' && is_secret_name(&octets[..len])
}

/// Where an octet stands in a parameter.
#[derive(Clone, Copy)]
enum Parameter {
    /// In none, or in one that isn't named like a secret.
    Other,
    /// In the name of one that is.
    Name,
    /// In its value.
    Value,
}

// What begins after an octet, before the others.
fn begun_behind(octet: u8, rest: &[u8]) -> Parameter
    ensures { result ≡ begun_behind octet rest.now }
{
    if begins_parameter(octet) && names_secret(rest) {
        Parameter::Name
    } else {
        Parameter::Other
    }
}

impl Parameter {
    // Where the octet after this one stands, before the others.
    fn behind(self, octet: u8, rest: &[u8]) -> Self
        ensures { result ≡ parameter_behind self octet rest.now }
    {
        match self {
            Parameter::Other => begun_behind(octet, rest),
            Parameter::Name if octet == b'=' => Parameter::Value,
            Parameter::Name => Parameter::Name,
            Parameter::Value if ends_value(octet) => begun_behind(octet, rest),
            Parameter::Value => Parameter::Value,
        }
    }
}

/// Where an octet stands.
#[derive(Clone, Copy)]
pub(crate) struct Place {
    /// Whether it stands after a slash.
    slash: bool,
    /// How many octets of userinfo there are from it on.
    userinfo: usize,
    parameter: Parameter,
}

impl Place {
    /// The front of a text.
    pub(crate) fn front() -> Self
        ensures { result ≡ front }
    {
        Place {
            slash: false,
            userinfo: 0,
            parameter: Parameter::Other,
        }
    }

    /// Where the octet after this one stands, before the others.
    pub(crate) fn behind(self, octet: u8, rest: &[u8]) -> Self
        ensures { result ≡ place_behind self octet rest.now }
    {
        let slash = octet == b'/';
        let parameter = self.parameter.behind(octet, rest);
        let userinfo = if self.slash && slash {
            userinfo_len(rest)
        } else {
            self.userinfo.saturating_sub(1)
        };
        Place {
            slash,
            userinfo,
            parameter,
        }
    }

    /// Whether an octet that stands there is hidden.
    pub(crate) fn hides(self, octet: u8) -> bool
        ensures { result ≡ is_hidden self octet }
    {
        self.userinfo > 0 || (matches!(self.parameter, Parameter::Value) && !ends_value(octet))
    }
}
