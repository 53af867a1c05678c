//! Runs of octets at the front of a text.

ghost use Rattle.std.specs.Prelude.{◌≡◌, ◌≤◌, length};
ghost use Rattle.std.specs.Char.{is_ascii_digit};
ghost use Rattle.std.specs.List.{prefix_len};
ghost use Rattle.hc_status.specs.Classes.{is_base64_octet, is_blank, is_key_octet, is_key_start, is_number_octet, is_space, is_token_octet};
ghost use Rattle.hc_status.specs.Reading.{behind};

pub(crate) fn is_key_start(octet: u8) -> bool
    ensures { result ≡ is_key_start octet }
{
    octet.is_ascii_lowercase() || octet == b'*'
}

fn is_key_octet(octet: u8) -> bool
    ensures { result ≡ is_key_octet octet }
{
    octet.is_ascii_lowercase() || octet.is_ascii_digit() || b"_-.*".contains(&octet)
}

fn is_token_octet(octet: u8) -> bool
    ensures { result ≡ is_token_octet octet }
{
    octet.is_ascii_alphanumeric() || b"!#$%&'*+-.^_`|~:/".contains(&octet)
}

fn is_number_octet(octet: u8) -> bool
    ensures { result ≡ is_number_octet octet }
{
    octet.is_ascii_digit() || octet == b'-' || octet == b'.'
}

fn is_base64_octet(octet: u8) -> bool
    ensures { result ≡ is_base64_octet octet }
{
    octet.is_ascii_alphanumeric() || b"+/=".contains(&octet)
}

fn spaces_len(text: &[u8]) -> usize
    ensures value { result ≡ prefix_len is_space text.now }
    ensures within { result ≤ length text.now }
{
    text.iter().take_while(|octet| **octet == b' ').count()
}

fn blanks_len(text: &[u8]) -> usize
    ensures value { result ≡ prefix_len is_blank text.now }
    ensures within { result ≤ length text.now }
{
    text.iter()
        .take_while(|octet| **octet == b' ' || **octet == b'\t')
        .count()
}

/// What stands behind the spaces in front.
pub(crate) fn skip_spaces(text: &[u8]) -> &[u8]
    ensures { result.now ≡ behind is_space text.now }
{
    let (_, behind) = text.split_at(spaces_len(text));
    behind
}

/// What stands behind the spaces and tabs in front.
pub(crate) fn skip_blanks(text: &[u8]) -> &[u8]
    ensures { result.now ≡ behind is_blank text.now }
{
    let (_, behind) = text.split_at(blanks_len(text));
    behind
}

pub(crate) fn digits_len(text: &[u8]) -> usize
    ensures value { result ≡ prefix_len is_ascii_digit text.now }
    ensures within { result ≤ length text.now }
{
    text.iter()
        .take_while(|octet| octet.is_ascii_digit())
        .count()
}

pub(crate) fn number_len(text: &[u8]) -> usize
    ensures value { result ≡ prefix_len is_number_octet text.now }
    ensures within { result ≤ length text.now }
{
    text.iter()
        .take_while(|octet| is_number_octet(**octet))
        .count()
}

pub(crate) fn token_len(text: &[u8]) -> usize
    ensures value { result ≡ prefix_len is_token_octet text.now }
    ensures within { result ≤ length text.now }
{
    text.iter()
        .take_while(|octet| is_token_octet(**octet))
        .count()
}

pub(crate) fn base64_len(text: &[u8]) -> usize
    ensures value { result ≡ prefix_len is_base64_octet text.now }
    ensures within { result ≤ length text.now }
{
    text.iter()
        .take_while(|octet| is_base64_octet(**octet))
        .count()
}

pub(crate) fn key_len(text: &[u8]) -> usize
    ensures value { result ≡ prefix_len is_key_octet text.now }
    ensures within { result ≤ length text.now }
{
    text.iter()
        .take_while(|octet| is_key_octet(**octet))
        .count()
}
