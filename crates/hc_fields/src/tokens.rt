//! Tokens (RFC 9110 section 5.6.2).

ghost use Rattle.std.specs.Prelude.{◌≡◌};
ghost use Rattle.std.specs.List.{list_all};
ghost use Rattle.hc_fields.specs.Tokens.{is_token_octet, is_token};

#[tactic(auto, unfolding(crate::specs::Tokens::is_token_octet))]
fn is_token_octet(octet: u8) -> bool
    ensures { result ≡ is_token_octet octet }
{
    octet.is_ascii_alphanumeric() || b"!#$%&'*+-.^_`|~".contains(&octet)
}

fn has_token_octets(text: &[u8]) -> bool
    ensures { result ≡ list_all is_token_octet text.now }
{
    text.iter().all(|octet| is_token_octet(*octet))
}

/// Whether the text is a token: one or more letters, digits and marks (RFC 9110 section 5.6.2).
pub fn is_token(text: &[u8]) -> bool
    ensures { result ≡ is_token text.now }
{
    !text.is_empty() && has_token_octets(text)
}
