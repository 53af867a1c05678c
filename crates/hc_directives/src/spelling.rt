//! How a directive is spelled.

ghost use Rattle.std.specs.Prelude.{◌≡◌, MatchOption, option_map};
ghost use Rattle.std.specs.List.{position, before_first, after_first};
ghost use Rattle.hc_fields.specs.Numbers.{number_of};
ghost use Rattle.hc_directives.specs.Directives.{is_equals, argument_of, directive_of, is_named, seconds_of_argument};
ghost use Rattle.hc_directives.specs.Spellings.{argument_meant, directive_meant};

use crate::cache_control::Seconds;
use crate::quoted::{quoted_number, quoted_text};
use hc_fields::{is_token, number};

/// How an argument is spelled.
#[derive(Clone, Copy, Drop)]
pub(crate) enum Argument<'a> {
    /// A token.
    Token(&'a [u8]),
    /// The text of a quoted string, between its quotes.
    Quoted(&'a [u8]),
}

impl Argument<'_> {
    /// The number that the argument says.
    pub(crate) fn number(self) -> Option<u32>
        ensures { result ≡ number_of (argument_meant self.entry) }
    {
        match self {
            Argument::Token(text) => number(text),
            Argument::Quoted(text) => quoted_number(text),
        }
    }
}

/// A directive as its line has it.
#[derive(Clone, Copy, Drop)]
pub(crate) struct Spelling<'a> {
    pub(crate) name: &'a [u8],
    pub(crate) argument: Option<Argument<'a>>,
}

impl Spelling<'_> {
    /// Whether the directive has that name, in any case.
    pub(crate) fn is_named(&self, name: &[u8]) -> bool
        ensures { result ≡ is_named name.now (directive_meant self.now) }
    {
        self.name.eq_ignore_ascii_case(name)
    }

    /// The seconds that the directive says.
    pub(crate) fn seconds(&self) -> Seconds
        ensures { result ≡ seconds_of_argument (option_map argument_meant self.now.argument) }
    {
        let Some(argument) = self.argument else {
            return Seconds::Bare;
        };
        match argument.number() {
            Some(seconds) => Seconds::Value(seconds),
            None => Seconds::Unreadable,
        }
    }
}

fn read_argument(text: &[u8]) -> Option<Argument<'_>>
    ensures { option_map argument_meant result ≡ argument_of text.now }
{
    if is_token(text) {
        return Some(Argument::Token(text));
    }
    Some(Argument::Quoted(quoted_text(text)?))
}

/// Where the first equals sign stands.
fn equals_place(member: &[u8]) -> Option<usize>
    ensures { result ≡ position is_equals member.now }
{
    member.iter().position(|octet| *octet == b'=')
}

/// What stands before the first equals sign, and what behind it.
fn split_at_equals(member: &[u8]) -> Option<(&[u8], &[u8])>
    ensures { MatchOption result (before_first is_equals member.now ≡ member.now)
        (λ p. (p.0.now ≡ before_first is_equals member.now) × (p.1.now ≡ after_first is_equals member.now)) }
{
    let equals = equals_place(member)?;
    Some((&member[..equals], &member[equals + 1..]))
}

/// The directive that a member of Cache-Control is, if it is one.
pub(crate) fn read_directive(member: &[u8]) -> Option<Spelling<'_>>
    ensures { option_map directive_meant result ≡ directive_of member.now }
{
    if is_token(member) {
        return Some(Spelling {
            name: member,
            argument: None,
        });
    }
    let (name, argument) = split_at_equals(member)?;
    if !is_token(name) {
        return None;
    }
    Some(Spelling {
        name,
        argument: Some(read_argument(argument)?),
    })
}
