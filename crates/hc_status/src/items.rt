//! What a list of structured items says.

ghost use Rattle.std.specs.Prelude.{◌≡◌, ◌<◌, length, position, IfSome};
ghost use Rattle.std.specs.Str.{bytes_eq};

use hc_fields::Octets;
use std::alloc::{AllocError, Global};
use std::marker::Model;
use std::mem;

/// A bare item (RFC 8941 section 3.3).
#[derive(Drop)]
pub enum Bare {
    /// At most fifteen digits, with a minus or without (RFC 8941 section 3.3.1).
    Integer(i64),
    /// The text of a decimal, sign and point included (RFC 8941 section 3.3.2).
    Decimal(Octets),
    /// A string without its quotes and backslashes (RFC 8941 section 3.3.3).
    Str(Octets),
    /// A token (RFC 8941 section 3.3.4).
    Token(Octets),
    /// The text between the colons of a byte sequence, which isn't decoded (RFC 8941 section 3.3.5).
    Bytes(Octets),
    /// A Boolean (RFC 8941 section 3.3.6).
    Bool(bool),
}

/// A parameter of a member (RFC 8941 section 3.1.2); one that stands alone is the Boolean true.
#[derive(Drop)]
pub struct Parameter {
    pub key: Octets,
    pub value: Bare,
}

/// Parameters in order, each key once, which contracts see as the list of them.
#[derive(Drop)]
pub struct Parameters {
    list: Vec<Parameter>,
}

impl Model for Parameters {
    ghost use Rattle.std.specs.Prelude.{List};
    ghost use Rattle.hc_status.specs.declared.items.Parameter.{Parameter};

    ghost Value = { List Parameter };

    ghost view = { λ p. p.list.items };
}

/// Where the parameter of that key stands.
fn place_of(params: &[Parameter], key: &[u8]) -> Option<usize>
    ensures place { result ≡ position (λ param. bytes_eq param.key key.now) params.now }
    ensures within { IfSome result (λ place. place < length params.now) }
{
    params.iter().position(|param| param.key.as_slice() == key)
}

impl Parameters {
    ghost use Rattle.std.specs.Prelude.{◌≡◌, [], OnOk, option_copied};
    ghost use Rattle.hc_status.specs.Grammar.{with_parameter};
    ghost use Rattle.hc_status.specs.Marks.{value_of};

    /// No parameters, which take no memory.
    pub fn new(alloc: Global) -> Self
        ensures { result ≡ [] }
    {
        Parameters {
            list: Vec::new(alloc),
        }
    }

    /// The parameters in order.
    pub fn as_slice(&self) -> &[Parameter]
        ensures { result.now ≡ self.now }
    {
        self.list.as_slice()
    }

    /// The value of the parameter of that key, which is one in lower case.
    pub fn get(&self, key: &[u8]) -> Option<&Bare>
        ensures { option_copied result ≡ value_of key.now self.now }
    {
        self.list
            .iter()
            .find(|param| param.key.as_slice() == key)
            .map(|param| &param.value)
    }

    /// Puts the parameter in the place of the one that has its key, or at the end.
    pub(crate) fn set(&mut self, param: Parameter) -> Result<(), AllocError>
        ensures { OnOk result (self.new ≡ with_parameter self.old param) }
    {
        match place_of(self.list.as_slice(), param.key.as_slice()) {
            Some(place) => drop(mem::replace(&mut self.list[place], param)),
            None => self.list.push(param)?,
        }
        Ok(())
    }
}

/// A member of a list: an item with its parameters (RFC 8941 section 3.3).
#[derive(Drop)]
pub struct Member {
    pub item: Bare,
    pub params: Parameters,
}
