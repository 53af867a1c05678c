//! What a client asked, as the access log tells it.

ghost use Rattle.std.proofs.Props.{props};
ghost use Rattle.std.specs.Prelude.{◌≡◌, ◌++◌, true, IfOk, OnOk, codes};
ghost use Rattle.std.specs.List.{list_all};
ghost use Rattle.hc_access.specs.Values.{is_printable, quoted, quotes_in};

use crate::quoting::push_quoted;
use std::alloc::{AllocError, Global};

/// What a client asked, as it stands in a line.
pub struct Asked {
    /// Its request line, in quotes.
    pub(crate) line: Vec<u8>,
    /// Its Referer and its User-Agent, each in quotes, with a space between them.
    pub(crate) beside: Vec<u8>,
    ghost line_printable: { list_all is_printable line.items ≡ true } by { Prim.hlevel props },
    ghost line_quotes: { quotes_in line.items ≡ 2 } by { Prim.hlevel props },
    ghost beside_printable: { list_all is_printable beside.items ≡ true } by { Prim.hlevel props },
    ghost beside_quotes: { quotes_in beside.items ≡ 4 } by { Prim.hlevel props },
}

impl Drop for Asked {
    fn drop(self) {
        let Asked { line, beside } = self;
        drop(line);
        drop(beside);
    }
}

impl Asked {
    /// What a client asked by that request line, with those values of Referer and User-Agent (RFC 9110 sections 10.1.3 and
    /// 10.1.5). What it didn't send is empty.
    pub fn new(alloc: Global, line: &[u8], referer: &[u8], agent: &[u8]) -> Result<Self, AllocError>
        ensures line { IfOk result (λ asked. asked.line.items ≡ quoted line.now) }
        ensures beside { IfOk result (λ asked. asked.beside.items ≡ quoted referer.now ++ (codes " " ++ quoted agent.now)) }
    {
        let mut asked = Vec::with_capacity(alloc, line.len().saturating_add(2))?;
        push_quoted(line, &mut asked)?;
        let mut beside = Vec::with_capacity(alloc, agent.len().saturating_add(8))?;
        push_both(referer, agent, &mut beside)?;
        Ok(Asked {
            line: asked,
            beside,
        })
    }
}

/// Puts two values at the end, each in quotes, with a space between them.
fn push_both(one: &[u8], other: &[u8], out: &mut Vec<u8>) -> Result<(), AllocError>
    ensures { OnOk result (out.new.items ≡ out.old.items ++ (quoted one.now ++ (codes " " ++ quoted other.now))) }
{
    push_quoted(one, out)?;
    out.push(b' ')?;
    push_quoted(other, out)
}
