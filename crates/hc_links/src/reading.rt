//! What is read from a link, and what is written to it.

ghost use Rattle.std.specs.Prelude.{ℕ, List};
ghost use Rattle.hc_links.specs.Links.{CountsCame, CountsSent, GivesCame, ReadsCame, WritesAll};
ghost use Rattle.hc_links.specs.Links.{most_octets};

use crate::link::{Link, LinkFailure};
use crate::writing::{write_all, write_text};
use hc_fields::Octets;
use hc_framing::MessageText;
use std::alloc::{AllocError, Global};

/// The most octets that are asked of a link at once.
const MOST_OCTETS: usize = 8_192;

/// What came of a read.
#[derive(Drop)]
pub enum Came {
    /// These octets.
    Octets(Octets),
    /// The other side sends no more.
    End,
    /// The link failed.
    Failure,
}

/// Reads what there is, at most 8,192 octets. A link that has failed as often as can be counted isn't read.
pub fn read_some<L: Link>(alloc: Global, link: &mut L) -> Result<Came, AllocError>
    ensures given { GivesCame most_octets (L.has_given link.old) (L.has_given link.new) result }
    ensures got { (got : List ℕ) → L.has_got link.old got → L.has_got link.new got }
    ensures reads { ReadsCame (L.was_read link.old) (L.was_read link.new) result }
    ensures count { CountsCame result (L.count link.old) (L.count link.new) }
{
    let mut buffer = Vec::from_elem(alloc, 0, MOST_OCTETS)?;
    if link.failures() == u64::MAX {
        return Ok(Came::Failure);
    }
    match link.read(buffer.as_mut_slice()) {
        Ok(0) => Ok(Came::End),
        Ok(count) => {
            buffer.truncate(count);
            Ok(Came::Octets(Octets::from_vec(buffer)))
        }
        Err(LinkFailure) => Ok(Came::Failure),
    }
}

/// Writes all of the octets. Where the link fails, a beginning of them is written. A link that has failed as often as
/// can be counted isn't written to.
pub fn send_octets<L: Link>(link: &mut L, octets: &[u8]) -> Result<(), LinkFailure>
    ensures given { (given : List ℕ) → L.has_given link.old given → L.has_given link.new given }
    ensures got { WritesAll (L.has_got link.old) (L.has_got link.new) result octets.now }
    ensures kept { (kept : List ℕ) → L.has_kept link.old kept → L.has_kept link.new kept }
    ensures reads { (times : ℕ) → L.was_read link.old times → L.was_read link.new times }
    ensures count { CountsSent result (L.count link.old) (L.count link.new) }
{
    if link.failures() == u64::MAX {
        return Err(LinkFailure);
    }
    write_all(link, octets)
}

/// Writes all of a message. Where the link fails, a beginning of it is written. A link that has failed as often as can
/// be counted isn't written to.
pub fn send_text<L: Link>(link: &mut L, text: &MessageText) -> Result<(), LinkFailure>
    ensures given { (given : List ℕ) → L.has_given link.old given → L.has_given link.new given }
    ensures got { WritesAll (L.has_got link.old) (L.has_got link.new) result text.now }
    ensures reads { (times : ℕ) → L.was_read link.old times → L.was_read link.new times }
    ensures count { CountsSent result (L.count link.old) (L.count link.new) }
{
    if link.failures() == u64::MAX {
        return Err(LinkFailure);
    }
    write_text(link, text)
}
