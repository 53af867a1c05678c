//! Octets are written to a link as it takes them.

ghost use Rattle.std.specs.Prelude.{◌<◌, ℕ, List};
ghost use Rattle.hc_links.specs.Links.{Counts, WritesAll, greatest_count};

use crate::link::{Link, LinkFailure};
use hc_framing::MessageText;

/// Writes all of the octets. Where the link fails, a beginning of them is written.
pub(crate) fn write_all<L: Link>(link: &mut L, octets: &[u8]) -> Result<(), LinkFailure>
    requires { L.count link.old < greatest_count }
    ensures given { (given : List ℕ) → L.has_given link.old given → L.has_given link.new given }
    ensures got { WritesAll (L.has_got link.old) (L.has_got link.new) result octets.now }
    ensures kept { (kept : List ℕ) → L.has_kept link.old kept → L.has_kept link.new kept }
    ensures reads { (times : ℕ) → L.was_read link.old times → L.was_read link.new times }
    ensures count { Counts result (L.count link.old) (L.count link.new) }
{
    let mut at = 0;
    'pieces: while at < octets.len() {
        let (_, rest) = octets.split_at(at);
        at += link.write(rest)?;
    }
    Ok(())
}

/// Writes all of a message.
pub(crate) fn write_text<L: Link>(link: &mut L, text: &MessageText) -> Result<(), LinkFailure>
    requires { L.count link.old < greatest_count }
    ensures given { (given : List ℕ) → L.has_given link.old given → L.has_given link.new given }
    ensures got { WritesAll (L.has_got link.old) (L.has_got link.new) result text.now }
    ensures reads { (times : ℕ) → L.was_read link.old times → L.was_read link.new times }
    ensures count { Counts result (L.count link.old) (L.count link.new) }
{
    let (front, rest) = text.parts();
    write_all(link, front.as_slice())?;
    write_all(link, rest.as_slice())
}
