//! The table of a part, which has the position in the whole of each of its records.

ghost use Rattle.std.specs.Prelude.{◌≡◌, ◌<◌, ◌-◌, ◌^◌, ℕ, List, IfSome, Some, drop, length, slice_get};
ghost use Rattle.hc_head.specs.declared.head.Target.{Target};
ghost use Rattle.hc_transcript.specs.declared.format.Format.{Format};
ghost use Rattle.hc_transcript.specs.declared.record.Record.{Record};
ghost use Rattle.hc_transcript.specs.Items.{Item};
ghost use Rattle.hc_history.specs.declared.settings.Settings.{Settings};
ghost use Rattle.hc_history.specs.Verdicts.{IsVerdict};
ghost use Rattle.hc_parts.specs.Parts.{part_octets};
ghost use Rattle.hc_split.specs.Joined.{IsTold};
ghost use Rattle.hc_split.specs.Splitting.{positions_in, table_text};
ghost use Rattle.hc_split.specs.Tables.{AreFew, IsLineAnd};

use crate::joining::Told;
use hc_history::Verdict;
use hc_transcript::numeral;

/// What the verdict on a part tells of it, by its table; nothing where it is malformed, or the table has no such place.
pub fn told(verdict: &Verdict, table: &[u8]) -> Told
    ensures { (part : Target → ℕ) (format : Format) (settings : Settings) (records : List Record) (h : List Item) (k : ℕ)
        → length h < 10 ^ 18 → table.now ≡ table_text (positions_in part k h) → IsVerdict (part_octets part format k records h) settings verdict.now
        → IsTold part format settings records h k result }
{
    match verdict {
        Verdict::Yes(counts) => Told::Right(*counts),
        Verdict::No(place, why) => match position_at(table, *place) {
            Some(position) => Told::Wrong(position, *why),
            None => Told::Nothing,
        },
        Verdict::Malformed(_, _) => Told::Nothing,
    }
}

/// The position that stands at that place of a table, of which the first is 1.
pub fn position_at(table: &[u8], place: u64) -> Option<u64>
    ensures { (positions : List ℕ) → AreFew positions → table.now ≡ table_text positions
        → IfSome result (λ position. (0 < place) × (slice_get positions (place - 1) ≡ Some position)) }
{
    let before = place.checked_sub(1)?;
    let (line, _) = line_of(behind_lines(table, before)?)?;
    numeral(line)
}

// What stands behind so many lines.
fn behind_lines(table: &[u8], count: u64) -> Option<&[u8]>
    ensures { (positions : List ℕ) → AreFew positions → table.now ≡ table_text positions
        → IfSome result (λ rest. rest.now ≡ table_text (drop count positions)) }
{
    let mut rest = table;
    for at in 0..count {
        let (_, behind) = line_of(rest)?;
        rest = behind;
    }
    Some(rest)
}

// The first line, and what stands behind its line feed.
fn line_of(text: &[u8]) -> Option<(&[u8], &[u8])>
    ensures { IfSome result (λ found. IsLineAnd text.now found.0.now found.1.now) }
{
    for (at, octet) in text.iter().enumerate() {
        if *octet == b'\n' {
            let (line, behind) = text.split_at(at);
            let (_, rest) = behind.split_at(1);
            return Some((line, rest));
        }
    }
    None
}
