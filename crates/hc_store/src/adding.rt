//! Adding a response to the variants of a key.

ghost use Rattle.std.specs.Prelude.{◌≡◌, ◌-◌, ◌<◌, ◌≤◌, true, false, length, take, map, IfOk, IsOk, OnOk, OnErr, vec_len};
ghost use Rattle.std.specs.List.{list_any};
ghost use Rattle.std.specs.Vec.{vec_capacity};
ghost use Rattle.hc_store.specs.Entries.{most_variants};
ghost use Rattle.hc_store.specs.Choosing.{is_selected};
ghost use Rattle.hc_store.specs.Changes.{added, last_ones};
ghost use Rattle.hc_store.specs.Calls.{has_vary};
ghost use Rattle.hc_store.specs.Marks.{unmarked};

use crate::choosing::is_selected;
use hc_fields::Fields;
use hc_update::Stored;
use std::alloc::{AllocError, Global};

/// The most variants of a key.
pub const MOST_VARIANTS: usize = 16;

/// Which of the variants select a request with those fields: there is a mark at the place of each that
/// does.
fn marks_of_selected(
    alloc: Global,
    variants: &[Stored],
    presented: &Fields,
) -> Result<[bool; MOST_VARIANTS], AllocError>
    requires { length variants.now ≤ most_variants }
    ensures answer { IfOk result (λ marks. take (length variants.now) marks ≡ map (is_selected presented.now) variants.now) }
    ensures no_vary { has_vary variants.now ≡ false → IsOk result }
{
    let mut marks = [false; MOST_VARIANTS];
    for (place, variant) in variants.iter().enumerate() {
        marks[place] = is_selected(alloc, variant, presented)?;
    }
    Ok(marks)
}

/// Whether there is a mark.
fn has_mark(marks: &[bool]) -> bool
    ensures { result ≡ list_any (λ mark. mark) marks.now }
{
    marks.iter().any(|mark| *mark)
}

/// Makes room for one more, unless one is marked, which is to be removed.
fn make_room(variants: &mut Vec<Stored>, marks: &[bool]) -> Result<(), AllocError>
    ensures items { variants.new.items ≡ variants.old.items }
    ensures room { OnOk result (list_any (λ mark. mark) marks.now ≡ false → vec_len variants.new < vec_capacity variants.new) }
    ensures succeeds { list_any (λ mark. mark) marks.now ≡ true → IsOk result }
{
    if has_mark(marks) {
        return Ok(());
    }
    variants.reserve(1)
}

/// Removes those at whose places there is a mark.
fn remove_marked(variants: &mut Vec<Stored>, marks: &[bool])
    requires { length marks.now ≡ length variants.old.items }
    ensures items { variants.new.items ≡ unmarked marks.now variants.old.items }
    ensures room { vec_capacity variants.new ≡ vec_capacity variants.old }
{
    let mut place = variants.len();
    while place > 0 {
        place -= 1;
        if marks[place] {
            drop(variants.remove(place));
        }
    }
}

/// Removes the first where there are as many as may be.
fn make_place(variants: &mut Vec<Stored>)
    requires { length variants.old.items ≤ most_variants }
    ensures items { variants.new.items ≡ last_ones (most_variants - 1) variants.old.items }
    ensures room { vec_capacity variants.new ≡ vec_capacity variants.old }
{
    if variants.len() == MOST_VARIANTS {
        drop(variants.remove(0));
    }
}

/// Adds a response in place of those that select its request, and of the first where there are still as
/// many as may be. Where memory was refused, nothing has changed.
pub(crate) fn add_to(
    alloc: Global,
    variants: &mut Vec<Stored>,
    stored: Stored,
) -> Result<(), AllocError>
    requires { length variants.old.items ≤ most_variants }
    ensures ok { OnOk result (variants.new.items ≡ added stored variants.old.items) }
    ensures err { OnErr result (variants.new.items ≡ variants.old.items) }
    ensures no_vary { 0 < length variants.old.items → has_vary variants.old.items ≡ false → IsOk result }
{
    let marks = marks_of_selected(alloc, variants.as_slice(), &stored.request.fields)?;
    let (marks, _) = marks.split_at(variants.len());
    make_room(variants, marks)?;
    remove_marked(variants, marks);
    make_place(variants);
    variants.push(stored)?;
    Ok(())
}
