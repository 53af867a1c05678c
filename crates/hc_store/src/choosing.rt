//! Which variant of a key a request is answered from (RFC 9111 sections 4 and 4.1).

ghost use Rattle.std.specs.Prelude.{◌≡◌, false, codes, List, Some, IfOk, IsOk, IfSome, option_and_then, option_map, slice_get};
ghost use Rattle.hc_update.specs.declared.stored.Stored.{Stored};
ghost use Rattle.hc_fields.specs.Values.{has_name};
ghost use Rattle.hc_store.specs.Calls.{has_vary};
ghost use Rattle.hc_store.specs.Choosing.{chosen, chosen_validated, goes_before, is_selected, is_selected_validated, preferred};

use hc_fields::Fields;
use hc_rules::selects;
use hc_update::Stored;
use std::alloc::{AllocError, Global};

/// A variant that may be chosen, and its place among all of its key.
#[derive(Clone, Copy)]
struct PlacedVariant<'a> {
    place: usize,
    variant: &'a Stored,
}

/// Whether the variant selects a request with those fields.
pub(crate) fn is_selected(
    alloc: Global,
    variant: &Stored,
    presented: &Fields,
) -> Result<bool, AllocError>
    ensures answer { IfOk result (λ is. is ≡ is_selected presented.now variant.now) }
    ensures no_vary { has_name (codes "vary") variant.now.fields ≡ false → IsOk result }
{
    selects(alloc, &variant.fields, &variant.request.fields, presented)
}

/// Whether the variant goes before one that was added before it.
fn goes_before(newer: &Stored, older: &Stored) -> bool
    ensures { result ≡ goes_before newer.now older.now }
{
    older.times.date < newer.times.date
        || newer.times.date == older.times.date
            && older.times.response_time <= newer.times.response_time
}

/// The first of both in the order of choice, where the second was added last.
fn preferred<'a>(best: Option<PlacedVariant<'a>>, next: PlacedVariant<'a>) -> PlacedVariant<'a>
    ensures variant { result.variant.now ≡ preferred (option_map (λ b. b.variant.now) best.entry) next.entry.variant.now }
    ensures place { (variants : List Stored) → IfSome best.entry (λ b. slice_get variants b.place ≡ Some b.variant.now)
        → slice_get variants next.entry.place ≡ Some next.entry.variant.now
        → slice_get variants result.place ≡ Some result.variant.now }
{
    match best {
        Some(best) if !goes_before(next.variant, best.variant) => best,
        _ => next,
    }
}

/// The place of the variant that is chosen.
pub(crate) fn chosen_place(
    alloc: Global,
    variants: &[Stored],
    presented: &Fields,
) -> Result<Option<usize>, AllocError>
    ensures answer { IfOk result (λ place. option_and_then (slice_get variants.now) place ≡ chosen presented.now variants.now) }
    ensures no_vary { has_vary variants.now ≡ false → IsOk result }
{
    let mut best = None;
    for (place, variant) in variants.iter().enumerate() {
        if is_selected(alloc, variant, presented)? {
            best = Some(preferred(best, PlacedVariant { place, variant }));
        }
    }
    Ok(best.map(|best| best.place))
}

/// Whether the variant, which the record at that position validated last, selects a request with those
/// fields.
fn is_selected_validated(
    alloc: Global,
    variant: &Stored,
    presented: &Fields,
    position: u64,
) -> Result<bool, AllocError>
    ensures answer { IfOk result (λ is. is ≡ is_selected_validated presented.now position variant.now) }
    ensures no_vary { has_name (codes "vary") variant.now.fields ≡ false → IsOk result }
{
    if variant.validated_at != Some(position) {
        return Ok(false);
    }
    is_selected(alloc, variant, presented)
}

/// The place of the variant that is chosen among those that the record at that position validated
/// last.
pub(crate) fn chosen_validated_place(
    alloc: Global,
    variants: &[Stored],
    presented: &Fields,
    position: u64,
) -> Result<Option<usize>, AllocError>
    ensures answer { IfOk result (λ place. option_and_then (slice_get variants.now) place ≡ chosen_validated presented.now position variants.now) }
    ensures no_vary { has_vary variants.now ≡ false → IsOk result }
{
    let mut best = None;
    for (place, variant) in variants.iter().enumerate() {
        if is_selected_validated(alloc, variant, presented, position)? {
            best = Some(preferred(best, PlacedVariant { place, variant }));
        }
    }
    Ok(best.map(|best| best.place))
}
