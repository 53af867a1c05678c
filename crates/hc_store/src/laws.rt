//! What holds of the variants that are chosen, and of what stays in a store.

ghost use Rattle.std.specs.Prelude.{◌≡◌, ◌++◌, ◌<◌, ◌≤◌, ◌↔◌, ℕ, true, false, codes, List, [], ◌∷◌, Some, None};
ghost use Rattle.std.specs.List.{list_any};
ghost use Rattle.hc_fields.specs.declared.fields.Field.{Field};
ghost use Rattle.hc_fields.specs.Values.{has_name};
ghost use Rattle.hc_head.specs.declared.head.Target.{Target};
ghost use Rattle.hc_update.specs.declared.stored.Stored.{Stored};
ghost use Rattle.hc_update.specs.States.{stored_fields};
ghost use Rattle.hc_store.specs.Entries.{Entries, Holdings, IsWithin, entries_weight, sets_cookie, variants_of, weight};
ghost use Rattle.hc_store.specs.Choosing.{chosen, chosen_validated, is_selected, is_selected_validated};
ghost use Rattle.hc_store.specs.Changes.{Validation, after_put, is_validated, may_stay, trimmed};
ghost use Rattle.hc_store.specs.Laws.{IsFirstChoice};

/// The variant that is chosen is the latest of those that select the request: by its Date, then by when it
/// came, then by when it was added.
pub fn the_chosen_is_the_latest()
    ensures latest { (presented : List Field) (variants : List Stored) (choice : Stored) → chosen presented variants ≡ Some choice
        → IsFirstChoice (is_selected presented) variants choice }
    ensures validated { (presented : List Field) (position : ℕ) (variants : List Stored) (choice : Stored)
        → chosen_validated presented position variants ≡ Some choice
        → IsFirstChoice (is_selected_validated presented position) variants choice }
    // None is chosen only where none selects the request.
    ensures none { (presented : List Field) (variants : List Stored) → chosen presented variants ≡ None
        → list_any (is_selected presented) variants ≡ false }
{}

/// Trimming leaves what is light enough as it is, and makes everything else so.
pub fn trimming_keeps_what_fits()
    ensures all { (bytes : ℕ) (entries : Entries) → entries_weight entries ≤ bytes → trimmed bytes entries ≡ entries }
    ensures light { (bytes : ℕ) (entries : Entries) → entries_weight (trimmed bytes entries) ≤ bytes }
{}

/// What was put is there, and is the last variant of its key.
pub fn what_is_put_is_there()
    ensures { (keys bytes : ℕ) (target : Target) (stored : Stored) (entries : Entries) → 0 < keys → weight stored ≤ bytes
        → (earlier : List Stored) × (variants_of target (after_put keys bytes target stored entries) ≡ earlier ++ stored ∷ []) }
{}

/// Where a store keeps no responses that set a cookie, none is chosen for a request.
pub fn no_cookie_is_chosen()
    ensures chosen { (store : Holdings) (target : Target) (presented : List Field) (choice : Stored) → IsWithin store
        → store.keeps_cookies ≡ false → chosen presented (variants_of target store.entries) ≡ Some choice → sets_cookie choice ≡ false }
    ensures validated { (store : Holdings) (target : Target) (presented : List Field) (position : ℕ) (choice : Stored) → IsWithin store
        → store.keeps_cookies ≡ false → chosen_validated presented position (variants_of target store.entries) ≡ Some choice
        → sets_cookie choice ≡ false }
{}

/// There a 304 that sets a cookie leaves nothing of what it is about. Any other leaves of what sets none as much as it
/// does where those are kept.
pub fn what_would_set_a_cookie_goes()
    ensures goes { (v : Validation) (variant : Stored)
        → has_name (codes "set-cookie") (stored_fields v.not_modified.fields v.response_time) ≡ true
        → is_validated v variant ≡ true → may_stay false v variant ≡ false }
    ensures stays { (v : Validation) (variant : Stored)
        → has_name (codes "set-cookie") (stored_fields v.not_modified.fields v.response_time) ≡ false
        → sets_cookie variant ≡ false → may_stay false v variant ≡ may_stay true v variant }
{}
