//! What holds of each text that was escaped.

ghost use Rattle.std.specs.Prelude.{◌≡◌, ℕ, List, true};
ghost use Rattle.std.specs.List.{list_all};
ghost use Rattle.hc_html.specs.Marked.{escaped, is_plain};

/// An escaped text has no octet that begins or ends a tag, or a value in quotes, and none but
/// printable ASCII and line feeds.
pub fn escaped_text_is_no_markup()
    ensures { (octets : List ℕ) → list_all is_plain (escaped octets) ≡ true }
{}
