//! What is written is read back.

ghost use Rattle.std.specs.Prelude.{◌≡◌, ℕ, List, ◌∷◌, ◌++◌, Option, Some, IsTrue};
ghost use Rattle.hc_fields.specs.Tokens.{is_token};
ghost use Rattle.hc_directives.specs.Directives.{directive_of, directive_named};
ghost use Rattle.hc_directives.specs.Texts.{directive_text, IsWritable};

/// A directive that is written with a quoted argument, or none, is read as itself.
pub fn written_directive_read_back()
    ensures { (name : List ℕ) (argument : Option (List ℕ))
        → IsTrue (is_token name) → IsWritable argument
        → directive_of (directive_text name argument) ≡ Some (directive_named name argument) }
{}

/// A directive that is written with a token as its argument is read as itself.
pub fn written_token_read_back()
    ensures { (name argument : List ℕ) → IsTrue (is_token name) → IsTrue (is_token argument)
        → directive_of (name ++ 61 ∷ argument) ≡ Some (directive_named name (Some argument)) }
{}
