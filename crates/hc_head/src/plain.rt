//! Parts of heads that are read as they are written.

ghost use Rattle.std.specs.Prelude.{◌≡◌, ◌<◌, ℕ, true, false, List, [], ◌∷◌, ◌++◌, Bool, filter, length, codes, decimal};
ghost use Rattle.std.specs.List.{list_all};
ghost use Rattle.httparse.specs.Grammar.{is_uri_byte, is_value_byte};
ghost use Rattle.hc_fields.specs.declared.fields.Field.{Field};
ghost use Rattle.hc_head.specs.declared.head.RequestHead.{RequestHead};
ghost use Rattle.hc_head.specs.declared.head.ResponseHead.{ResponseHead};
ghost use Rattle.hc_head.specs.Heads.{BeginsRequestHead, BeginsResponseHead};
ghost use Rattle.hc_head.specs.Plain.{is_plain_name, is_plain_value, is_plain_field, IsPlainRequest, IsPlainResponse};

/// What is read has plain parts.
pub fn read_head_is_plain()
    ensures request { (octets : List ℕ) (head : RequestHead) (len : ℕ) → BeginsRequestHead octets head len
        → IsPlainRequest head }
    ensures response { (octets : List ℕ) (head : ResponseHead) (len : ℕ) → BeginsResponseHead octets head len
        → IsPlainResponse head }
{}

/// Some of plain fields are plain, and so are plain fields behind others.
pub fn plain_fields_stay_plain()
    ensures fewer { (test : Field → Bool) (fields : List Field) → list_all is_plain_field fields ≡ true
        → list_all is_plain_field (filter test fields) ≡ true }
    ensures both { (front back : List Field) → list_all is_plain_field front ≡ true → list_all is_plain_field back ≡ true
        → list_all is_plain_field (front ++ back) ≡ true }
{}

/// Which values are plain.
pub fn plain_values()
    // Visible octets.
    ensures visible { (value : List ℕ) → list_all is_uri_byte value ≡ true → is_plain_value value ≡ true }
    // Two plain values, one behind the other.
    ensures joined { (front back : List ℕ) → is_plain_value front ≡ true → is_plain_value back ≡ true
        → is_plain_value (front ++ back) ≡ true }
    // Two plain values, and spaces or whatever else a value may have between them.
    ensures apart { (front between back : List ℕ) → 0 < length front → 0 < length back → is_plain_value front ≡ true
        → list_all is_value_byte between ≡ true → is_plain_value back ≡ true
        → is_plain_value (front ++ between ++ back) ≡ true }
    // Two plain values with a space between them.
    ensures spaced { (front back : List ℕ) → 0 < length front → 0 < length back → is_plain_value front ≡ true
        → is_plain_value back ≡ true → is_plain_value (front ++ codes " " ++ back) ≡ true }
    ensures number { (n : ℕ) → is_plain_value (decimal n) ≡ true }
    ensures close { is_plain_value (codes "close") ≡ true }
{}

/// The names of the lines that a cache adds are plain.
pub fn plain_names()
    ensures age { is_plain_name (codes "age") ≡ true }
    ensures cache_status { is_plain_name (codes "cache-status") ≡ true }
    ensures connection { is_plain_name (codes "connection") ≡ true }
    ensures date { is_plain_name (codes "date") ≡ true }
    ensures host { is_plain_name (codes "host") ≡ true }
    ensures if_modified_since { is_plain_name (codes "if-modified-since") ≡ true }
    ensures if_none_match { is_plain_name (codes "if-none-match") ≡ true }
    ensures via { is_plain_name (codes "via") ≡ true }
{}
