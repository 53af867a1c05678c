//! How long heads are.

ghost use Rattle.std.specs.Prelude.{◌≡◌, ◌+◌, ◌*◌, ◌<◌, ◌≤◌, ℕ, Bool, List, ◌∷◌, ◌++◌, length, filter, flat_map, decimal, Option, Some};
ghost use Rattle.hc_fields.specs.declared.fields.Field.{Field};
ghost use Rattle.hc_head.specs.declared.head.RequestHead.{RequestHead};
ghost use Rattle.hc_head.specs.declared.head.ResponseHead.{ResponseHead};
ghost use Rattle.hc_head.specs.Heads.{BeginsRequestHead, BeginsResponseHead};
ghost use Rattle.hc_head.specs.Texts.{field_line, with_length, request_head_text, response_head_text};
ghost use Rattle.hc_head.specs.Weights.{fields_weight, line_weight};
ghost use Rattle.hc_head.specs.Writable.{longest_body};

/// Weights of lines add up, and taking lines away adds none.
pub fn weights_add_up()
    ensures first { (f : Field) (fields : List Field) → fields_weight (f ∷ fields) ≡ line_weight f + fields_weight fields }
    ensures both { (front back : List Field) → fields_weight (front ++ back) ≡ fields_weight front + fields_weight back }
    ensures fewer { (test : Field → Bool) (fields : List Field) → fields_weight (filter test fields) ≤ fields_weight fields }
    // It is the length of the lines as they are written.
    ensures written { (fields : List Field) → length (flat_map field_line fields) ≡ fields_weight fields }
{}

/// How long the text of a head is: the method, the target and the lines, with that of the length where it
/// is written, and 14 octets more, which are two spaces, the version and two line ends; in a response
/// also the three of the status.
pub fn written_head_length()
    ensures request { (head : RequestHead) (size : Option ℕ) → length (request_head_text head size)
        ≡ length head.method + length head.target + fields_weight (with_length head.fields size) + 14 }
    ensures response { (head : ResponseHead) (size : Option ℕ) → 100 ≤ head.status → head.status < 1000
        → length (response_head_text head size) ≡ fields_weight (with_length head.fields size) + 17 }
    ensures size { (fields : List Field) (n : ℕ)
        → fields_weight (with_length fields (Some n)) ≡ fields_weight fields + length (decimal n) + 18 }
    ensures longest { (fields : List Field)
        → fields_weight (with_length fields (Some longest_body)) ≡ fields_weight fields + 26 }
{}

/// A head that was read is no longer once it is written than it was, but for two octets a line: a
/// line may have come without a space behind its colon and without CR.
pub fn read_head_is_short()
    ensures request { (octets : List ℕ) (head : RequestHead) (len : ℕ) → BeginsRequestHead octets head len
        → length head.method + length head.target + fields_weight head.fields + 12 ≤ len + 2 * length head.fields }
    ensures response { (octets : List ℕ) (head : ResponseHead) (len : ℕ) → BeginsResponseHead octets head len
        → fields_weight head.fields + 14 ≤ len + 2 * length head.fields }
{}
