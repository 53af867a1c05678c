//! What holds of every reply.

ghost use Rattle.std.specs.Prelude.{◌≡◌, ◌<◌, ◌≤◌, ℕ, Bool, true, false, List, [], Some, codes, decimal, option_and_then};
ghost use Rattle.hc_fields.specs.Numbers.{end_of_moments, largest_number, number_of};
ghost use Rattle.hc_fields.specs.Values.{has_name, only_value, values_of};
ghost use Rattle.hc_head.specs.declared.head.ResponseHead.{ResponseHead};
ghost use Rattle.hc_rules.specs.Passing.{AreKeptLines};
ghost use Rattle.hc_head.specs.Plain.{IsPlainResponse};
ghost use Rattle.hc_head.specs.Writable.{IsWritableResponse, has_framing};
ghost use Rattle.hc_framing.specs.declared.message.Message.{Message};
ghost use Rattle.hc_fresh.specs.Ages.{current_age};
ghost use Rattle.hc_status.specs.declared.cache_status.Handling.{Handling};
ghost use Rattle.hc_status.specs.declared.marks.Mark.TheVariants.{Unmarked};
ghost use Rattle.hc_status.specs.Marks.{mark_of};
ghost use Rattle.hc_status.specs.Texts.{written_mark};
ghost use Rattle.hc_update.specs.declared.stored.Stored.{Stored};
ghost use Rattle.hc_replies.specs.Laws.{IsPlainStatus, IsWritableStatus, is_own_name, is_repeated};
ghost use Rattle.hc_replies.specs.Replies.{forwarded_reply, generated_reply, not_modified_reply, stored_reply};

use hc_head::Room;

/// A reply is read as the mark that the cache gave it, whatever the origin's Cache-Status says; one
/// that the cache makes itself has none.
pub fn replies_have_their_marks()
    ensures forwarded { (name : List ℕ) (handling : Handling) (closes : Bool) (moment : ℕ)
        (response : Message ResponseHead) → IsPlainStatus name handling
        → mark_of (forwarded_reply name handling closes moment response).head.fields ≡ written_mark handling }
    ensures stored { (name : List ℕ) (handling : Handling) (closes : Bool) (moment : ℕ) (to_head : Bool)
        (state : Stored) → IsPlainStatus name handling
        → mark_of (stored_reply name handling closes moment to_head state).head.fields ≡ written_mark handling }
    ensures not_modified { (name : List ℕ) (handling : Handling) (closes : Bool) (moment : ℕ) (state : Stored)
        → IsPlainStatus name handling
        → mark_of (not_modified_reply name handling closes moment state).head.fields ≡ written_mark handling }
    ensures generated { (status moment : ℕ) (closes : Bool)
        → mark_of (generated_reply status moment closes).head.fields ≡ Unmarked }
{}

/// A reply from the store has the values that the stored response has, but for Age, Cache-Status and
/// Connection. A 304 has them of the names that it has to repeat, and no others.
pub fn replies_have_the_stored_values()
    ensures stored { (field : List ℕ) (name : List ℕ) (handling : Handling) (closes : Bool) (moment : ℕ)
        (to_head : Bool) (state : Stored) → is_own_name field ≡ false
        → values_of field (stored_reply name handling closes moment to_head state).head.fields
        ≡ values_of field state.fields }
    ensures repeated { (field : List ℕ) (name : List ℕ) (handling : Handling) (closes : Bool) (moment : ℕ)
        (state : Stored) → is_repeated field ≡ true
        → values_of field (not_modified_reply name handling closes moment state).head.fields
        ≡ values_of field state.fields }
    ensures no_other { (field : List ℕ) (name : List ℕ) (handling : Handling) (closes : Bool) (moment : ℕ)
        (state : Stored) → is_repeated field ≡ false → is_own_name field ≡ false
        → values_of field (not_modified_reply name handling closes moment state).head.fields ≡ [] }
{}

/// A reply from the store tells one age, that of the stored response at its moment. Stored responses
/// have no Age line.
pub fn replies_tell_their_age()
    ensures stored { (name : List ℕ) (handling : Handling) (closes : Bool) (moment : ℕ) (to_head : Bool)
        (state : Stored) → has_name (codes "age") state.fields ≡ false
        → option_and_then number_of
        (only_value (codes "age") (stored_reply name handling closes moment to_head state).head.fields)
        ≡ Some (current_age state.times moment) }
    ensures not_modified { (name : List ℕ) (handling : Handling) (closes : Bool) (moment : ℕ) (state : Stored)
        → option_and_then number_of
        (only_value (codes "age") (not_modified_reply name handling closes moment state).head.fields)
        ≡ Some (current_age state.times moment) }
    // What is written for a number is read as that number.
    ensures read_back { (n : ℕ) → n ≤ largest_number → number_of (decimal n) ≡ Some n }
{}

/// A reply frames no body before it is written.
pub fn replies_frame_no_body()
    ensures forwarded { (name : List ℕ) (handling : Handling) (closes : Bool) (moment : ℕ)
        (response : Message ResponseHead) → has_framing response.head.fields ≡ false
        → has_framing (forwarded_reply name handling closes moment response).head.fields ≡ false }
    ensures stored { (name : List ℕ) (handling : Handling) (closes : Bool) (moment : ℕ) (to_head : Bool)
        (state : Stored) → has_framing state.fields ≡ false
        → has_framing (stored_reply name handling closes moment to_head state).head.fields ≡ false }
    ensures not_modified { (name : List ℕ) (handling : Handling) (closes : Bool) (moment : ℕ) (state : Stored)
        → has_framing (not_modified_reply name handling closes moment state).head.fields ≡ false }
    ensures generated { (status moment : ℕ) (closes : Bool)
        → has_framing (generated_reply status moment closes).head.fields ≡ false }
{}

/// A reply is read in a transcript as it was written.
pub fn replies_are_writable()
    ensures forwarded { (name : List ℕ) (handling : Handling) (closes : Bool) (moment : ℕ)
        (response : Message ResponseHead) → IsWritableStatus name handling → moment < end_of_moments
        → IsPlainResponse response.head → AreKeptLines response.head.fields
        → has_framing response.head.fields ≡ false
        → IsWritableResponse (forwarded_reply name handling closes moment response).head Room.RECORDED }
    ensures stored { (name : List ℕ) (handling : Handling) (closes : Bool) (moment : ℕ) (to_head : Bool)
        (state : Stored) → IsWritableStatus name handling → 100 ≤ state.status → state.status < 1000
        → AreKeptLines state.fields → has_framing state.fields ≡ false
        → IsWritableResponse (stored_reply name handling closes moment to_head state).head Room.RECORDED }
    ensures not_modified { (name : List ℕ) (handling : Handling) (closes : Bool) (moment : ℕ) (state : Stored)
        → IsWritableStatus name handling → AreKeptLines state.fields
        → IsWritableResponse (not_modified_reply name handling closes moment state).head Room.RECORDED }
    ensures generated { (status moment : ℕ) (closes : Bool) → 100 ≤ status → status < 1000 → moment < end_of_moments
        → IsWritableResponse (generated_reply status moment closes).head Room.RECORDED }
{}
