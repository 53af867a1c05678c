//! What holds of every request that is sent to the origin.

ghost use Rattle.std.specs.Prelude.{◌≡◌, ◌≢◌, ℕ, true, false, List, codes};
ghost use Rattle.std.specs.List.{list_all};
ghost use Rattle.hc_fields.specs.declared.fields.Field.{Field};
ghost use Rattle.hc_head.specs.declared.head.RequestHead.{RequestHead};
ghost use Rattle.hc_head.specs.declared.head.Target.{Target};
ghost use Rattle.hc_head.specs.Plain.{is_plain_field};
ghost use Rattle.hc_head.specs.Targets.{HasTarget};
ghost use Rattle.hc_head.specs.Writable.{IsWritableRequest, has_framing};
ghost use Rattle.hc_rules.specs.Forwards.{conditional_request, plain_request, unconditional_request};
ghost use Rattle.hc_rules.specs.Laws.{IsCacheName, IsForwardable};

use hc_head::Room;

/// A request that is sent to the origin has the target of the one that was received.
pub fn forwards_keep_the_target()
    ensures plain { (name : List ℕ) (target : Target) (received : RequestHead)
        → HasTarget received target → HasTarget (plain_request name target received) target }
    ensures unconditional { (name : List ℕ) (target : Target) (received : RequestHead)
        → HasTarget received target → HasTarget (unconditional_request name target received) target }
    // It is a GET, of which `*` is no target.
    ensures conditional { (name : List ℕ) (target : Target) (received : RequestHead) (stored : List Field)
        → HasTarget received target → received.method ≢ codes "OPTIONS"
        → HasTarget (conditional_request name target received stored) target }
{}

/// It frames no body before it is written.
pub fn forwards_frame_no_body()
    ensures plain { (name : List ℕ) (target : Target) (received : RequestHead)
        → has_framing received.fields ≡ false → has_framing (plain_request name target received).fields ≡ false }
    ensures unconditional { (name : List ℕ) (target : Target) (received : RequestHead)
        → has_framing received.fields ≡ false
        → has_framing (unconditional_request name target received).fields ≡ false }
    ensures conditional { (name : List ℕ) (target : Target) (received : RequestHead) (stored : List Field)
        → has_framing received.fields ≡ false
        → has_framing (conditional_request name target received stored).fields ≡ false }
{}

/// It is read in a transcript as it was written.
pub fn forwards_are_writable()
    ensures plain { (name : List ℕ) (target : Target) (received : RequestHead)
        → IsCacheName name → IsForwardable received target
        → IsWritableRequest (plain_request name target received) Room.RECORDED }
    ensures unconditional { (name : List ℕ) (target : Target) (received : RequestHead)
        → IsCacheName name → IsForwardable received target
        → IsWritableRequest (unconditional_request name target received) Room.RECORDED }
    ensures conditional { (name : List ℕ) (target : Target) (received : RequestHead) (stored : List Field)
        → IsCacheName name → IsForwardable received target → list_all is_plain_field stored ≡ true
        → IsWritableRequest (conditional_request name target received stored) Room.RECORDED }
{}
