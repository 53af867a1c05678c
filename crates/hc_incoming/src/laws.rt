//! Laws of the definitions: octets are one thing.

ghost use Rattle.std.specs.Prelude.{◌≡◌, ℕ, Bool, List, ◌++◌};
ghost use Rattle.hc_incoming.specs.declared.troubles.Trouble.{Trouble};
ghost use Rattle.hc_head.specs.declared.head.RequestHead.{RequestHead};
ghost use Rattle.hc_head.specs.declared.head.ResponseHead.{ResponseHead};
ghost use Rattle.hc_head.specs.declared.head.Target.{Target};
ghost use Rattle.hc_framing.specs.declared.message.Message.{Message};
ghost use Rattle.hc_incoming.specs.Refusals.{IsRefusedFor};
ghost use Rattle.hc_incoming.specs.Troubles.{refusal_status};
ghost use Rattle.hc_incoming.specs.Requests.{FailsTest, IsRefused, IsRequest, IsUnfinished};
ghost use Rattle.hc_incoming.specs.Responses.{IsFailure, IsFailureAtEnd, IsResponse, IsResponseAtEnd, IsUnfinished as IsUnfinishedResponse};

/// Octets of a client connection begin with one whole request at most, and what follows doesn't change
/// it. They are neither refused nor unfinished then; nor do octets wait whose head fails a test.
pub fn one_request_arrives()
    ensures one { (octets more : List ℕ) (message other : Message RequestHead) (target other_target : Target) (m n : ℕ)
        → IsRequest octets message target m → IsRequest (octets ++ more) other other_target n
        → (message ≡ other) × (target ≡ other_target) × (m ≡ n) }
    ensures goes_on { (octets more : List ℕ) (message : Message RequestHead) (target : Target) (len : ℕ)
        → IsRequest octets message target len → IsRequest (octets ++ more) message target len }
    ensures unrefused { (octets : List ℕ) (message : Message RequestHead) (target : Target) (len status : ℕ)
        → IsRequest octets message target len → ¬ (IsRefused octets status) }
    ensures finished { (octets : List ℕ) (message : Message RequestHead) (target : Target) (len : ℕ)
        → IsRequest octets message target len → ¬ (IsUnfinished octets) }
    ensures tested { (octets : List ℕ) (status : ℕ) → FailsTest octets status → ¬ (IsUnfinished octets) }
{}

/// Octets of a forward's connection are one response at most, and what follows doesn't change it. They
/// are neither a failure nor unfinished then.
pub fn one_response_arrives()
    ensures one { (to_head : Bool) (octets more : List ℕ) (message other : Message ResponseHead)
        → IsResponse to_head octets message → IsResponse to_head (octets ++ more) other → message ≡ other }
    ensures goes_on { (to_head : Bool) (octets more : List ℕ) (message : Message ResponseHead)
        → IsResponse to_head octets message → IsResponse to_head (octets ++ more) message }
    ensures unfailed { (to_head : Bool) (octets : List ℕ) (message : Message ResponseHead)
        → IsResponse to_head octets message → ¬ (IsFailure to_head octets) }
    ensures finished { (to_head : Bool) (octets : List ℕ) (message : Message ResponseHead)
        → IsResponse to_head octets message → ¬ (IsUnfinishedResponse to_head octets) }
    // So it is at the origin's end.
    ensures one_at_end { (to_head : Bool) (octets : List ℕ) (message other : Message ResponseHead)
        → IsResponseAtEnd to_head octets message → IsResponseAtEnd to_head octets other → message ≡ other }
    ensures unfailed_at_end { (to_head : Bool) (octets : List ℕ) (message : Message ResponseHead)
        → IsResponseAtEnd to_head octets message → ¬ (IsFailureAtEnd to_head octets) }
{}

/// What is refused for some trouble is refused with the status that belongs to it.
pub fn refusals_have_their_status()
    ensures { (octets : List ℕ) (trouble : Trouble) → IsRefusedFor octets trouble → IsRefused octets (refusal_status trouble) }
{}
