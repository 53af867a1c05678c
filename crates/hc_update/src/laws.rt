//! What holds of every stored response.

ghost use Rattle.std.specs.Prelude.{◌≡◌, ◌<◌, ℕ, false, List, Some};
ghost use Rattle.hc_fields.specs.Numbers.{end_of_moments};
ghost use Rattle.hc_fields.specs.declared.fields.Field.{Field};
ghost use Rattle.hc_head.specs.declared.head.RequestHead.{RequestHead};
ghost use Rattle.hc_head.specs.declared.head.ResponseHead.{ResponseHead};
ghost use Rattle.hc_framing.specs.declared.message.Message.{Message};
ghost use Rattle.hc_fresh.specs.DateLines.{date_stated};
ghost use Rattle.hc_rules.specs.Validators.{has_validator};
ghost use Rattle.hc_update.specs.declared.stored.Stored.{Stored};
ghost use Rattle.hc_update.specs.States.{initial_state, freshened};
ghost use Rattle.hc_update.specs.Identifying.{identifies};

/// The fields of a response that was stored before the year 10000 have one Date, which is the date
/// that its age is counted from.
pub fn initial_fields_state_their_date()
    ensures { (forward : RequestHead) (request_time : ℕ) (response : Message ResponseHead) (response_time : ℕ)
        → response_time < end_of_moments
        → date_stated (initial_state forward request_time response response_time).fields
        ≡ Some (initial_state forward request_time response response_time).times.date }
{}

/// So have they once it was freshened.
pub fn freshened_fields_state_their_date()
    ensures { (state : Stored) (received : List Field) (request_time response_time position : ℕ)
        → response_time < end_of_moments
        → date_stated (freshened state received request_time response_time position).fields
        ≡ Some (freshened state received request_time response_time position).times.date }
{}

/// A response without a validator is freshened by no 304.
pub fn without_validator_never_identified()
    ensures { (state : Stored) (forward : RequestHead) (response : ResponseHead)
        → has_validator state.fields ≡ false → identifies state forward response ≡ false }
{}
