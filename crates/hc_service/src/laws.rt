//! What holds of every cache that does what it owes.

ghost use Rattle.std.specs.Prelude.{◌≡◌, ℕ, Bool, ◌+◌, ◌≤◌, ◌<◌, true, false, List, [], ◌∷◌, ◌++◌, drop, length, Option, Some, None, codes};
ghost use Rattle.hc_fields.specs.declared.fields.Field.{Field};
ghost use Rattle.hc_fields.specs.Numbers.{end_of_moments};
ghost use Rattle.hc_fields.specs.Values.{values_of};
ghost use Rattle.hc_head.specs.declared.head.RequestHead.{RequestHead};
ghost use Rattle.hc_head.specs.declared.head.ResponseHead.{ResponseHead};
ghost use Rattle.hc_head.specs.declared.head.Target.{Target};
ghost use Rattle.hc_head.specs.Methods.{is_head};
ghost use Rattle.hc_head.specs.Statuses.{not_modified};
ghost use Rattle.hc_framing.specs.declared.message.Message.{Message};
ghost use Rattle.hc_fresh.specs.Lifetimes.{says, seconds_said, stale_forbidden};
ghost use Rattle.hc_update.specs.declared.stored.Stored.{Stored};
ghost use Rattle.hc_transcript.specs.Items.{ClientReply, ClientRequest, Exchange, Forward, Item, OriginFailure, OriginRequest, OriginResponse};
ghost use Rattle.hc_transcript.specs.Checks.{cause_is_open, has_right_cause};
ghost use Rattle.hc_transcript.specs.History.{cause_of, exchange_of, forward_of, next_position};
ghost use Rattle.hc_transcript.specs.Limits.{greatest_number};
ghost use Rattle.hc_transcript.specs.Records.{told as cause_told};
ghost use Rattle.hc_transcript.specs.Written.{IsWritableAnswer, IsWritableAsk};
ghost use Rattle.hc_history.specs.Right.{IsRight};
ghost use Rattle.hc_head.specs.Statuses.{is_error_status};
ghost use Rattle.hc_status.specs.declared.cache_status.Handling.{Handling};
ghost use Rattle.hc_store.specs.Calls.{Freshens};
ghost use Rattle.hc_service.specs.declared.numbers.Numbers.{Numbers};
ghost use Rattle.hc_service.specs.Numbers.{asked, is_later, noted, one_more, sent};
ghost use Rattle.hc_service.specs.Sending.{recorded_format, failure_record, forward_record, records_of, reply_record, request_record, response_record};
ghost use Rattle.hc_store.specs.Choosing.{is_selected, is_selected_validated};
ghost use Rattle.hc_incoming.specs.Requests.{IsRequest};
ghost use Rattle.hc_store.specs.Entries.{AllHeld, Holdings, sets_cookie};
ghost use Rattle.hc_service.specs.declared.cases.Cause.{Cause};
ghost use Rattle.hc_service.specs.declared.open.OpenForward.{OpenForward};
ghost use Rattle.hc_service.specs.Answers.{Renews};
ghost use Rattle.hc_service.specs.Choices.{Finds, Stores, may_update, validation_by};
ghost use Rattle.hc_service.specs.Laws.{ClosesOn, HasSources, HoldsNoCookie, IsCountedOn, IsReceivedAnswer, IsReceivedAsk, IsToldStatus, is_response, recorded_forward, with_record, KeepsAgreement, KeepsAll, KeepsOn};
ghost use Rattle.hc_service.specs.declared.action.Action.{Action};
ghost use Rattle.hc_service.specs.Serves.{Run, Serves, Takes, Turn};
ghost use Rattle.hc_service.specs.declared.event.Event.{Event};
ghost use Rattle.hc_transcript.specs.declared.record.Record.{Record};
ghost use Rattle.hc_service.specs.declared.settings.CoreSettings.{CoreSettings};
ghost use Rattle.hc_service.specs.declared.settings.CoreOptions.{CoreOptions};
ghost use Rattle.std.specs.FinMap.{get, insert, remove};
ghost use Rattle.hc_rules.specs.Laws.{IsForwardable};
ghost use Rattle.hc_service.specs.declared.open.OpenExchange.{OpenExchange};
ghost use Rattle.hc_service.specs.State.{Awaited, Connection, State, Table, exchange_for, new_connection, new_state_with};
ghost use Rattle.hc_service.specs.Agreement.{CanReply, AreAsked, AreCounted, AreReceived, AreLinked, Agrees, History, IsReadOf, IsReady, IsSound, IsConsistent};
ghost use Rattle.hc_service.specs.Runs.{EachLeads, Runs, RunsOn, RunsTo, nothing_yet, records_given, IsJudgedRight, StepResult, Steps, strict, with_octets};
ghost use Rattle.hc_service.specs.Asking.{allows_age, asks_for_fresh, is_answered_by_store};
ghost use Rattle.hc_service.specs.Replying.{Wanted, collapsed_reply, entry_reply, hit_reply, made_reply, passed_reply, replacing_reply};
ghost use Rattle.hc_history.specs.Usable.{age_at};
ghost use Rattle.hc_service.specs.Joining.{may_be_shared, AllHaveForwards, FewWait, LeavesNobody, WaitForOpen};
ghost use Rattle.hc_service.specs.Serving.{is_fresh, may_be_served, may_replace};
ghost use Rattle.hc_service.specs.Turns.{IsAnswer, after_origin_octets, after_client_octets, after_request, replied, wanted_now};
ghost use Rattle.hc_service.specs.Settings.{AreGood, is_name};
ghost use Rattle.hc_service.specs.Follows.{Follows};
ghost use Rattle.hc_service.specs.declared.event.Happening.TheVariants.{ClientOpened, Stopping};

use hc_rules::{forwards_are_writable, forwards_keep_the_target};

/// A new cache agrees with nothing having happened.
pub fn new_cache_agrees()
    ensures { (settings : CoreSettings) (options : CoreOptions) → Agrees (new_state_with settings options) nothing_yet }
{}

/// A run begins with a cache that agrees with what has happened.
pub fn runs_begin_with_agreement()
    ensures { (settings : CoreSettings) (s : State) (h : History) (event : Event) (events : List Event)
        (result : StepResult) (results : List StepResult) (records : List Record) (end : Option State)
        → Runs settings s h (event ∷ events) (result ∷ results) records end → Agrees s h }
{}

/// What is stored stays what the records say of it: valid responses of their target that may be stored,
/// as the records have left them, whatever the next record is and whatever the store is asked.
pub fn stored_responses_are_those_of_the_records()
    ensures other { (since : Target → ℕ) (items : List Item) (item : Item) (store : Holdings) → is_response item ≡ false
        → HasSources since items store → HasSources since (item ∷ items) store }
    ensures chosen { (since : Target → ℕ) (items : List Item) (target : Target) (asked : List Field) (old : Holdings)
        (chosen : Option Stored) (new : Holdings) → HasSources since items old → Finds target asked old chosen new
        → HasSources since items new }
    // A response that invalidates leaves nothing that the records see otherwise.
    ensures renewed { (since : Target → ℕ) (items : List Item) (number moment : ℕ) (response : Message ResponseHead)
        (forward : OpenForward) (old new : Holdings)
        → forward_of number items ≡ Some (recorded_forward forward) → HasSources since items old
        → Renews forward moment (next_position items) response.head old new
        → HasSources since (OriginResponse number moment response ∷ items) new }
    // What a 304 is about is then what the records make of it, whatever memory takes away.
    ensures freshened { (since : Target → ℕ) (items : List Item) (number moment : ℕ) (response : Message ResponseHead)
        (forward : OpenForward) (old new : Holdings)
        → forward_of number items ≡ Some (recorded_forward forward) → HasSources since items old
        → may_update forward response.head ≡ true
        → Freshens (validation_by forward moment (next_position items) response.head) forward.target old new
        → HasSources since (OriginResponse number moment response ∷ items) new }
    ensures put { (since : Target → ℕ) (items : List Item) (number moment : ℕ) (response : Message ResponseHead)
        (forward : OpenForward) (old new : Holdings) (stored : Bool)
        → forward_of number items ≡ Some (recorded_forward forward) → since forward.target < next_position items
        → HasSources since (OriginResponse number moment response ∷ items) old
        → Stores forward moment response old stored new
        → HasSources since (OriginResponse number moment response ∷ items) new }
{}

/// A hit is right in the strictest audit: a stored response that the request selects and that may be
/// served is reused, whatever has happened besides.
pub fn hits_are_right()
    ensures { (since : Target → ℕ) (items : List Item) (x : Exchange) (wanted : Wanted) (stored : Stored) → is_name wanted.name ≡ true
        → exchange_of x.number items ≡ Some x → wanted.asked ≡ x.request → IsSound since items x.target stored
        → is_answered_by_store x.request.method ≡ true → is_selected x.request.fields stored ≡ true
        → may_be_served x.request.fields stored wanted.moment ≡ true
        → IsRight recorded_format strict items (ClientReply x.number wanted.moment (hit_reply wanted stored)) }
{}

/// What forbids that a stored response is served, or takes the place of an error, is obeyed whatever else
/// the request and the response say: `no-cache` of either (RFC 9111 sections 5.2.1.4 and 5.2.2.4), what
/// forbids a stale one (section 4.2.4), `min-fresh` (section 5.2.1.3) and `max-age` of the request
/// (section 5.2.1.1).
pub fn what_forbids_serving_is_obeyed()
    ensures no_cache { (asked : List Field) (stored : Stored) (moment : ℕ)
        → says (codes "no-cache") stored.fields ≡ true
        → (may_be_served asked stored moment ≡ false) × (may_replace asked stored moment ≡ false) }
    ensures no_cache_of_the_request { (asked : List Field) (stored : Stored) (moment : ℕ)
        → says (codes "no-cache") asked ≡ true
        → (may_be_served asked stored moment ≡ false) × (may_replace asked stored moment ≡ false) }
    ensures stale { (asked : List Field) (stored : Stored) (moment : ℕ)
        → is_fresh stored moment ≡ false → stale_forbidden stored.fields ≡ true
        → (may_be_served asked stored moment ≡ false) × (may_replace asked stored moment ≡ false) }
    ensures min_fresh { (asked : List Field) (stored : Stored) (moment : ℕ)
        → is_fresh stored moment ≡ false → asks_for_fresh (seconds_said (codes "min-fresh") asked) ≡ true
        → may_be_served asked stored moment ≡ false }
    ensures max_age { (asked : List Field) (stored : Stored) (moment : ℕ)
        → allows_age (age_at stored moment) (seconds_said (codes "max-age") asked) ≡ false
        → may_be_served asked stored moment ≡ false }
{}

/// What the origin answered to a forward of the request is a right reply, and so is one of status 400
/// or more that the cache makes itself. A stored response is one where the origin has validated it in
/// the meantime, and where it is fresh or may be served stale on errors, in place of an error or of a
/// failure.
pub fn other_replies_are_right()
    ensures passed { (items : List Item) (f moment : ℕ) (response : Message ResponseHead) (forward : OpenForward)
        (x : Exchange) (wanted : Wanted) (why : Cause) (stored : Bool) → is_name wanted.name ≡ true
        → forward_of f items ≡ Some (recorded_forward forward) → cause_of f items ≡ Some x.number
        → exchange_of x.number items ≡ Some x → forward.request.method ≡ x.request.method → forward.target ≡ x.target
        → (is_head x.request.method ≡ true → response.body ≡ [])
        → IsRight recorded_format strict (OriginResponse f moment response ∷ items)
        (ClientReply x.number wanted.moment (passed_reply wanted why stored response)) }
    ensures made { (items : List Item) (x : Exchange) (wanted : Wanted) (status : ℕ)
        → exchange_of x.number items ≡ Some x → 400 ≤ status
        → IsRight recorded_format strict items (ClientReply x.number wanted.moment (made_reply wanted status)) }
    ensures validated { (since : Target → ℕ) (items : List Item) (x : Exchange) (wanted : Wanted) (why : Cause) (position : ℕ)
        (stored : Stored) → is_name wanted.name ≡ true → exchange_of x.number items ≡ Some x
        → wanted.asked ≡ x.request → IsSound since items x.target stored → is_answered_by_store x.request.method ≡ true
        → is_selected_validated x.request.fields position stored ≡ true → x.position < position
        → IsRight recorded_format strict items
        (ClientReply x.number wanted.moment (replacing_reply wanted why (Some not_modified) stored)) }
    ensures in_place_of_error { (since : Target → ℕ) (items : List Item) (f moment : ℕ) (response : Message ResponseHead)
        (forward : OpenForward) (x : Exchange) (wanted : Wanted) (why : Cause) (stored : Stored)
        → is_name wanted.name ≡ true → forward_of f items ≡ Some (recorded_forward forward)
        → forward.target ≡ x.target → is_error_status response.head.status ≡ true
        → exchange_of x.number items ≡ Some x → wanted.asked ≡ x.request
        → IsSound since (OriginResponse f moment response ∷ items) x.target stored
        → is_answered_by_store x.request.method ≡ true → is_selected x.request.fields stored ≡ true
        → may_replace x.request.fields stored wanted.moment ≡ true
        → IsRight recorded_format strict (OriginResponse f moment response ∷ items)
        (ClientReply x.number wanted.moment (replacing_reply wanted why (Some response.head.status) stored)) }
    ensures in_place_of_failure { (since : Target → ℕ) (items : List Item) (f moment : ℕ) (forward : OpenForward) (x : Exchange)
        (wanted : Wanted) (why : Cause) (stored : Stored)
        → is_name wanted.name ≡ true → forward_of f items ≡ Some (recorded_forward forward)
        → forward.target ≡ x.target → exchange_of x.number items ≡ Some x → wanted.asked ≡ x.request
        → IsSound since (OriginFailure f moment ∷ items) x.target stored
        → is_answered_by_store x.request.method ≡ true → is_selected x.request.fields stored ≡ true
        → may_replace x.request.fields stored wanted.moment ≡ true
        → IsRight recorded_format strict (OriginFailure f moment ∷ items)
        (ClientReply x.number wanted.moment (replacing_reply wanted why None stored)) }
    // What answered another request is one to a request that waited for it, where it lies behind that.
    ensures shared { (since : Target → ℕ) (items : List Item) (x : Exchange) (wanted : Wanted) (stored : Stored)
        → is_name wanted.name ≡ true → exchange_of x.number items ≡ Some x → wanted.asked ≡ x.request
        → IsSound since items x.target stored → x.position ≤ since x.target
        → is_answered_by_store x.request.method ≡ true → is_selected x.request.fields stored ≡ true
        → may_be_shared stored wanted.moment ≡ true
        → IsRight recorded_format strict items (ClientReply x.number wanted.moment (collapsed_reply wanted stored)) }
{}

/// What is read off a connection can be recorded and passed on.
pub fn received_messages_can_be_recorded()
    ensures request { (octets : List ℕ) (request : Message RequestHead) (target : Target) (size : ℕ)
        → IsRequest octets request target size → IsReceivedAsk request target }
    ensures response { (ended to_head : Bool) (octets : List ℕ) (response : Message ResponseHead)
        → IsAnswer ended to_head octets response → IsReceivedAnswer to_head response }
{}

/// What is recorded keeps to the format of a transcript, as far as records can be numbered, and the counts
/// stay those of the records; that of a forward where its cause is an open exchange, or where it has none.
pub fn records_keep_to_the_format()
    ensures ask { (n : Numbers) (h : History) (request : Message RequestHead) (target : Target) → AreCounted n h
        → IsWritableAsk request target → one_more n.records ≤ greatest_number
        → AreCounted (asked n) (with_record (request_record (one_more n.exchange) n.moment request)
        (ClientRequest (one_more n.exchange) n.moment request target) h) }
    ensures send { (n : Numbers) (h : History) (cause : Option ℕ) (request : Message RequestHead) (target : Target)
        → AreCounted n h → has_right_cause (cause_told cause) (cause_is_open (cause_told cause) h.items) ≡ true
        → IsWritableAsk request target → one_more n.records ≤ greatest_number
        → AreCounted (sent n) (with_record (forward_record (one_more n.forward) n.moment cause request)
        (OriginRequest (one_more n.forward) n.moment request target cause) h) }
    ensures response { (n : Numbers) (h : History) → AreCounted n h → one_more n.records ≤ greatest_number
        → (f : ℕ) (forward : Forward) (response : Message ResponseHead) → 1 ≤ f → f ≤ greatest_number
        → forward_of f h.items ≡ Some forward → IsWritableAnswer (is_head forward.request.method) response
        → response.head.status < 1000
        → AreCounted (noted n) (with_record (response_record f n.moment (is_head forward.request.method) response)
        (OriginResponse f n.moment response) h) }
    ensures failure { (n : Numbers) (h : History) → AreCounted n h → one_more n.records ≤ greatest_number
        → (f : ℕ) (forward : Forward) → 1 ≤ f → f ≤ greatest_number → forward_of f h.items ≡ Some forward
        → AreCounted (noted n) (with_record (failure_record f n.moment) (OriginFailure f n.moment) h) }
    ensures reply { (n : Numbers) (h : History) → AreCounted n h → one_more n.records ≤ greatest_number
        → (e : ℕ) (exchange : Exchange) (reply : Message ResponseHead) → 1 ≤ e → e ≤ greatest_number
        → exchange_of e h.items ≡ Some exchange → IsWritableAnswer (is_head exchange.request.method) reply
        → reply.head.status < 1000
        → AreCounted (noted n) (with_record (reply_record e n.moment (is_head exchange.request.method) reply)
        (ClientReply e n.moment reply) h) }
{}

/// The open exchanges stay those of the connections, whatever opens, closes or is answered.
pub fn open_exchanges_are_those_of_the_connections()
    ensures opened { (last : Option ℕ) (ks : Table Connection) (xs : Table OpenExchange) → AreLinked last ks xs
        → (c : ℕ) → is_later c last ≡ true → AreLinked (Some c) (insert ks c new_connection) xs }
    ensures same { (last : Option ℕ) (ks : Table Connection) (xs : Table OpenExchange) → AreLinked last ks xs
        → (c : ℕ) (k other : Connection) → get ks c ≡ Some k → other.exchange ≡ k.exchange
        → AreLinked last (insert ks c other) xs }
    ensures closed { (last : Option ℕ) (ks : Table Connection) (xs : Table OpenExchange) → AreLinked last ks xs
        → (c : ℕ) (k : Connection) → get ks c ≡ Some k → k.exchange ≡ None → AreLinked last (remove ks c) xs }
    ensures asked { (last : Option ℕ) (ks : Table Connection) (xs : Table OpenExchange) → AreLinked last ks xs
        → (c e : ℕ) (behind : List ℕ) (k : Connection) (x : OpenExchange) → get ks c ≡ Some k → k.exchange ≡ None
        → get xs e ≡ None → x.connection ≡ c → IsForwardable x.request x.target
        → AreLinked last (insert ks c (after_request e behind k)) (insert xs e x) }
    ensures answered { (last : Option ℕ) (ks : Table Connection) (xs : Table OpenExchange) → AreLinked last ks xs
        → (e : ℕ) (x : OpenExchange) (k : Connection) → get xs e ≡ Some x → get ks x.connection ≡ Some k
        → (closes : Bool) (behind : List ℕ)
        → AreLinked last (replied closes x.connection behind k ks) (remove xs e) }
{}

/// What is open stays what the records leave open, whatever is asked, sent, received and answered.
pub fn what_is_open_is_that_of_the_records()
    ensures alone { (last other : ℕ) (xs : Table OpenExchange) (fs : Table Awaited) (items : List Item)
        → AreAsked last other xs fs items → (e t u : ℕ) (request : Message RequestHead) (target : Target)
        (reply : Message ResponseHead) → last < e
        → AreAsked e other xs fs (ClientReply e u reply ∷ ClientRequest e t request target ∷ items) }
    ensures origin_octets { (last other : ℕ) (xs : Table OpenExchange) (fs : Table Awaited) (items : List Item)
        → AreAsked last other xs fs items → (f : ℕ) (octets : List ℕ) (a : Awaited) → get fs f ≡ Some a
        → AreAsked last other xs (insert fs f (after_origin_octets octets a)) items }
    ensures answered { (last other : ℕ) (xs : Table OpenExchange) (fs : Table Awaited) (items : List Item)
        → AreAsked last other xs fs items → (f moment : ℕ) (response : Message ResponseHead) (a : Awaited)
        → get fs f ≡ Some a → (e t : ℕ) (reply : Message ResponseHead) → exchange_for a.forward.purpose ≡ Some e
        → AreAsked last other (remove xs e) (remove fs f)
        (ClientReply e t reply ∷ OriginResponse f moment response ∷ items) }
    ensures failed { (last other : ℕ) (xs : Table OpenExchange) (fs : Table Awaited) (items : List Item)
        → AreAsked last other xs fs items → (f moment : ℕ) (a : Awaited)
        → get fs f ≡ Some a → (e t : ℕ) (reply : Message ResponseHead) → exchange_for a.forward.purpose ≡ Some e
        → AreAsked last other (remove xs e) (remove fs f)
        (ClientReply e t reply ∷ OriginFailure f moment ∷ items) }
{}

/// What is unread of a connection stays what came behind its last whole request, and what came of the
/// origin on a forward is kept.
pub fn unread_octets_are_those_that_came()
    ensures client_octets { (last : Option ℕ) (forward : ℕ) (ks : Table Connection) (fs : Table Awaited)
        (client_octets origin_octets : ℕ → List ℕ) → AreReceived last forward ks fs client_octets origin_octets
        → (c : ℕ) (octets : List ℕ) (k : Connection) → IsReadOf (client_octets c) k → (is_later c last ≡ true → ⊥)
        → AreReceived last forward (insert ks c (after_client_octets octets k)) fs (with_octets c octets client_octets) origin_octets }
    ensures request { (octets : List ℕ) (k : Connection) → k.exchange ≡ None → IsReadOf octets k
        → (e : ℕ) (request : Message RequestHead) (target : Target) (size : ℕ)
        → IsRequest k.unread request target size → IsReadOf octets (after_request e (drop size k.unread) k) }
    ensures origin_octets { (last : Option ℕ) (forward : ℕ) (ks : Table Connection) (fs : Table Awaited)
        (client_octets origin_octets : ℕ → List ℕ) → AreReceived last forward ks fs client_octets origin_octets
        → (f : ℕ) (octets : List ℕ) (a : Awaited) → get fs f ≡ Some a → (forward < f → ⊥)
        → AreReceived last forward ks (insert fs f (after_origin_octets octets a)) client_octets (with_octets f octets origin_octets) }
{}

/// What is stored can be a reply that is recorded and read back, whatever the store is asked.
pub fn what_is_stored_can_be_a_reply()
    ensures put { (forward : OpenForward) (moment : ℕ) (response : Message ResponseHead) (old : Holdings) (stored : Bool)
        (new : Holdings) → IsReceivedAnswer false response → moment < end_of_moments
        → AllHeld (λ target state. CanReply state) old.entries → Stores forward moment response old stored new
        → AllHeld (λ target state. CanReply state) new.entries }
    ensures freshened { (forward : OpenForward) (moment position : ℕ) (to_head : Bool)
        (response : Message ResponseHead) (old new : Holdings)
        → IsReceivedAnswer to_head response → moment < end_of_moments
        → AllHeld (λ target state. CanReply state) old.entries
        → Freshens (validation_by forward moment position response.head) forward.target old new
        → AllHeld (λ target state. CanReply state) new.entries }
    ensures hit { (wanted : Wanted) (stored : Stored) → is_name wanted.name ≡ true → CanReply stored
        → IsWritableAnswer (is_head wanted.asked.method) (hit_reply wanted stored) }
    ensures replacing { (wanted : Wanted) (why : Cause) (origin : Option ℕ) (stored : Stored)
        → is_name wanted.name ≡ true → IsToldStatus origin → CanReply stored
        → IsWritableAnswer (is_head wanted.asked.method) (replacing_reply wanted why origin stored) }
    ensures shared { (wanted : Wanted) (stored : Stored) → is_name wanted.name ≡ true → CanReply stored
        → IsWritableAnswer (is_head wanted.asked.method) (collapsed_reply wanted stored) }
{}

/// Each turn keeps what a cache has to do with what has happened, whatever that is, and each reply among
/// its records is right in the strictest audit, as far as records can be numbered.
pub fn turns_keep_agreement()
    ensures { (settings : CoreSettings) → AreGood settings → (turn : Turn) (s : State) (actions : List Action)
        (other : State) (h : History) → IsConsistent s h → Takes settings turn s actions other
        → other.numbers.records ≤ greatest_number → KeepsOn turn actions h other }
{
    forwards_are_writable();
    forwards_keep_the_target();
}

/// So do turns, one after another, as an event owes them.
pub fn runs_of_turns_keep_agreement()
    ensures { (settings : CoreSettings) → AreGood settings → (turns : List Turn) (s : State) (actions : List Action)
        (other : State) (h : History) → IsConsistent s h → Run settings turns s actions other
        → other.numbers.records ≤ greatest_number → KeepsAll turns actions h other }
{
    forwards_are_writable();
    forwards_keep_the_target();
}

/// A served event keeps agreement, whatever has happened, as far as records can be numbered: its records go
/// on behind those before, each reply among them is right in the strictest audit, and nothing that has
/// come can be read yet.
pub fn events_keep_agreement()
    ensures { (settings : CoreSettings) → AreGood settings → (event : Event) (s : State) (actions : List Action)
        (other : State) (h : History) → Agrees s h → Serves settings event s actions other
        → other.numbers.records ≤ greatest_number → KeepsAgreement event.of actions h other }
{
    forwards_are_writable();
    forwards_keep_the_target();
}

/// Where a cache agrees with what has happened, each forward can end: the exchange that it is for is
/// open, and so is its connection.
pub fn agreement_is_ready()
    ensures { (s : State) (h : History) → Agrees s h → IsReady s }
{}

/// The count of records is that of what was given out, as far as records can be numbered, and never more.
pub fn records_given_out_are_counted()
    ensures { (settings : CoreSettings) (event : Event) (s : State) (actions : List Action) (other : State)
        → Serves settings event s actions other
        → IsCountedOn s.numbers.records (length (records_of actions)) other.numbers.records }
{}

/// Steps, one after another, are a run from whatever has happened, as far as records can be numbered:
/// each state between agrees with what has happened by then.
pub fn steps_are_runs()
    ensures { (settings : CoreSettings) → AreGood settings → (events : List Event) (results : List StepResult)
        (s : State) (h : History) (end : Option State) → Agrees s h → Steps settings s events results end
        → s.numbers.records + length (records_given results) ≤ greatest_number
        → Runs settings s h events results (records_given results) end }
{
    forwards_are_writable();
    forwards_keep_the_target();
}

/// Behind a run what has happened has gone on by its records, each reply among them is right, and a cache
/// that is left agrees with it.
pub fn runs_keep_agreement()
    ensures { (settings : CoreSettings) (events : List Event) (results : List StepResult) (s : State)
        (h : History) (records : List Record) (end : Option State)
        → Runs settings s h events results records end → RunsTo records h end }
{}

/// The strictest audit says yes to what a new cache records.
pub fn runs_are_judged_right()
    ensures { (settings : CoreSettings) (options : CoreOptions) (events : List Event) (results : List StepResult) (records : List Record)
        (end : Option State) → Runs settings (new_state_with settings options) nothing_yet events results records end
        → IsJudgedRight records }
{}

/// What has happened behind a run, and a run that goes on from there, are right together: from nothing on, run after
/// run, the records so far go on by those of the next, and each reply among them is right. So the strictest
/// audit says yes to what a cache records, over however many runs, and its count is that of all its records.
pub fn right_runs_join()
    ensures begins { (settings : CoreSettings) (options : CoreOptions) → RunsTo [] nothing_yet (Some (new_state_with settings options)) }
    ensures joins { (h : History) (records more : List Record) (mid end : Option State)
        → (to : RunsTo records h mid) → RunsTo more to.later end → RunsTo (records ++ more) h end }
    ensures counted { (records : List Record) (s : State) → RunsTo records nothing_yet (Some s)
        → s.numbers.records ≡ length records }
    ensures judged { (records : List Record) (end : Option State) → RunsTo records nothing_yet end
        → IsJudgedRight records }
{}

/// A run goes on where another has led, and both are one run; the count of records is then that of all of them.
pub fn runs_go_on()
    ensures on { (settings : CoreSettings) (events : List Event) (results : List StepResult) (s mid : State)
        (h : History) (records : List Record) → Runs settings s h events results records (Some mid)
        → RunsOn settings s h (record { events = events; results = results; records = records }) mid }
    ensures counted { (settings : CoreSettings) (events : List Event) (results : List StepResult) (s mid : State)
        (h : History) (records : List Record) → Runs settings s h events results records (Some mid)
        → mid.numbers.records ≡ s.numbers.records + length records }
{}

/// Steps go on where others have led, unless a refused growth has ended them.
pub fn steps_go_on()
    ensures { (settings : CoreSettings) (events others : List Event) (results answers : List StepResult)
        (s mid : State) (end : Option State) → Steps settings s events results (Some mid)
        → Steps settings mid others answers end → Steps settings s (events ++ others) (results ++ answers) end }
{}

/// Where steps have led a new cache, each forward can end, as far as records can be numbered.
pub fn steps_end_ready()
    ensures { (settings : CoreSettings) → AreGood settings → (options : CoreOptions) (events : List Event) (results : List StepResult)
        (s : State) → Steps settings (new_state_with settings options) events results (Some s)
        → length (records_given results) ≤ greatest_number → IsReady s }
{
    forwards_are_writable();
    forwards_keep_the_target();
}

/// Nobody is left waiting: behind each event, and so wherever steps have led a new cache, each request that
/// waits for the forward of another one waits for a forward that is open.
///
/// As far as records can be numbered, each open exchange has an open forward: the one that it waits for, or its
/// own. Who waits for a forward waits until that one's end, as it was, and no longer: behind it the request is
/// answered, or has a forward of its own, and so it stays.
pub fn nobody_is_left_waiting()
    ensures event { (settings : CoreSettings) (event : Event) (s : State) (actions : List Action) (other : State)
        → WaitForOpen s → Serves settings event s actions other → WaitForOpen other }
    ensures run { (settings : CoreSettings) (options : CoreOptions) (events : List Event) (results : List StepResult) (s : State)
        → Steps settings (new_state_with settings options) events results (Some s) → WaitForOpen s }
    ensures served { (settings : CoreSettings) (event : Event) (s : State) (actions : List Action) (other : State)
        (h : History) → Agrees s h → AllHaveForwards s → Serves settings event s actions other
        → other.numbers.records ≤ greatest_number → LeavesNobody s other }
    // From any state of a run to any later one.
    ensures on { (settings : CoreSettings) (events : List Event) (results : List StepResult) (s other : State)
        (h : History) (records : List Record) → AllHaveForwards s
        → Runs settings s h events results records (Some other) → LeavesNobody s other }
    // Where a run has led a new cache, and at each event on its way.
    ensures runs { (settings : CoreSettings) (options : CoreOptions) (events : List Event) (results : List StepResult)
        (records : List Record) (s : State)
        → Runs settings (new_state_with settings options) nothing_yet events results records (Some s) → AllHaveForwards s }
    ensures along { (settings : CoreSettings) (options : CoreOptions) (events : List Event) (results : List StepResult)
        (records : List Record) (end : Option State)
        → (runs : Runs settings (new_state_with settings options) nothing_yet events results records end)
        → EachLeads LeavesNobody settings (new_state_with settings options) nothing_yet events results records end runs }
{}

/// For each forward no more requests wait than may, behind each event and wherever steps, or a run, have led a
/// new cache.
pub fn few_wait_for_each_forward()
    ensures event { (settings : CoreSettings) (event : Event) (s : State) (actions : List Action) (other : State)
        → FewWait s → Serves settings event s actions other → FewWait other }
    ensures run { (settings : CoreSettings) (options : CoreOptions) (events : List Event) (results : List StepResult) (s : State)
        → Steps settings (new_state_with settings options) events results (Some s) → FewWait s }
    ensures runs { (settings : CoreSettings) (options : CoreOptions) (events : List Event) (results : List StepResult)
        (records : List Record) (s : State)
        → Runs settings (new_state_with settings options) nothing_yet events results records (Some s) → FewWait s }
{}

/// A cache that keeps no responses that set a cookie never holds one, and no reply from what it holds sets one: be it a
/// hit, or once it was validated, or in place of an error, or for a request that waited.
pub fn no_cookie_comes_from_the_store()
    ensures event { (settings : CoreSettings) (event : Event) (s : State) (actions : List Action) (other : State)
        → HoldsNoCookie s.store → Serves settings event s actions other → HoldsNoCookie other.store }
    ensures run { (settings : CoreSettings) (options : CoreOptions) (events : List Event) (results : List StepResult) (s : State)
        → options.keeps_cookies ≡ false → Steps settings (new_state_with settings options) events results (Some s)
        → HoldsNoCookie s.store }
    ensures replies { (wanted : Wanted) (handling : Handling) (stored : Stored) → sets_cookie stored ≡ false
        → values_of (codes "set-cookie") (entry_reply wanted handling stored).head.fields ≡ [] }
{}

/// What is open behind an event is what was, but for what the event and the cache's actions opened and closed, in
/// order; and there is room for as many connections as before. So whoever carries actions out knows of each connection
/// and of each forward whether it is open in the cache.
pub fn what_is_open_follows_the_actions()
    ensures { (settings : CoreSettings) (event : Event) (s : State) (actions : List Action) (other : State)
        → ((c : ℕ) → event.of ≡ ClientOpened c → get s.connections c ≡ None)
        → Serves settings event s actions other → Follows event.of s actions other }
{}

/// Once whoever serves a cache stops, each reply and each refusal closes its connection behind it, and each reply that
/// is wanted says so; and so it is from then on.
pub fn replies_close_behind_a_stop()
    ensures stops { (settings : CoreSettings) (event : Event) (s : State) (actions : List Action) (other : State)
        → event.of ≡ Stopping → Serves settings event s actions other → ClosesOn actions other }
    ensures closes { (settings : CoreSettings) (event : Event) (s : State) (actions : List Action) (other : State)
        → s.numbers.closing ≡ true → Serves settings event s actions other → ClosesOn actions other }
    ensures says { (settings : CoreSettings) (s : State) (request : RequestHead) (connection : Connection)
        → s.numbers.closing ≡ true → (wanted_now settings s request connection).closes ≡ true }
{}
