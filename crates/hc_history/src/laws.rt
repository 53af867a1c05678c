//! Laws of the definitions.

ghost use Rattle.std.specs.Prelude.{◌≡◌, ◌&&◌, ◌≢◌, ◌≤◌, ◌<◌, ◌+◌, ◌↔◌, ℕ, true, false, nat_lt, Bool, List, [], ◌∷◌, ◌++◌, Some, length, if◌then◌else◌};
ghost use Rattle.std.specs.List.{list_any};
ghost use Rattle.hc_fields.specs.declared.fields.Field.{Field};
ghost use Rattle.hc_head.specs.declared.head.ResponseHead.{ResponseHead};
ghost use Rattle.hc_head.specs.declared.head.Target.{Target};
ghost use Rattle.hc_head.specs.Targets.{same_target};
ghost use Rattle.hc_framing.specs.declared.message.Message.{Message};
ghost use Rattle.hc_update.specs.declared.stored.Stored.{Stored};
ghost use Rattle.hc_update.specs.States.{freshened};
ghost use Rattle.hc_update.specs.Identifying.{identifies};
ghost use Rattle.hc_status.specs.declared.marks.Mark.{Mark};
ghost use Rattle.hc_transcript.specs.declared.fault.RecordFault.{RecordFault};
ghost use Rattle.hc_transcript.specs.declared.fault.RecordFault.TheVariants.{Torn, Memory};
ghost use Rattle.hc_transcript.specs.declared.format.Format.{Format};
ghost use Rattle.hc_transcript.specs.Items.{Item, OriginResponse, Forward};
ghost use Rattle.hc_transcript.specs.History.{next_position, exchange_of, forward_of};
ghost use Rattle.hc_history.specs.declared.among.Among.{Among};
ghost use Rattle.hc_history.specs.declared.among.Among.TheVariants.{Any};
ghost use Rattle.hc_history.specs.declared.candidates.Candidate.{Candidate};
ghost use Rattle.hc_history.specs.declared.reasons.Reason.{Reason};
ghost use Rattle.hc_history.specs.declared.settings.Settings.{Settings};
ghost use Rattle.hc_history.specs.declared.verdicts.Counts.{Counts};
ghost use Rattle.hc_history.specs.declared.verdicts.Finding.{Finding};
ghost use Rattle.hc_history.specs.declared.verdicts.Verdict.{Verdict};
ghost use Rattle.hc_history.specs.declared.verdicts.Verdict.TheVariants.{Yes, No, Malformed};
ghost use Rattle.hc_history.specs.declared.kept.Kept.{Kept};
ghost use Rattle.hc_history.specs.declared.wrong.WrongReply.{WrongReply};
ghost use Rattle.hc_history.specs.declared.wrong.Ending.{Ending};
ghost use Rattle.hc_history.specs.declared.wrong.Ending.TheVariants.{Whole, Broken};
ghost use Rattle.hc_history.specs.States.{state_at, state_answered};
ghost use Rattle.hc_history.specs.Windows.{some_since, latest};
ghost use Rattle.hc_history.specs.Claims.{Claim};
ghost use Rattle.hc_history.specs.Allowed.{LetsPassMore, nothing_allowed, nothing_but_marks};
ghost use Rattle.hc_history.specs.Allowing.{filters};
ghost use Rattle.hc_history.specs.Filters.{strict_filters};
ghost use Rattle.hc_history.specs.Reused.{Pass, IsFirstFailed, filter_count};
ghost use Rattle.hc_history.specs.Forwarded.{carries, is_forwarded};
ghost use Rattle.hc_history.specs.Counting.{counts_of};
ghost use Rattle.hc_history.specs.Strict.{IsStrictlyRight, IsStrictlyWrong, is_answered, strict_counts};
ghost use Rattle.hc_history.specs.Right.{IsRight, IsRightBy, IsWrong, IsWrongBy, IsFinding};
ghost use Rattle.hc_history.specs.StrictVerdicts.{IsStrictVerdict};
ghost use Rattle.hc_history.specs.Verdicts.{IsVerdict};
ghost use Rattle.hc_history.specs.WrongReplies.{AreWrongReplies};
ghost use Rattle.hc_history.specs.Seen.{Seen, IsSeenAs, remaining, live_of, responses_since};
ghost use Rattle.hc_history.specs.Noting.{Notes};
ghost use Rattle.hc_history.specs.Furthest.{passed, furthest, furthest_live};
ghost use Rattle.hc_history.specs.Candidates.{AreCandidates};

/// A later 304 that identifies a stored response freshens it, so that one that was invalidated is valid
/// again.
pub fn later_update_clears_the_mark()
    ensures freshens { (h : List Item) (number moment position : ℕ) (response : Message ResponseHead) (forward : Forward) (kept : Kept)
        → state_at position h ≡ Some kept
        → forward_of number h ≡ Some forward
        → same_target forward.target kept.target ≡ true
        → identifies kept.state forward.request response.head ≡ true
        → state_at position (OriginResponse number moment response ∷ h) ≡ Some (record {
          target = kept.target;
          state = freshened kept.state response.head.fields forward.moment moment (next_position h);
        }) }
    ensures clears { (state : Stored) (received : List Field) (request_time response_time position : ℕ)
        → (freshened state received request_time response_time position).invalid ≡ false }
{}

/// Some item of a window passes a test exactly where the latest that does is later than the request, so that
/// it is enough to know the latest; and a stored response was validated later than it came, and before
/// the reply, so that it was validated in the window where that was later than the request.
pub fn window_is_what_is_later_than_the_request()
    ensures some { (test : List Item → Item → Bool) (since : ℕ) (h : List Item)
        → some_since test since h ≡ nat_lt since (latest test h) }
    ensures validated { (position at : ℕ) (h : List Item) (kept : Kept) → state_at position h ≡ Some kept
        → kept.state.validated_at ≡ Some at → (position < at) × (at ≤ length h) }
    // What the windows hold tells whether a reply carries a response of its window.
    ensures carried { (claim : Claim) (h : List Item) → is_forwarded claim h
        ≡ list_any (λ one. carries claim one.method one.status one.body)
        (responses_since claim.format claim.exchange claim.target claim.since h) }
{}

/// The first filter that leaves nobody is the one behind the most filters that one response passes. Who
/// passes how many is told by the furthest also among the recent alone.
pub fn least_reason_by_the_furthest()
    ensures all { (among : Among) (claim : Claim) (h : List Item) → furthest among claim h ≡ filter_count
        → Pass filter_count among claim h }
    ensures first { (claim : Claim) (h : List Item) → furthest Any claim h < filter_count
        → IsFirstFailed (furthest Any claim h + 1) claim h }
    ensures some { (n : ℕ) (among : Among) (claim : Claim) (h : List Item) → 1 ≤ n → n ≤ furthest among claim h → Pass n among claim h }
    ensures only { (n : ℕ) (among : Among) (claim : Claim) (h : List Item) → n ≤ filter_count → Pass n among claim h
        → n ≤ furthest among claim h }
{}

/// No reply is both right and wrong, and a wrong one has one reason.
pub fn wrong_by_one_reason()
    ensures right { (mark : Mark) (claim : Claim) (h : List Item) (why : Reason)
        → IsRightBy mark claim h → ¬ (IsWrongBy mark claim h why) }
    ensures one { (mark : Mark) (claim : Claim) (h : List Item) (why other : Reason)
        → IsWrongBy mark claim h why → IsWrongBy mark claim h other → why ≡ other }
{}

/// Where nothing is allowed beside the strict rules, a reply is right, or wrong by a reason, exactly where it
/// strictly is, the same is counted, and a verdict is the one on octets exactly where it strictly is.
pub fn nothing_allowed_is_strict()
    ensures right { (format : Format) (settings : Settings) (h : List Item) (item : Item) → settings.allowed ≡ nothing_allowed
        → IsRight format settings h item ↔ IsStrictlyRight format settings h item }
    ensures wrong { (format : Format) (settings : Settings) (h : List Item) (item : Item) (why : Reason) → settings.allowed ≡ nothing_allowed
        → IsWrong format settings h item why ↔ IsStrictlyWrong format settings h item why }
    ensures counts { (format : Format) (settings : Settings) (h : List Item) → settings.allowed ≡ nothing_allowed
        → counts_of format settings h ≡ strict_counts h }
    ensures verdict { (octets : List ℕ) (settings : Settings) (verdict : Verdict) → settings.allowed ≡ nothing_allowed
        → IsVerdict octets settings verdict ↔ IsStrictVerdict octets settings verdict }
    // The filters, and what is forwarded, are strict too where marks alone are inferred.
    ensures filters { (inferred : Bool) (claim : Claim) (kept : Kept) → claim.settings.allowed ≡ nothing_but_marks inferred
        → filters claim kept ≡ strict_filters claim kept }
    ensures forwarded { (inferred : Bool) (claim : Claim) (h : List Item) → claim.settings.allowed ≡ nothing_but_marks inferred
        → is_forwarded claim h ≡ is_answered claim h }
{}

/// A reply that is right is right, too, where more is let pass: with more slack, with more names that aren't compared,
/// or with more allowed, and for as many seconds at least; so a yes stays one, with the same counts.
pub fn more_allowed_keeps_right()
    ensures right { (format : Format) (more less : Settings) (h : List Item) (item : Item) → LetsPassMore more less
        → IsRight format less h item → IsRight format more h item }
    ensures yes { (octets : List ℕ) (more less : Settings) (counts : Counts) → LetsPassMore more less
        → IsVerdict octets less (Yes counts) → IsVerdict octets more (Yes counts) }
{}

/// What nothing freshens any more may be forgotten: the responses of the claim's target, as they are kept, tell how
/// many filters one earlier response passes.
pub fn forgotten_changes_no_reason()
    ensures one { (claim : Claim) (target : Target) (state : Stored)
        → passed (filters claim (record { target = target; state = remaining state }))
        ≡ passed (filters claim (record { target = target; state = state })) }
    ensures live { (among : Among) (claim : Claim) (h : List Item)
        → furthest_live among claim (live_of claim.target h) ≡ furthest among claim h }
{}

/// After a history a claim has one list of candidates at most.
pub fn one_list_of_candidates()
    ensures { (claim : Claim) (h : List Item) (candidates others : List Candidate)
        → AreCandidates claim h candidates → AreCandidates claim h others → candidates ≡ others }
{}

/// The first of the candidates passes the most filters that one earlier response passes; where there is none,
/// no response passes any.
pub fn first_candidate_is_the_furthest()
    ensures first { (claim : Claim) (h : List Item) (candidate : Candidate) (others : List Candidate)
        → AreCandidates claim h (candidate ∷ others) → candidate.passed ≡ furthest Any claim h }
    ensures none { (claim : Claim) (h : List Item) → AreCandidates claim h [] → furthest Any claim h ≡ 0 }
{}

/// It may be forgotten before an item as well as after it.
pub fn forgetting_and_noting_commute()
    ensures { (forward : Forward) (position moment : ℕ) (response : Message ResponseHead) (state : Stored)
        → remaining (state_answered forward position moment response (remaining state))
        ≡ remaining (state_answered forward position moment response state) }
{}

/// What is seen as a history goes on, by the next item, to what is seen as the history with it.
pub fn noting_goes_on()
    ensures { (format : Format) (old new : Seen) (h : List Item) (item : Item)
        → IsSeenAs format old h → Notes format old (next_position h) item new → IsSeenAs format new (item ∷ h) }
{}

/// What is seen of a history is enough to judge by: after two histories that are seen as the same, the
/// same reply has the same findings.
pub fn seen_is_enough()
    ensures one { (format : Format) (seen : Seen) (h g : List Item) (settings : Settings) (e moment : ℕ) (reply : Message ResponseHead) (found : Finding)
        → IsSeenAs format seen h → IsSeenAs format seen g
        → IsFinding format settings (exchange_of e h) moment reply h found
        → IsFinding format settings (exchange_of e g) moment reply g found }
    // Of no records what is seen is the same for both formats.
    ensures nothing { (format other : Format) (seen : Seen) → IsSeenAs format seen [] → IsSeenAs other seen [] }
{}

/// Octets have one verdict at most.
pub fn one_verdict()
    ensures { (octets : List ℕ) (settings : Settings) (one other : Verdict)
        → IsVerdict octets settings one → IsVerdict octets settings other → one ≡ other }
{}

/// No octets are malformed by want of memory.
pub fn memory_breaks_nothing()
    ensures { (octets : List ℕ) (settings : Settings) (position : ℕ) → ¬ (IsVerdict octets settings (Malformed position Memory)) }
{}

/// A no, and malformed by any fault but Torn, holds however the octets go on.
pub fn standing_verdict_stays()
    ensures no { (octets more : List ℕ) (settings : Settings) (position : ℕ) (why : Reason)
        → IsVerdict octets settings (No position why) → IsVerdict (octets ++ more) settings (No position why) }
    ensures malformed { (octets more : List ℕ) (settings : Settings) (position : ℕ) (fault : RecordFault)
        → fault ≢ Torn
        → IsVerdict octets settings (Malformed position fault) → IsVerdict (octets ++ more) settings (Malformed position fault) }
{}

/// The first of all wrong replies of octets is that of their no. Where there is none, they have a yes if they
/// are whole, and are malformed where they break.
pub fn wrong_replies_begin_with_the_verdict()
    ensures first { (octets : List ℕ) (settings : Settings) (wrong : WrongReply) (later : List WrongReply) (ending : Ending)
        → AreWrongReplies octets settings (wrong ∷ later) ending → IsVerdict octets settings (No wrong.position wrong.reason) }
    ensures whole { (octets : List ℕ) (settings : Settings)
        → AreWrongReplies octets settings [] Whole → (counts : Counts) × IsVerdict octets settings (Yes counts) }
    ensures broken { (octets : List ℕ) (settings : Settings) (position : ℕ) (fault : RecordFault)
        → AreWrongReplies octets settings [] (Broken position fault) → IsVerdict octets settings (Malformed position fault) }
{}

/// Octets have one list of all wrong replies at most, and their reading ends in one way.
pub fn one_list_of_wrong_replies()
    ensures { (octets : List ℕ) (settings : Settings) (wrongs others : List WrongReply) (ending other : Ending)
        → AreWrongReplies octets settings wrongs ending → AreWrongReplies octets settings others other
        → (wrongs ≡ others) × (ending ≡ other) }
{}

/// All wrong replies of a front of octets are the first of those of the octets, however either ends.
pub fn wrong_replies_of_a_front_come_first()
    ensures { (octets more : List ℕ) (settings : Settings) (wrongs others : List WrongReply) (ending other : Ending)
        → AreWrongReplies octets settings wrongs ending → AreWrongReplies (octets ++ more) settings others other
        → (later : List WrongReply) × (others ≡ wrongs ++ later) }
{}
