//! Laws of the definitions.

ghost use Rattle.std.specs.Prelude.{◌≡◌, ◌≤◌, ◌<◌, ◌↔◌, ◌++◌, ◌∷◌, ℕ, true, List};
ghost use Rattle.std.specs.List.{Contains};
ghost use Rattle.hc_head.specs.declared.head.Target.{Target};
ghost use Rattle.hc_transcript.specs.declared.format.Format.{Format};
ghost use Rattle.hc_transcript.specs.declared.format.Format.TheVariants.{First};
ghost use Rattle.hc_transcript.specs.declared.record.Record.{Record};
ghost use Rattle.hc_transcript.specs.History.{next_position};
ghost use Rattle.hc_transcript.specs.Items.{Item};
ghost use Rattle.hc_transcript.specs.Transcript.{IsTranscript};
ghost use Rattle.hc_history.specs.declared.reasons.Reason.{Reason};
ghost use Rattle.hc_history.specs.declared.settings.Settings.{Settings};
ghost use Rattle.hc_history.specs.declared.verdicts.Counts.{Counts};
ghost use Rattle.hc_history.specs.declared.verdicts.Verdict.TheVariants.{Yes, No};
ghost use Rattle.hc_history.specs.declared.wrong.WrongReply.{WrongReply};
ghost use Rattle.hc_history.specs.Right.{AllRight, IsRight, IsWrong};
ghost use Rattle.hc_history.specs.Verdicts.{IsVerdict};
ghost use Rattle.hc_history.specs.WrongReplies.{AreWrongIn};
ghost use Rattle.hc_parts.specs.Joining.{AreRightParts, IsClearBefore, IsPartWrong, IsWrongInPart, in_whole};
ghost use Rattle.hc_parts.specs.Orderly.{AreInTurn, IsInTurn};
ghost use Rattle.hc_parts.specs.Parts.{KeepsCauses, goes_into, items_in, part_octets, position_in, records_in};

/// The items of a transcript are in turn, and each of such items goes into one part. Where it stands in that
/// part tells where it stands in the whole.
pub fn each_item_goes_into_one_part()
    ensures in_turn { (format : Format) (octets : List ℕ) (records : List Record) (h : List Item) → IsTranscript format octets records h → AreInTurn h }
    ensures one { (part : Target → ℕ) (h : List Item) (item : Item) → IsInTurn h item
        → (k : ℕ) × (goes_into part k h item ≡ true) × ((n : ℕ) → goes_into part n h item ≡ true → n ≡ k) }
    ensures position { (part : Target → ℕ) (k : ℕ) (later : List Item) (item : Item) (h : List Item) → goes_into part k h item ≡ true
        → position_in part k (next_position (items_in part k h)) (later ++ item ∷ h) ≡ next_position h }
{}

/// A part of a transcript is a transcript, whose items are those of the part, if each forward that is told to
/// be made for an exchange goes where that exchange goes. In the first format none is told to be.
pub fn parts_are_transcripts()
    ensures first_format { (part : Target → ℕ) (octets : List ℕ) (records : List Record) (h : List Item) → IsTranscript First octets records h → KeepsCauses part h }
    ensures part { (part : Target → ℕ) (k : ℕ) (format : Format) (octets : List ℕ) (records : List Record) (h : List Item)
        → IsTranscript format octets records h → KeepsCauses part h
        → IsTranscript format (part_octets part format k records h) (records_in part k records h) (items_in part k h) }
{}

/// Where each forward goes where its exchange goes, a reply is right in its part exactly if it is right in the
/// whole, and wrong by the same reason.
pub fn parts_are_judged_as_the_whole()
    ensures right { (part : Target → ℕ) (format : Format) (settings : Settings) (k : ℕ) (h : List Item) (item : Item)
        → AreInTurn h → KeepsCauses part h → goes_into part k h item ≡ true
        → IsRight format settings (items_in part k h) item ↔ IsRight format settings h item }
    ensures wrong { (part : Target → ℕ) (format : Format) (settings : Settings) (k : ℕ) (h : List Item) (item : Item) (why : Reason)
        → AreInTurn h → KeepsCauses part h → goes_into part k h item ≡ true
        → IsWrong format settings (items_in part k h) item why ↔ IsWrong format settings h item why }
    // So all are right exactly if all are in each part.
    ensures all { (part : Target → ℕ) (format : Format) (settings : Settings) (h : List Item) → AreInTurn h → KeepsCauses part h
        → AllRight format settings h ↔ ((k : ℕ) → AllRight format settings (items_in part k h)) }
{}

/// Where each forward goes where its exchange goes, the wrong replies of the whole are those of all parts, each
/// by where it stands in the whole.
pub fn wrong_replies_of_parts_are_those_of_the_whole()
    ensures part { (part : Target → ℕ) (format : Format) (settings : Settings) (k : ℕ) (h : List Item) → AreInTurn h → KeepsCauses part h
        → (others wrongs : List WrongReply) → AreWrongIn format settings (items_in part k h) others → AreWrongIn format settings h wrongs
        → (other : WrongReply) → Contains others other → Contains wrongs (in_whole part k h other) }
    ensures whole { (part : Target → ℕ) (format : Format) (settings : Settings) (h : List Item) → AreInTurn h → KeepsCauses part h
        → (wrongs : List WrongReply) → AreWrongIn format settings h wrongs
        → (wrong : WrongReply) → Contains wrongs wrong → IsWrongInPart part format settings h wrong }
{}

/// Where each forward goes where its exchange goes, a transcript gets yes exactly if each part gets it, and its
/// counts are those of all parts together.
pub fn yes_to_all_parts_is_yes_to_the_whole()
    ensures { (part : Target → ℕ) (n : ℕ) (format : Format) (octets : List ℕ) (settings : Settings) (records : List Record) (h : List Item)
        → IsTranscript format octets records h → KeepsCauses part h → ((target : Target) → part target < n) → (counts : Counts)
        → IsVerdict octets settings (Yes counts) ↔ AreRightParts part format settings records h n counts }
{}

/// Where each forward goes where its exchange goes, a transcript of which a part gets no gets the no that comes
/// first by its position in the whole.
pub fn first_no_of_the_parts_is_no_to_the_whole()
    ensures first { (part : Target → ℕ) (format : Format) (octets : List ℕ) (settings : Settings) (records : List Record) (h : List Item)
        → IsTranscript format octets records h → KeepsCauses part h
        → (position : ℕ) (why : Reason) → IsVerdict octets settings (No position why)
        → (k : ℕ) × IsPartWrong part format settings records h k position why }
    ensures none_earlier { (part : Target → ℕ) (format : Format) (octets : List ℕ) (settings : Settings) (records : List Record) (h : List Item)
        → IsTranscript format octets records h → KeepsCauses part h
        → (position : ℕ) (why : Reason) → IsVerdict octets settings (No position why)
        → (k other : ℕ) (reason : Reason) → IsPartWrong part format settings records h k other reason → position ≤ other }
    ensures least { (part : Target → ℕ) (n : ℕ) (format : Format) (octets : List ℕ) (settings : Settings) (records : List Record) (h : List Item)
        → IsTranscript format octets records h → KeepsCauses part h → ((target : Target) → part target < n)
        → (k position : ℕ) (why : Reason) → IsPartWrong part format settings records h k position why
        → ((j : ℕ) → j < n → IsClearBefore part format settings records h position j) → IsVerdict octets settings (No position why) }
{}
