//! What holds of verdicts.

ghost use Rattle.std.specs.Prelude.{◌≡◌, ℕ, List, false};
ghost use Rattle.hc_transcript.specs.Converting.{IsConverted};
ghost use Rattle.hc_history.specs.declared.settings.Settings.{Settings};
ghost use Rattle.hc_history.specs.declared.verdicts.Counts.{Counts};
ghost use Rattle.hc_history.specs.declared.verdicts.Verdict.TheVariants.{Yes};
ghost use Rattle.hc_history.specs.Verdicts.{IsVerdict};

/// A transcript to which the answer is yes gets yes, with the same counts, when it is converted to the first format,
/// unless marks are inferred, which only the second format lets them be. What is told of causes only makes the auditor
/// stricter: a transcript may get no where the converted one gets yes.
pub fn converting_keeps_a_yes()
    ensures { (octets text : List ℕ) (settings : Settings) (counts : Counts) → settings.allowed.inferred_marks ≡ false
        → IsVerdict octets settings (Yes counts) → IsConverted octets text → IsVerdict text settings (Yes counts) }
{}
