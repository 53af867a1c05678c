//! Laws of the definitions.

ghost use Rattle.std.specs.Prelude.{◌≡◌, ◌≢◌, ℕ, ◌⊎◌, Bool, List, [], ◌∷◌, ◌++◌, None, map};
ghost use Rattle.hc_transcript.specs.declared.fault.RecordFault.{RecordFault};
ghost use Rattle.hc_transcript.specs.declared.format.Format.{Format};
ghost use Rattle.hc_transcript.specs.declared.format.Format.TheVariants.{First};
ghost use Rattle.hc_transcript.specs.declared.line.Kind.{Kind};
ghost use Rattle.hc_transcript.specs.declared.line.ToldCause.{ToldCause};
ghost use Rattle.hc_transcript.specs.declared.record.Record.{Record};
ghost use Rattle.hc_transcript.specs.Records.{CanTell, line_of, record_text};
ghost use Rattle.hc_transcript.specs.Items.{Item};
ghost use Rattle.hc_transcript.specs.Checks.{line_fault};
ghost use Rattle.hc_transcript.specs.Transcript.{IsItemOf, Follows, Splits, GoesOn, IsTranscript};
ghost use Rattle.hc_transcript.specs.Converting.{converted, item_without_cause, without_cause};
ghost use Rattle.hc_transcript.specs.Written.{IsWritable, written_as};
ghost use Rattle.hc_transcript.specs.Malformed.{HasNoOpening, IsUnfinishedOpening, IsUnfinished, IsNoMessage, BreaksAfter};

/// A record's octets are read as one item at most, and as none where they are no message of its
/// kind.
pub fn one_item()
    ensures one { (kind : Kind) (cause : ToldCause) (number moment : ℕ) (to_head : Bool) (octets : List ℕ) (item other : Item)
        → IsItemOf kind cause number moment to_head octets item → IsItemOf kind cause number moment to_head octets other
        → item ≡ other }
    ensures none { (kind : Kind) (cause : ToldCause) (number moment : ℕ) (to_head : Bool) (octets : List ℕ) (item : Item)
        → IsNoMessage kind to_head octets → ¬ (IsItemOf kind cause number moment to_head octets item) }
{}

/// A transcript, with the text of a record behind it that may follow, is a transcript of one record
/// more.
pub fn record_text_goes_on()
    ensures { (format : Format) (octets : List ℕ) (records : List Record) (h : List Item) (r : Record) (item : Item)
        → IsTranscript format octets records h → Follows format h r item
        → IsTranscript format (octets ++ record_text format r) (r ∷ records) (item ∷ h) }
{}

/// A record that is written for an item is read back as that very item: its message's head may be
/// written, its body is within its limit, in the first format it has no cause, and the record keeps to
/// the format behind the transcript.
pub fn written_record_read_back()
    ensures { (format : Format) (octets : List ℕ) (records : List Record) (h : List Item) (item : Item)
        → IsTranscript format octets records h → IsWritable h item → CanTell format (written_as h item)
        → line_fault h (line_of format (written_as h item)) ≡ None
        → IsTranscript format (octets ++ record_text format (written_as h item)) (written_as h item ∷ records) (item ∷ h) }
{}

/// Octets are of one format at most, and a transcript of one list of records, read as one list of
/// items; and of two readings of a front of them one goes on from the other.
pub fn one_transcript()
    ensures format { (octets : List ℕ) (format other : Format) (records others : List Record) (h g : List Item) (rest behind : List ℕ)
        → Splits format octets records h rest → Splits other octets others g behind → format ≡ other }
    ensures one { (format : Format) (octets : List ℕ) (records others : List Record) (h g : List Item)
        → IsTranscript format octets records h → IsTranscript format octets others g → (records ≡ others) × (h ≡ g) }
    ensures front { (format : Format) (octets : List ℕ) (records others : List Record) (h g : List Item) (rest behind : List ℕ)
        → Splits format octets records h rest → Splits format octets others g behind
        → GoesOn format records h rest others g behind ⊎ GoesOn format others g behind records h rest }
{}

/// Octets that break stay broken, whatever follows.
pub fn broken_for_ever()
    ensures behind { (format : Format) (octets more : List ℕ) (h : List Item) (f : RecordFault)
        → BreaksAfter format octets h f → BreaksAfter format (octets ++ more) h f }
    ensures opening { (octets more : List ℕ) → HasNoOpening octets → HasNoOpening (octets ++ more) }
{}

/// Octets break in one place at most, and by one fault; no record is read behind it, and they are no
/// transcript.
pub fn breaks_once()
    ensures one { (format other : Format) (octets : List ℕ) (h g : List Item) (f e : RecordFault)
        → BreaksAfter format octets h f → BreaksAfter other octets g e → (format ≡ other) × (h ≡ g) × (f ≡ e) }
    ensures last { (format other : Format) (octets : List ℕ) (h : List Item) (f : RecordFault) (records : List Record) (g : List Item) (rest : List ℕ)
        → BreaksAfter format octets h f → Splits other octets records g rest → (items : List Item) × (h ≡ items ++ g) }
    ensures whole { (format other : Format) (octets : List ℕ) (h : List Item) (f : RecordFault) (records : List Record) (g : List Item)
        → BreaksAfter format octets h f → ¬ (IsTranscript other octets records g) }
    // Behind octets that don't begin with an opening no record is read, and they can't go on to one.
    ensures opening { (octets : List ℕ) (format : Format) (records : List Record) (h : List Item) (rest : List ℕ)
        → HasNoOpening octets → ¬ (Splits format octets records h rest) }
    ensures hopeless { (octets : List ℕ) → HasNoOpening octets → ¬ (IsUnfinishedOpening octets) }
{}

/// Octets end inside a record in one place at most; no record is read behind it, and they are no
/// transcript and don't break.
pub fn unfinished_once()
    ensures one { (format other : Format) (octets : List ℕ) (records others : List Record) (h g : List Item) (rest behind : List ℕ)
        → Splits format octets records h rest → IsUnfinished format (line_fault h) rest
        → Splits other octets others g behind → IsUnfinished other (line_fault g) behind
        → (records ≡ others) × (h ≡ g) × (rest ≡ behind) }
    ensures last { (format other : Format) (octets : List ℕ) (records others : List Record) (h g : List Item) (rest behind : List ℕ)
        → Splits format octets records h rest → IsUnfinished format (line_fault h) rest
        → Splits other octets others g behind → (items : List Item) × (h ≡ items ++ g) }
    ensures whole { (format other : Format) (octets : List ℕ) (records others : List Record) (h g : List Item) (rest : List ℕ)
        → Splits format octets records h rest → rest ≢ [] → IsUnfinished format (line_fault h) rest
        → ¬ (IsTranscript other octets others g) }
    ensures unbroken { (format other : Format) (octets : List ℕ) (records : List Record) (h g : List Item) (rest : List ℕ) (f : RecordFault)
        → Splits format octets records h rest → IsUnfinished format (line_fault h) rest → ¬ (BreaksAfter other octets g f) }
    // Before an opening is whole no record is read.
    ensures opening { (format : Format) (octets : List ℕ) (records : List Record) (h : List Item) (rest : List ℕ)
        → IsUnfinishedOpening octets → ¬ (Splits format octets records h rest) }
{}

/// What a transcript is converted to is a transcript of the first format: of the same records without causes.
pub fn converted_is_a_transcript()
    ensures { (format : Format) (octets : List ℕ) (records : List Record) (h : List Item) → IsTranscript format octets records h
        → IsTranscript First (converted records) (map without_cause records) (map item_without_cause h) }
{}

/// A transcript of the first format is converted to itself.
pub fn first_format_is_converted_to_itself()
    ensures { (octets : List ℕ) (records : List Record) (h : List Item) → IsTranscript First octets records h → converted records ≡ octets }
{}
