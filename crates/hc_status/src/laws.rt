//! What holds of the definitions themselves.

ghost use Rattle.std.specs.Prelude.{◌≡◌, ◌↔◌, ◌++◌, ◌∷◌, [], ℕ, List, Ok, Err, codes};
ghost use Rattle.hc_fields.specs.declared.fields.Field.{Field};
ghost use Rattle.hc_fields.specs.Values.{values_of};
ghost use Rattle.hc_status.specs.declared.cache_status.CacheStatus.{CacheStatus};
ghost use Rattle.hc_status.specs.declared.fault.SfFault.TheVariants.{InnerList, Syntax};
ghost use Rattle.hc_status.specs.declared.items.Member.{Member};
ghost use Rattle.hc_status.specs.Grammar.{BeginsInnerList, IsList};
ghost use Rattle.hc_status.specs.Marks.{cache_status, mark_of};
ghost use Rattle.hc_status.specs.Reading.{list_of};
ghost use Rattle.hc_status.specs.Texts.{IsPlain, member_text, written_mark, written_member};

/// The reader and the grammar say the same of all octets: they are one list, or an inner list begins
/// in them behind members, or they break the syntax.
pub fn one_list()
    ensures list { (octets : List ℕ) (members : List Member)
        → (IsList members octets ↔ (list_of octets ≡ Ok members)) }
    ensures inner_list { (octets : List ℕ) → (BeginsInnerList octets ↔ (list_of octets ≡ Err InnerList)) }
    // And where there is neither.
    ensures syntax { (octets : List ℕ)
        → ((¬ (BeginsInnerList octets) × ((members : List Member) → ¬ (IsList members octets)))
        ↔ (list_of octets ≡ Err Syntax)) }
{}

/// A member that the cache wrote is read as itself, and as the mark that it was written for.
pub fn member_read_back()
    // Its text is the list of that member.
    ensures list { (status : CacheStatus)
        → IsPlain status → list_of (member_text status) ≡ Ok (written_member status ∷ []) }
    // Where its line is the only one.
    ensures alone { (fields : List Field) (status : CacheStatus)
        → IsPlain status → values_of (codes "cache-status") fields ≡ member_text status ∷ []
        → mark_of fields ≡ written_mark status.handling }
    // And where its line is put behind lines that have members.
    ensures last { (fields : List Field) (line : Field) (first : Member) (more : List Member) (status : CacheStatus)
        → IsPlain status → cache_status fields ≡ Ok (first ∷ more)
        → line.name ≡ codes "cache-status" → line.value ≡ member_text status
        → mark_of (fields ++ line ∷ []) ≡ written_mark status.handling }
{}
