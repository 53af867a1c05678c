//! In what the response that is named falls short, as it is told.

ghost use Rattle.std.specs.Prelude.{◌≡◌, option_copied};
ghost use Rattle.std.specs.Option.{option_map};
ghost use Rattle.hc_gaps.specs.Demanding.{first_in, renewed_in};
ghost use Rattle.hc_why.specs.Demanding.{fields_of_end, source_among};

use crate::explaining::Explanation;
use hc_fields::Fields;
use hc_gaps::{Differences, FieldsOrigin, Selection};
use hc_history::Finding;
use hc_past::{End, NO_GET, Nearest, Shortfall, fields_of};
use hc_shown::{RecordName, Teller};
use hc_use::{AgeOrigin, Aged, Usage};

// A 304, and its fields, as far as they are known.
fn renewed_by<'a>(validator: Option<&'a End>) -> Option<(RecordName, &'a Fields)>
    ensures { option_map (λ one. one.1.now) result ≡ fields_of_end (option_copied validator.entry) }
{
    let end = validator?;
    let fields = fields_of(Some(end))?;
    Some((end.named, fields))
}

impl<'a> Explanation<'a> {
    // The record of the forward that the response answers which is named, as far as it is known.
    fn sent_of(&self, nearest: &Nearest<'_>) -> Option<RecordName> {
        self.source(nearest.position)?.sent
    }

    // What the age of the response is counted from.
    fn age_origin(&self, nearest: &Nearest<'_>) -> AgeOrigin {
        let (validator, sent) = match self.ends.validator {
            Some(validator) => (Some(validator.named), validator.sent),
            None if nearest.state.validated_at.is_some() => (None, None),
            None => (None, self.sent_of(nearest)),
        };
        AgeOrigin {
            validator,
            sent,
            aged: self.aged(nearest),
            is_by_expires: self.is_by_expires(nearest),
        }
    }

    // The response, where it came with an Age, and a 304 freshened it.
    fn aged(&self, nearest: &Nearest<'_>) -> Option<Aged> {
        let validator = self.ends.validator?;
        if !self.source(nearest.position)?.has(b"age") {
            return None;
        }
        Some(Aged {
            position: nearest.position,
            is_aged_anew: validator.has(b"age"),
        })
    }

    // What the fields of the response come from.
    pub(crate) fn fields_origin(&self, nearest: &Nearest<'_>) -> FieldsOrigin<'a>
        ensures renewed { renewed_in result ≡ fields_of_end (option_copied self.now.ends.validator) }
        ensures first { first_in result ≡ fields_of_end (source_among nearest.now.position self.now.ends.sources.items) }
    {
        FieldsOrigin {
            validator: renewed_by(self.ends.validator),
            position: nearest.position,
            first: fields_of(self.source(nearest.position)),
        }
    }

    // Whether Expires alone says the lifetime of the response, which is as it came.
    fn is_by_expires(&self, nearest: &Nearest<'_>) -> bool {
        let Some(source) = self.source(nearest.position) else {
            return false;
        };
        let is_as_it_came = nearest.state.validated_at.is_none();
        is_as_it_came && !source.has(b"cache-control") && source.has(b"expires")
    }

    // Tells by which members of its Vary the response doesn't answer the request.
    fn tell_selection<T: Teller>(
        &self,
        nearest: &Nearest<'_>,
        selection: &Selection,
        teller: &mut T,
    ) {
        let place = (nearest.position, self.sent_of(nearest));
        selection.tell(&self.claim, nearest.state, place, teller);
        match self.ends.validator {
            Some(validator) if self.was_validated(nearest) => {
                teller.record(", though the 304 ", validator.named);
                teller.words(" validated it");
            }
            _ => {}
        }
    }

    // Tells what is due, and what came.
    fn tell_gap<T: Teller>(&self, nearest: &Nearest<'_>, shortfall: &Shortfall, teller: &mut T) {
        let (claim, state) = (&self.claim, nearest.state);
        match shortfall {
            Shortfall::Asked => teller.method("method", "", &claim.request.method, NO_GET),
            Shortfall::Selected(selection) => self.tell_selection(nearest, selection, teller),
            Shortfall::Valid => self.ends.tell_invalidators(teller),
            Shortfall::Lifetime(usage) | Shortfall::Use(usage) => {
                let had_error = claim.has_error || claim.has_failure;
                usage.tell(had_error, self.age_origin(nearest), teller);
            }
            Shortfall::Body(gap) => gap.tell(claim, state, teller),
            Shortfall::Fields(found) => {
                found.tell((claim, state), self.fields_origin(nearest), teller);
            }
            Shortfall::Age(gap) => {
                gap.tell(claim.fields(), self.age_origin(nearest), teller);
            }
            Shortfall::Ttl(gap) => gap.tell(teller),
        }
    }

    // Tells that there is no 304 in the window.
    fn say_none<T: Teller>(&self, teller: &mut T) {
        let first = self.claim.since.saturating_add(1);
        let last = self.position.saturating_sub(1);
        if first < last {
            teller.count("; no 304 of this target in ", first, "..");
            teller.count("", last, "");
        } else {
            teller.words("; no 304 of this target after the request");
        }
    }

    // Tells the setting by which the response may be used, if there is one, and what would be found with it.
    fn say_setting<T: Teller>(&self, usage: &Usage, teller: &mut T) {
        let Some(setting) = usage.setting else {
            return;
        };
        let (name, seconds) = setting.named();
        teller.words("; an audit with ");
        teller.words(name);
        if let Some(seconds) = seconds {
            teller.count(" ", seconds, "");
        }
        if usage.slack != 0 {
            teller.words(" beside that slack");
        }
        teller.words(" would let that pass");
        if let Some(Finding::Wrong(reason)) = self.with_setting {
            teller.count(", and fail it by ", u64::from(reason.number()), " ");
            teller.words(reason.name());
        }
    }

    /// Tells in what the response that is named falls short, and that no 304 is about it, where it should be valid, or validated, or
    /// there are some.
    pub fn tell_shortfall<T: Teller>(
        &self,
        nearest: &Nearest<'_>,
        shortfall: &Shortfall,
        teller: &mut T,
    ) {
        self.tell_gap(nearest, shortfall, teller);
        self.tell_not_about(nearest, teller);
        let is_none = self.ends.not_about.listed.is_empty();
        if is_none && matches!(shortfall, Shortfall::Valid) {
            teller.words("; no 304 of this target since");
        }
        if let Some(usage) = shortfall.usage() {
            if is_none {
                self.say_none(teller);
            }
            self.say_setting(usage, teller);
        }
    }

    /// Tells how stale the response is that a right hit gives, and what permits that.
    pub fn tell_stale<T: Teller>(&self, nearest: &Nearest<'_>, teller: &mut T) {
        if let Some(stale) = &self.stale {
            stale.tell(self.age_origin(nearest), teller);
        }
    }
}
