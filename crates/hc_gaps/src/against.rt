//! Why a 304 isn't about a stored response (after RFC 9111 section 4.3.4).

ghost use Rattle.std.specs.Prelude.{◌≡◌, not, IfOk, is_some};
ghost use Rattle.hc_head.specs.Statuses.{not_modified};
ghost use Rattle.hc_update.specs.Identifying.{identifies};
ghost use Rattle.hc_gaps.specs.Against.{against_of, telling_of};

use hc_fields::{Fields, trimmed};
use hc_fresh::says;
use hc_head::{RequestHead, ResponseHead, is_get, is_head};
use hc_rules::{last_modified, selects, tag};
use hc_shown::{FieldOf, Teller};
use hc_update::{Stored, identifies};
use hc_use::Demand;
use std::alloc::{AllocError, Global};

/// The field by which a 304 tells which response it is about: its ETag, or else its Last-Modified, or else the If-None-Match or
/// the If-Modified-Since of its forward.
#[derive(Clone, Copy)]
pub enum Telling {
    Tag,
    Modified,
    AskedTag,
    AskedModified,
}

/// The first thing that stands against that a 304 is about a stored response.
#[derive(Clone, Copy)]
pub enum Against {
    /// It came before the response.
    Earlier,
    /// Its forward is no GET.
    Method,
    /// Its forward says `no-store`.
    ForwardNoStore,
    /// It says `private`.
    Private,
    /// It says `no-store`.
    NoStore,
    /// The Vary of the response doesn't select its forward.
    Unselected,
    /// The validators don't agree: what it tells by that field is something else.
    Validators(Telling),
}

impl Telling {
    // The field by which a 304 of those fields, to a forward of those, tells it.
    fn read(forwarded: &Fields, received: &Fields) -> Self
        ensures { result ≡ telling_of forwarded.now received.now }
    {
        if tag(received).is_some() {
            Telling::Tag
        } else if last_modified(received).is_some() {
            Telling::Modified
        } else if forwarded.contains(b"if-none-match") {
            Telling::AskedTag
        } else {
            Telling::AskedModified
        }
    }

    // The name of the field, of which message it is, and the name of what the response has for it.
    fn names(&self) -> (&'static str, &'static str, &'static str) {
        match self {
            Telling::Tag => ("etag", "", "etag"),
            Telling::Modified => ("last-modified", "", "last-modified"),
            Telling::AskedTag => ("if-none-match", " of its forward", "etag"),
            Telling::AskedModified => ("if-modified-since", " of its forward", "last-modified"),
        }
    }

    // What a 304 tells by it, and what the response of those fields has for it.
    fn sides<'a>(
        &self,
        stored: &'a Fields,
        forwarded: &'a Fields,
        received: &'a Fields,
    ) -> (FieldOf<'a>, FieldOf<'a>) {
        let (name, _, validator) = self.names();
        let told = match self {
            Telling::Tag | Telling::Modified => received,
            Telling::AskedTag | Telling::AskedModified => forwarded,
        };
        let due = FieldOf::new(validator.as_bytes(), stored);
        (FieldOf::new(name.as_bytes(), told), due)
    }
}

/// The first thing that stands against that the response to a forward, of the target of the stored response, is a 304 about it.
pub fn first_against(
    alloc: Global,
    state: &Stored,
    forward: &RequestHead,
    response: &ResponseHead,
) -> Result<Option<Against>, AllocError>
    ensures first { response.now.status ≡ not_modified → IfOk result (λ found. found ≡ against_of state.now forward.now response.now) }
    // Nothing stands against it exactly where it is about it.
    ensures exact { IfOk result (λ found. not (is_some found) ≡ identifies state.now forward.now response.now) }
{
    if !is_get(&forward.method) {
        return Ok(Some(Against::Method));
    }
    if says(b"no-store", &forward.fields) {
        return Ok(Some(Against::ForwardNoStore));
    }
    if says(b"private", &response.fields) {
        return Ok(Some(Against::Private));
    }
    if says(b"no-store", &response.fields) {
        return Ok(Some(Against::NoStore));
    }
    if !selects(alloc, &state.fields, &state.request.fields, &forward.fields)? {
        return Ok(Some(Against::Unselected));
    }
    if identifies(alloc, state, forward, response)? {
        return Ok(None);
    }
    let telling = Telling::read(&forward.fields, &response.fields);
    Ok(Some(Against::Validators(telling)))
}

// A tag without what says that it is a weak one.
fn without_weakness(value: &[u8]) -> &[u8] {
    value.strip_prefix(b"W/").unwrap_or(value)
}

/// Whether what a 304 tells by its validator is what the response has, but for that of both tags one may be a weak one. Of the
/// condition of its forward nothing else will do: a 304 without a validator is about what was asked of.
pub fn agree(state: &Stored, forward: &RequestHead, response: &ResponseHead) -> bool {
    let telling = Telling::read(&forward.fields, &response.fields);
    let (told, due) = telling.sides(&state.fields, &forward.fields, &response.fields);
    let (Some(told), Some(due)) = (told.fields.only(told.name), due.fields.only(due.name)) else {
        return false;
    };
    let (told, due) = (trimmed(told), trimmed(due));
    match telling {
        Telling::Tag => without_weakness(told) == without_weakness(due),
        _ => told == due,
    }
}

impl Against {
    /// Whether no RFC says so, but a stricter rule of this auditor's own: that a 304 which may not be stored itself, tells a weak
    /// tag, or answers HEAD, is about nothing that is stored.
    pub fn is_stricter(
        &self,
        alloc: Global,
        state: &Stored,
        forward: &RequestHead,
        response: &ResponseHead,
    ) -> Result<bool, AllocError> {
        match self {
            Against::Private | Against::NoStore | Against::Validators(_) => {}
            Against::Method if is_head(&forward.method) && !says(b"no-store", &forward.fields) => {}
            _ => return Ok(false),
        }
        if !agree(state, forward, response) {
            return Ok(false);
        }
        selects(alloc, &state.fields, &state.request.fields, &forward.fields)
    }

    /// What is asked where no RFC says so.
    pub fn stricter_demand(&self) -> Demand {
        match self {
            Against::Method => HEAD_304,
            _ => STORABLE_304,
        }
    }

    // A word for it, and words.
    fn named(&self) -> (&'static str, &'static str) {
        match self {
            Against::Earlier => ("earlier", "before it came"),
            Against::Method => ("method", "its forward is no GET"),
            Against::ForwardNoStore => ("forward_no_store", "its forward says no-store"),
            Against::Private => ("private", "it says private"),
            Against::NoStore => ("no_store", "it says no-store"),
            Against::Unselected => ("vary", "Vary doesn't select its forward"),
            Against::Validators(telling) => (telling.names().0, "its validator is another one"),
        }
    }

    /// A word for it: the name of the field that tells it, where one does.
    pub fn name(&self) -> &'static str {
        self.named().0
    }

    /// Tells words for it, and what the 304 and the response of those fields have where their validators don't agree.
    pub fn tell<T: Teller>(
        &self,
        stored: &Fields,
        forwarded: &Fields,
        received: &Fields,
        teller: &mut T,
    ) {
        teller.word("against", self.name());
        let Against::Validators(telling) = self else {
            return teller.words(self.named().1);
        };
        let (name, of, validator) = telling.names();
        let (told, due) = telling.sides(stored, forwarded, received);
        teller.words(name);
        teller.value("told", " ", &told);
        teller.words(of);
        teller.words(", the stored response's ");
        teller.words(validator);
        teller.value("due", " ", &due);
    }
}

/// A 304 to HEAD validates nothing.
const HEAD_304: Demand = Demand {
    sections: "no RFC (RFC 9111 section 4.3.4 lets a 304 to HEAD validate what is stored), but this auditor's stricter rule",
    words: "a 304 validates what is stored where it answers GET",
};

/// What may not be stored itself validates nothing.
const STORABLE_304: Demand = Demand {
    sections: "no RFC (RFC 9111 section 4.3.4 lets a 304 validate a response that may not be stored itself, or that has a weak tag), but this auditor's stricter rule",
    words: "a 304 that says no-store or private, or that tells a weak tag of what has a strong one, validates nothing that is stored",
};
