//! The fields of which a reply has other values than a stored response.

ghost use Rattle.std.specs.Prelude.{◌≡◌, ◌++◌, List, ℕ, [], ◌∷◌, true, filter, map, IfOk, OnOk, if◌then◌else◌};
ghost use Rattle.hc_history.specs.Filters.{compared_names, names_of};
ghost use Rattle.hc_gaps.specs.Demanding.{change_sections, difference_sections, first_in, free_sections, frees_date, has_become, has_bound, has_bound_date, has_bound_repeated, has_freedom, has_listed, has_renewed, has_unlisted, is_bound, is_freedom, is_repeated, is_undated, renewed_in, renews};
ghost use Rattle.hc_gaps.specs.Differing.{AreDifferences, AreListed, IsGap, change_of, differs, freedom_by, graver, gravest_with, is_single, with_name, with_names};
ghost use Rattle.hc_gaps.specs.declared.differing.Change.TheVariants.{Changed};
ghost use Rattle.hc_gaps.specs.declared.differing.Freedom.TheVariants.{Nothing};

use crate::forms::{means_the_same, need_not_be_stored};
use hc_fields::{Fields, FieldsView, Lines, Octets, is_among};
use hc_fresh::date_stated;
use hc_head::StatusCode;
use hc_history::{ReplyClaim, differs, is_of_content};
use hc_rules::REPEATED_NAMES;
use hc_shown::{FieldOf, Page, RecordName, Teller};
use hc_update::Stored;
use hc_use::{Demand, NAMED};
use std::alloc::{AllocError, Global};

/// How many fields are listed at most.
const MOST_LISTED: usize = 20;

/// The fields that are no lists.
const SINGLE: [&[u8]; 5] = [
    b"date",
    b"etag",
    b"expires",
    b"last-modified",
    b"set-cookie",
];

/// What became of a field.
#[derive(Clone, Copy, PartialEq, Eq)]
pub enum Change {
    /// The reply alone has it.
    Added,
    /// The response alone has it.
    Dropped,
    /// Both have it.
    Changed,
}

/// What the RFCs permit by which a field differs.
#[derive(Clone, Copy, PartialEq, Eq)]
pub enum Freedom {
    /// Nothing.
    Nothing,
    /// Both mean the same by it, though it is written in other ways (RFC 9110 sections 5.3 and 5.6.1).
    Form,
    /// It was dropped, and the response says `no-cache` or `private` of it (RFC 9111 section 3.1).
    Named,
    /// It was added, and tells of no representation (RFC 9110 section 7.7).
    Addition,
}

/// A field of which a reply has other values than a stored response.
#[derive(Drop)]
pub struct FieldGap {
    /// Its name, in lower case.
    pub name: Octets,
    /// What became of it.
    pub change: Change,
    /// What permits that.
    pub freedom: Freedom,
}

/// The fields of which a reply has other values than a stored response, each once, in the order of the reply and
/// then of the response; at most 20.
pub struct Differences {
    /// The first of them.
    pub listed: Vec<FieldGap>,
    /// How many more there are.
    pub more: u64,
    // The gravest that became of one of those which nothing permits.
    unlisted: Option<Change>,
}

impl Drop for Differences {
    fn drop(self) {
        let Differences {
            listed,
            more: _,
            unlisted: _,
        } = self;
        drop(listed);
    }
}

// Puts a name at the end, if it isn't there.
fn push_new<'a>(names: &mut Vec<&'a [u8]>, name: &'a [u8]) -> Result<(), AllocError>
    ensures { OnOk result (map (λ known. known.now) names.new.items ≡ with_name (map (λ known. known.now) names.old.items) name.now) }
{
    if is_among(names.as_slice(), name) {
        return Ok(());
    }
    names.push(name)?;
    Ok(())
}

// Puts the names of the lines at the end that aren't there.
fn push_names<'a>(names: &mut Vec<&'a [u8]>, fields: &FieldsView<'a>) -> Result<(), AllocError>
    ensures { OnOk result (map (λ known. known.now) names.new.items
        ≡ with_names (map (λ known. known.now) names.old.items) (names_of fields.now)) }
{
    let mut rest = fields.again();
    while let Some((name, _)) = rest.pass() {
        push_new(names, name)?;
    }
    Ok(())
}

// Puts the names of the reply at the end, and after them those of the stored response, each once; of a 304 after
// them those that it has to repeat.
fn push_compared<'a>(
    names: &mut Vec<&'a [u8]>,
    claim: &ReplyClaim<'a>,
    state: &'a Stored,
) -> Result<(), AllocError>
    ensures { OnOk result (map (λ known. known.now) names.new.items
        ≡ with_names (map (λ known. known.now) names.old.items) (compared_names claim.now state.now)) }
{
    push_names(names, claim.fields())?;
    if claim.status() != StatusCode::NOT_MODIFIED {
        return push_names(names, &state.fields.lent());
    }
    for name in &REPEATED_NAMES {
        push_new(names, name)?;
    }
    Ok(())
}

// What became of a field, of which the values differ.
fn change_of(claim: &ReplyClaim<'_>, state: &Stored, name: &[u8]) -> Change
    ensures { result ≡ change_of claim.now state.now name.now }
{
    if !claim.fields().contains(name) {
        Change::Dropped
    } else if state.fields.contains(name) {
        Change::Changed
    } else {
        Change::Added
    }
}

// That, if it is so, and else nothing.
fn permitted(is_so: bool, freedom: Freedom) -> Freedom
    ensures { result ≡ (if is_so then freedom else Nothing) }
{
    if is_so { freedom } else { Freedom::Nothing }
}

// Whether the field of that name is no list: it means something by each octet, and each line of Set-Cookie something by itself.
fn is_single(name: &[u8]) -> bool
    ensures { result ≡ is_single name.now }
{
    is_among(&SINGLE, name)
}

// What permits that both have a field otherwise.
fn freedom_of_form(
    alloc: Global,
    claim: &ReplyClaim<'_>,
    state: &Stored,
    name: &[u8],
) -> Result<Freedom, AllocError>
    ensures { IfOk result (λ freedom. freedom ≡ freedom_by claim.now state.now name.now Changed) }
{
    if is_single(name) {
        return Ok(Freedom::Nothing);
    }
    let (told, due) = (claim.fields(), &state.fields.lent());
    let is_form = means_the_same(alloc, name, told, due, false)?;
    Ok(permitted(is_form, Freedom::Form))
}

// What permits that a field differs of which that became.
fn freedom_of(
    alloc: Global,
    claim: &ReplyClaim<'_>,
    state: &Stored,
    name: &[u8],
    change: Change,
) -> Result<Freedom, AllocError>
    ensures { IfOk result (λ freedom. freedom ≡ freedom_by claim.now state.now name.now change) }
{
    match change {
        Change::Added => Ok(permitted(!is_of_content(name), Freedom::Addition)),
        Change::Dropped => {
            let is_named = need_not_be_stored(name, &state.fields);
            Ok(permitted(is_named, Freedom::Named))
        }
        Change::Changed => freedom_of_form(alloc, claim, state, name),
    }
}

impl Change {
    // The graver of both: that a field was dropped, or else changed.
    fn graver(self, other: Change) -> Change
        ensures { result ≡ graver self other }
    {
        match self {
            Change::Dropped => Change::Dropped,
            Change::Changed => match other {
                Change::Dropped => Change::Dropped,
                Change::Changed => Change::Changed,
                Change::Added => Change::Changed,
            },
            Change::Added => other,
        }
    }
}

impl Freedom {
    // Whether that is nothing.
    fn is_nothing(self) -> bool
        ensures { result ≡ is_freedom self Nothing }
    {
        self == Freedom::Nothing
    }
}

// The gravest of what became of fields that aren't listed, and of another one, if nothing permits that.
fn gravest(before: Option<Change>, change: Change, is_unfree: bool) -> Option<Change>
    ensures { result ≡ gravest_with before change is_unfree }
{
    if !is_unfree {
        return before;
    }
    match before {
        None => Some(change),
        Some(gravest) => Some(gravest.graver(change)),
    }
}

impl Differences {
    // Takes in the field of that name: one that differs is listed, or counted where there is no room.
    fn take(
        &mut self,
        alloc: Global,
        claim: &ReplyClaim<'_>,
        state: &Stored,
        name: &[u8],
    ) -> Result<(), AllocError>
        ensures { OnOk result ((names : List (List ℕ)) → AreListed claim.now state.now names self.old
            → AreListed claim.now state.now (names ++ filter (differs claim.now state.now) (name.now ∷ [])) self.new) }
    {
        if !differs(alloc, claim, state, name)? {
            return Ok(());
        }
        let change = change_of(claim, state, name);
        let freedom = freedom_of(alloc, claim, state, name, change)?;
        if MOST_LISTED <= self.listed.len() {
            self.more = self.more.saturating_add(1);
            self.unlisted = gravest(self.unlisted, change, freedom.is_nothing());
            return Ok(());
        }
        self.listed.push(FieldGap {
            name: Octets::from_slice(alloc, name)?,
            change,
            freedom,
        })?;
        Ok(())
    }
}

/// The fields that are compared, and of which the reply has other values than the stored response, and none that
/// are allowed in their place.
pub fn compare(
    alloc: Global,
    claim: &ReplyClaim<'_>,
    state: &Stored,
) -> Result<Differences, AllocError>
    // The first of them are listed, each as what it is, and all others are counted.
    ensures { IfOk result (AreDifferences claim.now state.now) }
{
    let mut names = Vec::new(alloc);
    push_compared(&mut names, claim, state)?;
    let mut found = Differences {
        listed: Vec::new(alloc),
        more: 0,
        unlisted: None,
    };
    for name in names.as_slice() {
        found.take(alloc, claim, state, name)?;
    }
    Ok(found)
}

impl FieldGap {
    // Whether nothing permits it: the Date may be another one where that is the cache's to choose.
    fn is_bound(&self, is_date_free: bool) -> bool
        ensures { result ≡ is_bound is_date_free self.now }
    {
        let is_date = self.name.as_slice() == b"date".as_slice();
        let is_free = is_date_free && is_date && self.change == Change::Changed;
        self.freedom == Freedom::Nothing && !is_free
    }
}

impl Change {
    /// The word for it.
    pub fn word(&self) -> &'static str {
        match self {
            Change::Added => "added",
            Change::Dropped => "dropped",
            Change::Changed => "changed",
        }
    }
}

/// What the fields of a stored response come from.
#[derive(Clone, Copy)]
pub struct FieldsOrigin<'a> {
    /// The 304 that freshened it last, with its fields, as far as it is known.
    pub validator: Option<(RecordName, &'a Fields)>,
    /// The position of its record.
    pub position: u64,
    /// The fields with which it came, as far as they are known.
    pub first: Option<&'a Fields>,
}

impl FieldsOrigin<'_> {
    // Whether the 304 that freshened it last is known to have that field.
    fn has_renewed(&self, name: &[u8]) -> bool
        ensures { result ≡ renews (renewed_in self.now) name.now }
    {
        matches!(self.validator, Some((_, renewed)) if renewed.contains(name))
    }

    // Whether the Date is the cache's to choose: where what told it last, a 304 or the response, has no one Date that can be read,
    // and is no response without any.
    fn frees_date(&self) -> bool
        ensures { result ≡ frees_date (renewed_in self.now) (first_in self.now) }
    {
        match (self.validator, self.first) {
            (Some((_, renewed)), _) => date_stated(renewed).is_none(),
            (None, Some(first)) => first.contains(b"date") && date_stated(first).is_none(),
            (None, None) => false,
        }
    }

    // Whether the response is known to have come without a Date.
    fn is_undated(&self) -> bool
        ensures { result ≡ is_undated (first_in self.now) }
    {
        matches!(self.first, Some(first) if !first.contains(b"date"))
    }

    // Tells of which record a value is that is due.
    fn say<T: Teller>(&self, name: &[u8], stored: &Fields, teller: &mut T) {
        let is_date = name == b"date".as_slice();
        let came_otherwise =
            matches!(self.first, Some(first) if !first.values(name).eq(stored.values(name)));
        match self.validator {
            Some((validator, renewed)) if renewed.contains(name) => {
                teller.record(" (of the 304 ", validator);
                teller.words(")");
            }
            Some((validator, _)) if is_date => {
                teller.record(" (when the 304 ", validator);
                teller.words(" came, which has no Date)");
            }
            Some(_) if came_otherwise => teller.words(" (of a 304 before that)"),
            None if is_date && self.is_undated() => {
                let after = " came, which has no Date)";
                teller.count(" (when ", self.position, after);
            }
            _ => teller.count(" (of ", self.position, ")"),
        }
    }
}

// What a reply claims, a stored response, and what its fields come from.
type Sides<'a> = (&'a ReplyClaim<'a>, &'a Stored, &'a FieldsOrigin<'a>);

impl FieldGap {
    // Tells what is due of the field, and what the reply has.
    fn tell<T: Teller>(&self, (claim, state, origin): Sides<'_>, teller: &mut T) {
        let name = self.name.as_slice();
        teller.octets("name", "", name);
        teller.word("change", self.change.word());
        teller.values("due", ": due ", &FieldOf::new(name, &state.fields));
        origin.say(name, &state.fields, teller);
        let told = FieldOf::new(name, claim.fields());
        teller.values("told", ", the reply has ", &told);
    }
}

// Whether a 304 repeats the field of that name.
fn is_repeated(name: &[u8]) -> bool
    ensures { result ≡ is_repeated name.now }
{
    is_among(&REPEATED_NAMES, name)
}

// What is asked by what became of the fields: of those that were added, each tells of the representation.
fn demand_of_change(is_dropped: bool, is_changed: bool) -> Demand
    ensures { result.sections.now ≡ change_sections is_dropped }
{
    if is_dropped {
        Demand::of(
            "RFC 9111 section 3.1",
            "a cache MUST store all fields of a response but those of the connection, and what a hit lacks of them counts as not stored",
        )
    } else if is_changed {
        Demand::of(
            "RFC 9110 section 7.7",
            "a proxy SHOULD NOT modify the fields that tell of the resource or of its representation",
        )
    } else {
        Demand::of(
            "RFC 9110 section 7.7",
            "a proxy SHOULD NOT modify what tells of a representation, and to add such a field, as a Content-Type, is that, too",
        )
    }
}

impl Differences {
    /// Whether one of those that are listed became so.
    pub fn has(&self, change: Change) -> bool
        ensures { result ≡ has_become change self.now }
    {
        self.listed.iter().any(|gap| gap.change == change)
    }

    /// Whether nothing differs.
    pub fn is_nothing(&self) -> bool {
        self.listed.is_empty()
    }

    // Whether one became so that nothing permits, be it listed or not.
    fn has_bound(&self, change: Change, is_date_free: bool) -> bool
        ensures { result ≡ has_bound is_date_free change self.now }
    {
        self.has_unlisted(change) || self.has_listed(change, is_date_free)
    }

    // Whether one of those that are listed became so that nothing permits.
    fn has_listed(&self, change: Change, is_date_free: bool) -> bool
        ensures { result ≡ has_listed is_date_free change self.now }
    {
        self.listed
            .iter()
            .any(|gap| gap.change == change && gap.is_bound(is_date_free))
    }

    // Whether that is the gravest that became of those that aren't listed.
    fn has_unlisted(&self, change: Change) -> bool
        ensures { result ≡ has_unlisted change self.now.unlisted }
    {
        match self.unlisted {
            Some(gravest) => gravest == change,
            None => false,
        }
    }

    // Whether one of those that are listed, which nothing permits, is the Date.
    fn has_bound_date(&self, is_date_free: bool) -> bool
        ensures { result ≡ has_bound_date is_date_free self.now }
    {
        self.listed.iter().any(|gap| gap.name.as_slice() == b"date".as_slice()
            && gap.is_bound(is_date_free))
    }

    // Whether one of those that are listed, which nothing permits, is one that a 304 repeats.
    fn has_bound_repeated(&self, is_date_free: bool) -> bool
        ensures { result ≡ has_bound_repeated is_date_free self.now }
    {
        self.listed.iter().any(|gap| is_repeated(gap.name.as_slice()) && gap.is_bound(is_date_free))
    }

    // Whether that permits one of those that are listed.
    fn has_freedom(&self, freedom: Freedom) -> bool
        ensures { result ≡ has_freedom freedom self.now }
    {
        self.listed.iter().any(|gap| gap.freedom == freedom)
    }

    // Whether the 304 that freshened the response last has one of those that nothing permits.
    fn has_renewed(&self, origin: &FieldsOrigin<'_>, is_date_free: bool) -> bool
        ensures { result ≡ has_renewed is_date_free (renewed_in origin.now) self.now }
    {
        self.listed.iter().any(|gap| origin.has_renewed(gap.name.as_slice())
            && gap.is_bound(is_date_free))
    }

    /// What is asked of the fields of a reply of that status, where those of the response come from that.
    pub fn demand(&self, status: StatusCode, origin: FieldsOrigin<'_>) -> Demand
        ensures { result.sections.now ≡ difference_sections self.now status (renewed_in origin.entry) (first_in origin.entry) }
    {
        let free = origin.frees_date();
        let is_dropped = self.has_bound(Change::Dropped, free);
        let is_changed = self.has_bound(Change::Changed, free);
        let is_added = self.has_bound(Change::Added, free);
        if !is_dropped && !is_changed && !is_added {
            return self.free_demand();
        }
        let is_undated = origin.is_undated() && !origin.has_renewed(b"date");
        if is_undated && self.has_bound_date(free) {
            return Demand::of(
                "RFC 9110 section 6.6.1",
                "what comes without a Date MUST get one: the moment at which it came",
            );
        }
        let has_repeated = is_dropped || is_added || self.has_bound_repeated(free);
        if status == StatusCode::NOT_MODIFIED && has_repeated {
            return Demand::of(
                "RFC 9110 section 15.4.5",
                "a 304 MUST have the stored response's Cache-Control, Content-Location, Date, ETag, Expires and Vary",
            );
        }
        if self.has_renewed(&origin, free) {
            return Demand::of(
                "RFC 9111 section 4.3.4",
                "the fields of a 304 MUST replace those of the stored response that it is about",
            );
        }
        demand_of_change(is_dropped, is_changed)
    }

    // What is asked where the RFCs permit each of them.
    fn free_demand(&self) -> Demand
        ensures { result.sections.now ≡ free_sections self.now }
    {
        if self.has_freedom(Freedom::Form) {
            Demand::of(
                "no RFC (RFC 9110 sections 5.3 and 5.6.1 let lines be joined, and space in lists means nothing), but this auditor's stricter rule",
                "a reply has the stored response's fields as they are written, line by line",
            )
        } else if self.has_freedom(Freedom::Named) {
            Demand::of(
                "no RFC (RFC 9111 section 3.1 lets what no-cache or private names be left out), but this auditor's stricter rule",
                "a reply has the stored response's fields, those that no-cache names, too",
            )
        } else if self.has_bound(Change::Changed, false) {
            Demand::of(
                "no RFC (RFC 9110 section 6.6.1 leaves to a cache what it makes of a Date that isn't there or can't be read), but this auditor's stricter rule",
                "where a Date isn't there, or can't be read, the moment at which the message came is the Date",
            )
        } else {
            Demand::of(
                "no RFC (RFC 9110 section 7.7 doesn't forbid this), but this auditor's stricter rule",
                "a reply has no field that the stored response hasn't, but for --allow added-fields",
            )
        }
    }

    // Writes each with that change and what it is, with a comma after whatever stands before it.
    fn name_each(&self, change: Change, mut is_first: bool, page: &mut Page) -> bool {
        for gap in self.listed.iter() {
            if gap.change == change {
                page.separator(is_first, "", ", ");
                page.words(change.word());
                page.said_octets(" ", gap.name.as_slice(), "");
                is_first = false;
            }
        }
        is_first
    }

    /// Writes words for them, as `dropped x-validated, changed date`.
    pub fn name(&self, page: &mut Page) {
        let is_first = self.name_each(Change::Added, true, page);
        let is_first = self.name_each(Change::Dropped, is_first, page);
        self.name_each(Change::Changed, is_first, page);
        page.say_more(self.more);
    }

    // Tells those with that change after so many others that were said, as far as they are named, and returns how many are then.
    fn tell_changed<T: Teller>(
        &self,
        change: Change,
        sides: Sides<'_>,
        mut said: usize,
        teller: &mut T,
    ) -> usize {
        for gap in self.listed.iter() {
            if gap.change == change && said < NAMED {
                teller.separator(said == 0, "", "; ");
                gap.tell(sides, teller);
                said += 1;
            }
        }
        said
    }

    /// Tells what is due of each, and what the reply has: a text of the first of them, an object of all that are listed.
    pub fn tell<T: Teller>(
        &self,
        (claim, state): (&ReplyClaim<'_>, &Stored),
        origin: FieldsOrigin<'_>,
        teller: &mut T,
    ) {
        let sides = (claim, state, &origin);
        if teller.is_text() {
            let said = self.tell_changed(Change::Dropped, sides, 0, teller);
            let said = self.tell_changed(Change::Changed, sides, said, teller);
            let said = self.tell_changed(Change::Added, sides, said, teller);
            let unsaid = self.listed.len().saturating_sub(said) as u64;
            return teller.say_more(self.more.saturating_add(unsaid));
        }
        teller.fact("more_fields", self.more);
        teller.begin_list("fields");
        for gap in self.listed.iter() {
            teller.begin_item();
            gap.tell(sides, teller);
            teller.end();
        }
        teller.end();
    }
}
