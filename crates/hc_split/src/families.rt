//! Families of targets, which have to go into one part: a forward that is told to be made for an exchange joins its target
//! with that of the exchange.

ghost use Rattle.std.specs.Prelude.{◌≡◌, ◌<◌, IfOk};

use crate::parts::Parts;
use hc_head::Target;
use hc_transcript::{MeaningView, RecordView};
use std::alloc::{AllocError, Global};
use std::collections::BTreeMap;
use std::mem;

/// The targets of a recording, by numbers, with the octets of their records, and which of them are of one family. A number
/// leads to a lower one of its family, or to itself where it is the lowest.
pub struct Families {
    alloc: Global,
    numbers: BTreeMap<Target, usize>,
    leads: Vec<usize>,
    weights: Vec<u64>,
    // The number of the target of each open exchange, and of each open forward.
    exchanges: BTreeMap<u64, usize>,
    forwards: BTreeMap<u64, usize>,
}

impl Drop for Families {
    fn drop(self) {
        let Families {
            alloc: _,
            numbers,
            leads,
            weights,
            exchanges,
            forwards,
        } = self;
        drop(numbers);
        drop(leads);
        drop(weights);
        drop(exchanges);
        drop(forwards);
    }
}

impl Families {
    /// Where nothing was met.
    pub fn new(alloc: Global) -> Self {
        Families {
            alloc,
            numbers: BTreeMap::new(alloc),
            leads: Vec::new(alloc),
            weights: Vec::new(alloc),
            exchanges: BTreeMap::new(alloc),
            forwards: BTreeMap::new(alloc),
        }
    }

    /// Takes in the next record, which has so many octets.
    pub fn note(&mut self, item: &RecordView<'_>, octets: u64) -> Result<(), AllocError> {
        if let Some(number) = self.number_about(item)? {
            weigh(self.weights.as_mut_slice(), number, octets);
        }
        Ok(())
    }

    // The number of the target of the next record.
    fn number_about(&mut self, item: &RecordView<'_>) -> Result<Option<usize>, AllocError> {
        let number = item.number;
        match &item.of {
            MeaningView::ClientRequest { target, .. } => self.open_exchange(number, target),
            MeaningView::OriginRequest { target, cause, .. } => {
                self.open_forward(number, target, *cause)
            }
            MeaningView::OriginResponse(_) => Ok(self.forwards.remove(&number)),
            MeaningView::OriginFailure => Ok(self.forwards.remove(&number)),
            MeaningView::ClientReply(_) => Ok(self.exchanges.remove(&number)),
        }
    }

    fn open_exchange(&mut self, number: u64, target: &Target) -> Result<Option<usize>, AllocError> {
        let known = self.number_of(target)?;
        self.exchanges.insert(number, known)?;
        Ok(Some(known))
    }

    fn open_forward(
        &mut self,
        number: u64,
        target: &Target,
        cause: Option<u64>,
    ) -> Result<Option<usize>, AllocError> {
        let known = self.number_of(target)?;
        self.forwards.insert(number, known)?;
        if let Some(other) = self.number_behind(cause) {
            join(self.leads.as_mut_slice(), known, other);
        }
        Ok(Some(known))
    }

    // The number of the target of the exchange, if one of that number is open.
    fn number_behind(&self, cause: Option<u64>) -> Option<usize> {
        let number = cause?;
        self.exchanges.get(&number).copied()
    }

    // The number of a target, which gets one where it has none.
    fn number_of(&mut self, target: &Target) -> Result<usize, AllocError> {
        if let Some(number) = self.numbers.get(target) {
            return Ok(*number);
        }
        let number = self.leads.len();
        self.leads.push(number)?;
        self.weights.push(0)?;
        self.numbers.insert(target.copy(self.alloc)?, number)?;
        Ok(number)
    }

    /// Puts each family into one of so many parts: the heaviest first, each into the part that is the lightest then.
    pub fn parted(mut self, count: usize) -> Result<Parts, AllocError>
        requires { 0 < count }
        ensures { IfOk result (λ parts. parts.count ≡ count) }
    {
        settle(self.leads.as_mut_slice());
        gather(self.leads.as_slice(), self.weights.as_mut_slice());
        let parts = self.parts_of_numbers(count)?;
        Ok(self.with_parts(parts, count))
    }

    // The part of each number, where each leads to the lowest one of its family, which weighs what all of it weighs.
    fn parts_of_numbers(&self, count: usize) -> Result<Vec<usize>, AllocError> {
        let order = by_weight(self.alloc, self.weights.as_slice())?;
        let mut parts = vec![in self.alloc; 0usize; self.leads.len()]?;
        give_out(self.alloc, order.as_slice(), count, parts.as_mut_slice())?;
        follow(self.leads.as_slice(), parts.as_mut_slice());
        Ok(parts)
    }

    fn with_parts(self, parts: Vec<usize>, count: usize) -> Parts
        requires { 0 < count }
        ensures { result.count ≡ count }
    {
        let Families {
            alloc: _,
            numbers,
            leads,
            weights,
            exchanges,
            forwards,
        } = self;
        drop(leads);
        drop(weights);
        drop(exchanges);
        drop(forwards);
        Parts::new(numbers, parts, count)
    }
}

// Adds so many octets to what a number weighs.
fn weigh(weights: &mut [u64], number: usize, octets: u64) {
    if let Some(weight) = weights.get_mut(number) {
        *weight = weight.saturating_add(octets);
    }
}

// The lowest number of a family.
fn root_of(leads: &[usize], number: usize) -> usize {
    let mut at = number;
    for _ in 0..leads.len() {
        match leads.get(at) {
            Some(lower) if *lower != at => at = *lower,
            _ => return at,
        }
    }
    at
}

// Lets a number, and those to which it leads, lead to that lower one.
fn lead(leads: &mut [usize], number: usize, lowest: usize) {
    let mut at = number;
    for _ in 0..leads.len() {
        let Some(place) = leads.get_mut(at) else {
            return;
        };
        let next = *place;
        *place = lowest;
        if next == at {
            return;
        }
        at = next;
    }
}

// Joins the families of two numbers.
fn join(leads: &mut [usize], one: usize, other: usize) {
    let lowest = root_of(leads, one).min(root_of(leads, other));
    lead(leads, one, lowest);
    lead(leads, other, lowest);
}

// Puts a number at a place.
fn put(numbers: &mut [usize], at: usize, number: usize) {
    if let Some(place) = numbers.get_mut(at) {
        *place = number;
    }
}

// Lets each number lead to the lowest one of its family.
fn settle(leads: &mut [usize]) {
    for number in 0..leads.len() {
        let lowest = root_of(leads, number);
        put(leads, number, lowest);
    }
}

// Lets the lowest number of each family weigh what all of it weighs, and the others nothing.
fn gather(leads: &[usize], weights: &mut [u64]) {
    for (number, lowest) in leads.iter().enumerate() {
        if *lowest != number {
            let weight = taken(weights, number);
            weigh(weights, *lowest, weight);
        }
    }
}

// What a number weighs, which weighs nothing from now on.
fn taken(weights: &mut [u64], number: usize) -> u64 {
    match weights.get_mut(number) {
        Some(weight) => mem::replace(weight, 0),
        None => 0,
    }
}

// What each family weighs beside its lowest number, the lightest first.
fn by_weight(alloc: Global, weights: &[u64]) -> Result<Vec<(u64, usize)>, AllocError> {
    let mut families = Vec::new(alloc);
    for (lowest, weight) in weights.iter().enumerate() {
        if *weight > 0 {
            families.push((*weight, lowest))?;
        }
    }
    families.sort()?;
    Ok(families)
}

// Puts the part of each family, of so many parts, where its lowest number stands.
fn give_out(
    alloc: Global,
    families: &[(u64, usize)],
    count: usize,
    parts: &mut [usize],
) -> Result<(), AllocError> {
    let mut loads = vec![in alloc; 0u64; count]?;
    for (weight, lowest) in families.iter().rev() {
        let part = lightest(loads.as_slice());
        weigh(loads.as_mut_slice(), part, *weight);
        put(parts, *lowest, part);
    }
    Ok(())
}

// The first of the lightest.
fn lightest(loads: &[u64]) -> usize {
    let mut found = 0usize;
    let mut least = u64::MAX;
    for (part, load) in loads.iter().enumerate() {
        if *load < least {
            found = part;
            least = *load;
        }
    }
    found
}

// Puts each number into the part of the lowest one of its family.
fn follow(leads: &[usize], parts: &mut [usize]) {
    for (number, lowest) in leads.iter().enumerate() {
        let part = parts.get(*lowest).copied().unwrap_or(0);
        put(parts, number, part);
    }
}
