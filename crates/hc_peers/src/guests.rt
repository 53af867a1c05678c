//! Those who have connected, and of whom no octet has come.

ghost use Rattle.std.specs.Prelude.{◌≡◌, ◌≤◌, ◌+◌, ◌∷◌, ◌++◌, ◌&&◌, not, true, false, ℕ, [], length, is_some, OnOk, OnErr, if◌then◌else◌};
ghost use Rattle.std.proofs.Props.{props};
ghost use Rattle.hc_peers.specs.Knocks.{KnocksStand};

use crate::table::Table;
use hc_flow::{Presence, Stream};
use std::alloc::{AllocError, Global};
use std::collections::VecDeque;

/// One who has connected, and of whom no octet was read.
#[derive(Drop)]
struct Guest<S> {
    stream: S,
    /// Whether it stands among those who knock.
    knocks: bool,
}

/// Those who have connected, and of whom no octet has come, by numbers of their own: the cache doesn't know of them. A
/// guest who may have octets knocks, and is to be looked at then.
#[derive(Drop)]
pub struct Guests<S> {
    table: Table<Guest<S>>,
    /// Those who knock, the one that has done so for longest first. Some of them may have gone.
    knocking: VecDeque<u64>,
    /// The number that was given last: 0 where none was.
    last: u64,
    pub ghost stand: { KnocksStand table.links knocking.items } by { Prim.hlevel props },
}

impl<S: Stream + Drop> Guests<S> {
    ghost use Rattle.std.specs.BTreeMap.{get};
    ghost use Rattle.std.specs.Ordering.{nat_cmp};
    ghost use Rattle.hc_peers.specs.Guests.{GivesKnock, GivesNumber, KeepsGuests, ShowsGuest, is_guest, knocks, stream_at};
    ghost use Rattle.hc_peers.specs.Tables.{KeepsOthers};

    /// Nobody has connected.
    pub fn new(alloc: Global) -> Self
        ensures none { length result.table.links.entries ≡ 0 }
        ensures empty { (n : ℕ) → is_guest n result ≡ false }
        ensures quiet { result.knocking.items ≡ [] }
    {
        Guests {
            table: Table::new(alloc),
            knocking: VecDeque::new(alloc),
            last: 0,
        }
    }

    /// How many there are.
    pub fn len(&self) -> usize
        ensures { result ≡ length self.now.table.links.entries }
    {
        self.table.len()
    }

    /// A number for one who connects, as far as there are numbers: none is given twice.
    pub fn next_number(&mut self) -> Option<u64>
        ensures number { GivesNumber result self.old.last self.new.last }
        ensures table { self.new.table ≡ self.old.table }
        ensures queue { self.new.knocking ≡ self.old.knocking }
    {
        let number = self.last.checked_add(1)?;
        self.last = number;
        Some(number)
    }

    /// One has connected, and knocks. Where memory is refused, its link is closed, and all else is as it was.
    pub fn put(&mut self, number: u64, stream: S) -> Result<(), AllocError>
        ensures ok { OnOk result ((stream_at number self.new ≡ Some stream) × (knocks number self.new ≡ true)
            × (self.new.knocking.items ≡ self.old.knocking.items ++ number ∷ [])) }
        ensures err { OnErr result ((get nat_cmp self.new.table.links number ≡ get nat_cmp self.old.table.links number)
            × (self.new.knocking.items ≡ self.old.knocking.items)) }
        ensures others { KeepsOthers number self.old.table.links self.new.table.links }
        ensures many { length self.new.table.links.entries ≤ length self.old.table.links.entries + 1 }
        ensures last { self.new.last ≡ self.old.last }
    {
        let guest = Guest {
            stream,
            knocks: true,
        };
        self.knocking.reserve(1)?;
        self.table.links.insert(number, guest)?;
        self.knocking.push_back_reserved(number);
        Ok(())
    }

    /// A guest may have octets: it knocks, if it is there and doesn't knock already. Where memory is refused, all is as it
    /// was.
    pub fn knock(&mut self, number: u64) -> Result<(), AllocError>
        ensures ok { OnOk result ((knocks number self.new ≡ is_guest number self.old)
            × (self.new.knocking.items ≡ (if is_guest number self.old && not (knocks number self.old) then self.old.knocking.items ++ number ∷ [] else self.old.knocking.items))) }
        ensures err { OnErr result ((knocks number self.new ≡ knocks number self.old) × (self.new.knocking.items ≡ self.old.knocking.items)) }
        ensures kept { KeepsGuests self.old self.new }
        ensures others { KeepsOthers number self.old.table.links self.new.table.links }
        ensures many { length self.new.table.links.entries ≡ length self.old.table.links.entries }
        ensures last { self.new.last ≡ self.old.last }
    {
        let Some(guest) = self.table.links.get_mut(&number) else {
            return Ok(());
        };
        if guest.knocks {
            return Ok(());
        }
        self.knocking.push_back(number)?;
        guest.knocks = true;
        Ok(())
    }

    /// The one that has knocked for longest, who knocks no more. It may have gone.
    pub fn next_knocking(&mut self) -> Option<u64>
        ensures first { GivesKnock result self.old self.new }
        ensures kept { KeepsGuests self.old self.new }
        ensures many { length self.new.table.links.entries ≡ length self.old.table.links.entries }
        ensures last { self.new.last ≡ self.old.last }
    {
        let number = *self.knocking.front()?;
        self.quiet(number);
        self.knocking.pop_front();
        Some(number)
    }

    /// A guest knocks no more.
    fn quiet(&mut self, number: u64)
        ensures quiet { knocks number self.new ≡ false }
        ensures kept { KeepsGuests self.old self.new }
        ensures others { KeepsOthers number self.old.table.links self.new.table.links }
        ensures many { length self.new.table.links.entries ≡ length self.old.table.links.entries }
        ensures queue { self.new.knocking ≡ self.old.knocking }
        ensures last { self.new.last ≡ self.old.last }
    {
        if let Some(guest) = self.table.links.get_mut(&number) {
            guest.knocks = false;
        }
    }

    /// What a read of a guest would find. Of one that isn't there nothing comes.
    pub fn peek(&self, number: u64) -> Presence
        ensures { ShowsGuest S.may_show (stream_at number self.now) result }
    {
        match self.table.links.get(&number) {
            Some(guest) => guest.stream.peek(),
            None => Presence::Over,
        }
    }

    /// The link of a guest, which is one no more.
    pub fn take(&mut self, number: u64) -> Option<S>
        ensures took { result ≡ stream_at number self.old }
        ensures gone { is_guest number self.new ≡ false }
        ensures others { KeepsOthers number self.old.table.links self.new.table.links }
        ensures many { length self.new.table.links.entries + (if is_some result then 1 else 0) ≡ length self.old.table.links.entries }
        ensures queue { self.new.knocking ≡ self.old.knocking }
        ensures last { self.new.last ≡ self.old.last }
    {
        match self.table.links.remove(&number) {
            Some(guest) => Some(guest.stream),
            None => None,
        }
    }

    /// The least number of a guest, from that one on.
    pub fn first_from(&self, least: u64) -> Option<u64> {
        self.table.first_from(least)
    }
}
