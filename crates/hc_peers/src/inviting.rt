//! Those who have connected, and of whom no octet has come, and those for whom there was no room.

ghost use Rattle.std.specs.Prelude.{◌≡◌, true, false, Bool, ℕ, List, [], Some, IfSome, OnErr, OnOk, is_some};

use crate::peers::Peers;
use crate::turned_away::{MOST_TURNED_AWAY, is_over, refused};
use hc_flow::Stream;
use std::alloc::AllocError;

impl<S: Stream + Drop> Peers<S> {
    ghost use Rattle.std.specs.BTreeMap.{get};
    ghost use Rattle.std.specs.Ordering.{nat_cmp};
    ghost use Rattle.hc_peers.specs.Guests.{GivesKnock, GivesNumber, KeepsGuests, is_guest, knocks, stream_at};
    ghost use Rattle.hc_peers.specs.Tables.{KeepsOthers};
    ghost use Rattle.hc_peers.specs.TurnedAway.{IsRefused, has_room};
    ghost use Rattle.hc_order.specs.Log.{Move};
    ghost use Rattle.hc_peers.specs.Keeping.{KeepsPeers};
    ghost use Rattle.hc_peers.specs.Peers.{ArePeers, Bounds, HasRoom};
    ghost use Rattle.hc_peers.specs.Peers.Bounds.{AtMost};
    ghost use Rattle.hc_peers.specs.Shown.{ShowNoMore};

    /// A number for one who connects, as far as there are numbers: none is given twice. It isn't one of the cache's.
    pub fn next_guest(&mut self) -> Option<u64>
        ensures kept { KeepsPeers S.has_given S.has_got self.old self.new }
        ensures number { GivesNumber result self.old.guests.last self.new.guests.last }
        ensures table { self.new.guests.table ≡ self.old.guests.table }
        ensures rest { self.new ≡ record self.old { guests = self.new.guests } }
    {
        self.guests.next_number()
    }

    /// One has connected, and is a guest that knocks, where there are fewer links of clients and guests than that. Where
    /// memory is refused, its link is closed.
    pub fn invite(&mut self, guest: u64, stream: S, most: usize) -> Result<(), AllocError>
        requires { HasRoom self.old most }
        ensures tells { S.has_given stream [] → S.has_got stream [] → (origin : ℕ) (log : List Move) → ArePeers S.has_given S.has_got (AtMost most origin) self.old log
            → ArePeers S.has_given S.has_got (AtMost most origin) self.new log }
        ensures shown { S.has_got stream [] → (log : List Move) → ShowNoMore S.has_got self.old log → ShowNoMore S.has_got self.new log }
        ensures ok { OnOk result ((stream_at guest self.new.guests ≡ Some stream) × (knocks guest self.new.guests ≡ true)) }
        ensures err { OnErr result (get nat_cmp self.new.guests.table.links guest ≡ get nat_cmp self.old.guests.table.links guest) }
        ensures others { KeepsOthers guest self.old.guests.table.links self.new.guests.table.links }
        ensures rest { self.new ≡ record self.old { guests = self.new.guests } }
    {
        self.guests.put(guest, stream)
    }

    /// A guest may have octets: it knocks, if it is there. Where memory is refused for that, all is as it was.
    pub fn knock(&mut self, guest: u64) -> Result<(), AllocError>
        ensures kept { KeepsPeers S.has_given S.has_got self.old self.new }
        ensures ok { OnOk result (knocks guest self.new.guests ≡ is_guest guest self.old.guests) }
        ensures same { KeepsGuests self.old.guests self.new.guests }
        ensures others { KeepsOthers guest self.old.guests.table.links self.new.guests.table.links }
        ensures rest { self.new ≡ record self.old { guests = self.new.guests } }
    {
        self.guests.knock(guest)
    }

    /// The guest that has knocked for longest, who knocks no more. It may have gone.
    pub fn next_knocking(&mut self) -> Option<u64>
        ensures kept { KeepsPeers S.has_given S.has_got self.old self.new }
        ensures first { GivesKnock result self.old.guests self.new.guests }
        ensures same { KeepsGuests self.old.guests self.new.guests }
        ensures rest { self.new ≡ record self.old { guests = self.new.guests } }
    {
        self.guests.next_knocking()
    }

    /// The link of a guest, which is one no more: nothing was read there, and nothing written.
    pub fn take_guest(&mut self, guest: u64) -> Option<S>
        ensures kept { KeepsPeers S.has_given S.has_got self.old self.new }
        ensures fresh { (bounds : Bounds) (log : List Move) → ArePeers S.has_given S.has_got bounds self.old log
            → IfSome result (λ stream. S.has_given stream [] × S.has_got stream []) }
        ensures unwritten { (log : List Move) → ShowNoMore S.has_got self.old log → IfSome result (λ stream. S.has_got stream []) }
        ensures took { result ≡ stream_at guest self.old.guests }
        ensures gone { is_guest guest self.new.guests ≡ false }
        ensures others { KeepsOthers guest self.old.guests.table.links self.new.guests.table.links }
        ensures rest { self.new ≡ record self.old { guests = self.new.guests } }
    {
        self.guests.take(guest)
    }

    /// Drops the link of a guest. Returns whether it was there.
    pub fn let_guest_go(&mut self, guest: u64) -> bool
        ensures kept { KeepsPeers S.has_given S.has_got self.old self.new }
        ensures was { result ≡ is_guest guest self.old.guests }
        ensures gone { is_guest guest self.new.guests ≡ false }
        ensures others { KeepsOthers guest self.old.guests.table.links self.new.guests.table.links }
        ensures rest { self.new ≡ record self.old { guests = self.new.guests } }
    {
        self.guests.take(guest).is_some()
    }

    /// Whether there is room for the link of one more who is turned away.
    pub fn may_turn_away(&self) -> bool
        ensures { result ≡ has_room self.now.turned_away }
    {
        self.turned_away.len() < MOST_TURNED_AWAY
    }

    /// One has connected for whom there is no room: the refusal is written, as far as it is taken now, and our half is
    /// ended. Returns whether its link is kept until the other side ends it, too; else it is closed.
    pub fn turn_away(&mut self, guest: u64, stream: S, refusal: &[u8]) -> bool
        ensures kept { KeepsPeers S.has_given S.has_got self.old self.new }
        ensures there { result ≡ true → is_some (get nat_cmp self.new.turned_away.links guest) ≡ true }
        ensures refused { result ≡ true → (ended : Bool) → S.has_got stream [] → S.was_ended stream ended
            → IfSome (get nat_cmp self.new.turned_away.links guest) (IsRefused S.has_got S.was_ended refusal.now) }
        // Else all is as it was, and so it is wherever there is no room.
        ensures closed { result ≡ false → get nat_cmp self.new.turned_away.links guest ≡ get nat_cmp self.old.turned_away.links guest }
        ensures room { has_room self.old.turned_away ≡ false → result ≡ false }
        ensures others { KeepsOthers guest self.old.turned_away.links self.new.turned_away.links }
        ensures rest { self.new ≡ record self.old { turned_away = self.new.turned_away } }
    {
        if !self.may_turn_away() {
            return false;
        }
        self.turned_away
            .links
            .insert(guest, refused(stream, refusal))
            .is_ok()
    }

    /// Reads what comes of one who was turned away, and drops it. Returns whether nothing more comes.
    pub fn discard_turned_away(&mut self, guest: u64, buffer: &mut [u8]) -> bool
        ensures kept { KeepsPeers S.has_given S.has_got self.old self.new }
        ensures refused { (refusal : List ℕ) → IfSome (get nat_cmp self.old.turned_away.links guest) (IsRefused S.has_got S.was_ended refusal)
            → IfSome (get nat_cmp self.new.turned_away.links guest) (IsRefused S.has_got S.was_ended refusal) }
        ensures there { is_some (get nat_cmp self.new.turned_away.links guest) ≡ is_some (get nat_cmp self.old.turned_away.links guest) }
        ensures others { KeepsOthers guest self.old.turned_away.links self.new.turned_away.links }
        ensures rest { self.new ≡ record self.old { turned_away = self.new.turned_away } }
    {
        match self.turned_away.links.get_mut(&guest) {
            Some(stream) => is_over(stream, buffer),
            None => true,
        }
    }

    /// Drops the link of one who was turned away. Returns whether it was there.
    pub fn drop_turned_away(&mut self, guest: u64) -> bool
        ensures kept { KeepsPeers S.has_given S.has_got self.old self.new }
        ensures was { result ≡ is_some (get nat_cmp self.old.turned_away.links guest) }
        ensures gone { is_some (get nat_cmp self.new.turned_away.links guest) ≡ false }
        ensures others { KeepsOthers guest self.old.turned_away.links self.new.turned_away.links }
        ensures rest { self.new ≡ record self.old { turned_away = self.new.turned_away } }
    {
        self.turned_away.links.remove(&guest).is_some()
    }
}
