//! What a cache keeps.

ghost use Rattle.std.specs.Prelude.{◌≡◌};

use crate::incidents::Incidents;
use hc_fields::Octets;
use hc_open::{Client, OpenExchanges, OpenLinks};
use hc_service::{Numbers, Stock};
use hc_store::Store;
use std::alloc::Global;
use std::collections::BTreeMap;
use std::hash::BuildHasher;

/// What a cache keeps: what it counts, what is open by number, and what is stored.
#[derive(Drop)]
pub(crate) struct Desk<S: BuildHasher> {
    pub(crate) alloc: Global,
    /// The name by which it calls itself.
    pub(crate) name: Octets,
    pub(crate) numbers: Numbers,
    pub(crate) clients: BTreeMap<u64, Client>,
    pub(crate) exchanges: OpenExchanges,
    pub(crate) links: OpenLinks,
    pub(crate) store: Store<S>,
    /// What went wrong in the last step that was served. No clause says which step, or that nothing is left out.
    pub(crate) incidents: Incidents,
}

impl<S: BuildHasher> Desk<S> {
    ghost use Rattle.std.specs.Prelude.{◌≡◌, ◌&&◌, ◌==◌, ℕ, length};
    ghost use Rattle.std.specs.FinMap.{len};
    ghost use Rattle.hc_service.specs.declared.settings.CoreOptions.{CoreOptions};
    ghost use Rattle.hc_service.specs.declared.settings.CoreSettings.{CoreSettings};
    ghost use Rattle.hc_service.specs.State.{State, awaits_reply, new_state_with};
    ghost use Rattle.hc_store.specs.Entries.{entries_weight};
    ghost use Rattle.hc_core.specs.Held.{held_of_client, held_of_forward, is_background};
    ghost use Rattle.hc_core.specs.Standing.{DeskStandsFor};

    /// That of a cache to which nothing has happened, with an empty store, and with room for so many connections.
    pub(crate) fn new(alloc: Global, name: Octets, store: Store<S>, room: usize) -> Self
        ensures { (settings : CoreSettings) (options : CoreOptions) → name ≡ settings.name → room ≡ options.connections
            → store ≡ (new_state_with settings options).store → DeskStandsFor settings result (new_state_with settings options) }
    {
        Desk {
            alloc,
            name,
            numbers: Numbers::new(room),
            clients: BTreeMap::new(alloc),
            exchanges: OpenExchanges::new(alloc),
            links: OpenLinks::new(alloc),
            store,
            incidents: Incidents::new(alloc),
        }
    }

    /// Whether no connection or forward is open.
    pub(crate) fn is_idle(&self) -> bool
        ensures { (settings : CoreSettings) (s : State) → DeskStandsFor settings self.now s
            → result ≡ (len s.connections == 0 && len s.forwards == 0) }
    {
        self.clients.len() == 0 && self.links.len() == 0
    }
    /// Whether a request of that connection awaits its reply.
    pub(crate) fn awaits(&self, connection: u64) -> bool
        ensures { (settings : CoreSettings) (s : State) → DeskStandsFor settings self.now s
            → result ≡ awaits_reply connection s }
    {
        match self.clients.get(&connection) {
            Some(client) => client.exchange.is_some(),
            None => false,
        }
    }

    /// Whether that forward is open for the store alone.
    pub(crate) fn is_background(&self, forward: u64) -> bool
        ensures { (settings : CoreSettings) (s : State) → DeskStandsFor settings self.now s
            → result ≡ is_background forward s }
    {
        match self.links.by_number.get(&forward) {
            Some(link) => link.forward.purpose.exchange().is_none(),
            None => false,
        }
    }

    /// How many octets are unread of that connection.
    pub(crate) fn held_of_client(&self, connection: u64) -> usize
        ensures { (settings : CoreSettings) (s : State) → DeskStandsFor settings self.now s
            → result ≡ held_of_client connection s }
    {
        match self.clients.get(&connection) {
            Some(client) => client.reader.heard(),
            None => 0,
        }
    }

    /// How many octets have come on that forward.
    pub(crate) fn held_of_forward(&self, forward: u64) -> usize
        ensures { (settings : CoreSettings) (s : State) → DeskStandsFor settings self.now s
            → result ≡ held_of_forward forward s }
    {
        match self.links.by_number.get(&forward) {
            Some(link) => link.reader.heard(),
            None => 0,
        }
    }

    /// What the store holds, in numbers.
    pub(crate) fn stock(&self) -> Stock
        ensures targets { (settings : CoreSettings) (s : State) → DeskStandsFor settings self.now s
            → result.targets ≡ length s.store.entries }
        ensures octets { (settings : CoreSettings) (s : State) → DeskStandsFor settings self.now s
            → result.octets ≡ entries_weight s.store.entries }
    {
        Stock {
            targets: self.store.len(),
            octets: self.store.octets(),
            evicted: self.store.evicted(),
        }
    }
}
