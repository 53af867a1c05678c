//! The exchanges that are open.

ghost use Rattle.std.specs.Prelude.{◌≡◌};

use crate::groups::Groups;
use hc_service::OpenExchange;
use std::alloc::{AllocError, Global};
use std::collections::BTreeMap;

/// The most exchanges that wait for one forward.
const MOST_WAITING: usize = 64;

/// The exchanges that are open, by number, and those among them that wait for a forward, by its number.
pub struct OpenExchanges {
    by_number: BTreeMap<u64, OpenExchange>,
    waiting: Groups<u64>,
}

impl Drop for OpenExchanges {
    fn drop(self) {
        let OpenExchanges { by_number, waiting } = self;
        drop(by_number);
        drop(waiting);
    }
}

impl OpenExchanges {
    ghost use Rattle.std.specs.Prelude.{◌≡◌, ℕ, ◌<◌, ◌++◌, IfOk, OnOk, None, Some, length, nat_lt};
    ghost use Rattle.std.specs.FinMap.{empty, get, insert, remove};
    ghost use Rattle.std.specs.Ordering.{nat_cmp};
    ghost use Rattle.hc_service.specs.declared.open.OpenExchange.{OpenExchange};
    ghost use Rattle.hc_service.specs.Joining.{waiting_for};
    ghost use Rattle.hc_service.specs.Serves.{connections_of, listed};
    ghost use Rattle.hc_service.specs.State.{Table};
    ghost use Rattle.hc_open.specs.Groups.{AreGrouped};
    ghost use Rattle.hc_open.specs.Links.{AreExchanges, TakesExchange, connection_at, has_place_at, waits_at};

    /// None is open.
    pub fn new(alloc: Global) -> Self
        ensures { AreExchanges result empty }
    {
        OpenExchanges {
            by_number: BTreeMap::new(alloc),
            waiting: Groups::new(alloc),
        }
    }

    /// Takes out the exchange of that number.
    pub fn take(&mut self, number: u64) -> Option<OpenExchange>
        ensures { (exchanges : Table OpenExchange) → AreExchanges self.old exchanges → TakesExchange number result exchanges self.new }
    {
        let exchange = self.by_number.remove(&number)?;
        self.forget(number, exchange.waits_for);
        Some(exchange)
    }

    /// An exchange was taken out.
    fn forget(&mut self, number: u64, waits_for: Option<u64>)
        ensures by_number { self.new.by_number ≡ self.old.by_number }
        ensures waiting { (exchanges : Table OpenExchange) (x : OpenExchange) → AreGrouped nat_cmp waits_at self.old.waiting.sets exchanges
            → get exchanges number ≡ Some x → x.waits_for ≡ waits_for
            → AreGrouped nat_cmp waits_at self.new.waiting.sets (remove exchanges number) }
    {
        match waits_for {
            None => {}
            Some(forward) => self.waiting.remove(&forward, number),
        }
    }

    /// Notes an exchange that opens under that number, under which none is open.
    fn note(&mut self, alloc: Global, number: u64, waits_for: Option<u64>) -> Result<(), AllocError>
        ensures by_number { self.new.by_number ≡ self.old.by_number }
        ensures waiting { (exchanges : Table OpenExchange) (x : OpenExchange) → AreGrouped nat_cmp waits_at self.old.waiting.sets exchanges
            → get exchanges number ≡ None → x.waits_for ≡ waits_for
            → OnOk result (AreGrouped nat_cmp waits_at self.new.waiting.sets (insert exchanges number x)) }
    {
        match waits_for {
            None => Ok(()),
            Some(forward) => self.waiting.add(alloc, forward, number),
        }
    }

    /// An exchange opens under that number, or takes the place of the one that is open under it.
    pub fn put(
        &mut self,
        alloc: Global,
        number: u64,
        exchange: OpenExchange,
    ) -> Result<(), AllocError>
        ensures { (exchanges : Table OpenExchange) → AreExchanges self.old exchanges
            → OnOk result (AreExchanges self.new (insert exchanges number exchange)) }
    {
        drop(self.take(number));
        self.note(alloc, number, exchange.waits_for)?;
        self.by_number.insert(number, exchange)?;
        Ok(())
    }

    /// The numbers of those that wait for that forward, which rise.
    pub fn waiting_for(&self, alloc: Global, forward: u64) -> Result<Vec<u64>, AllocError>
        ensures { (exchanges : Table OpenExchange) → AreExchanges self.now exchanges
            → IfOk result (λ numbers. numbers.items ≡ waiting_for forward exchanges) }
    {
        match self.waiting.at(&forward) {
            None => Ok(Vec::new(alloc)),
            Some(numbers) => Ok(numbers.iter().copied().collect(alloc)?),
        }
    }

    /// Adds the connection on which the exchange of that number came, if that is open.
    fn add_connection(&self, number: u64, connections: &mut Vec<u64>) -> Result<(), AllocError>
        ensures { (exchanges : Table OpenExchange) → AreExchanges self.now exchanges
            → OnOk result (connections.new.items ≡ connections.old.items ++ listed (connection_at exchanges number)) }
    {
        match self.by_number.get(&number) {
            None => Ok(()),
            Some(exchange) => {
                connections.push(exchange.connection)?;
                Ok(())
            }
        }
    }

    /// The connections on which the exchanges of those numbers came, in their order, but for those that aren't open.
    pub fn connections_of(&self, alloc: Global, numbers: &[u64]) -> Result<Vec<u64>, AllocError>
        ensures { (exchanges : Table OpenExchange) → AreExchanges self.now exchanges
            → IfOk result (λ connections. connections.items ≡ connections_of exchanges numbers.now) }
    {
        let mut connections = Vec::new(alloc);
        for number in numbers {
            self.add_connection(*number, &mut connections)?;
        }
        Ok(connections)
    }

    /// How many wait for that forward.
    fn count_waiting(&self, forward: u64) -> usize
        ensures { (exchanges : Table OpenExchange) → AreExchanges self.now exchanges → result ≡ length (waiting_for forward exchanges) }
    {
        match self.waiting.at(&forward) {
            None => 0,
            Some(numbers) => numbers.len(),
        }
    }

    /// Whether one more may wait for that forward.
    pub fn has_place(&self, forward: u64) -> bool
        ensures { (exchanges : Table OpenExchange) → AreExchanges self.now exchanges
            → result ≡ has_place_at exchanges forward }
    {
        self.count_waiting(forward) < MOST_WAITING
    }
}
