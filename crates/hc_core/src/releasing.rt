//! Requests that have waited for a forward, once that has ended.

ghost use Rattle.std.specs.Prelude.{◌≡◌, IfOk};
ghost use Rattle.hc_service.specs.Serves.{listed};

use crate::answering::{HeldExchange, take_exchange};
use crate::desk::Desk;
use crate::reading::closes_behind;
use hc_reactions::{forward_alone, release};
use hc_service::{Action, Cause, ForwardKind, WantedReply};
use std::alloc::{AllocError, Global};
use std::hash::BuildHasher;

/// A list of one, or of none.
pub(crate) fn listed(alloc: Global, number: Option<u64>) -> Result<Vec<u64>, AllocError>
    ensures { IfOk result (λ numbers. numbers.items ≡ listed number) }
{
    let mut numbers = Vec::new(alloc);
    match number {
        None => Ok(numbers),
        Some(number) => {
            numbers.push(number)?;
            Ok(numbers)
        }
    }
}

impl<S: BuildHasher> Desk<S> {
    ghost use Rattle.std.specs.Prelude.{◌≡◌, List, OnOk};
    ghost use Rattle.hc_service.specs.declared.settings.CoreSettings.{CoreSettings};
    ghost use Rattle.hc_service.specs.State.{State};
    ghost use Rattle.hc_core.specs.Releasing.{AsksAlone, GivesFinish, GivesRelease, GivesReleases, GivesReleased, SendsAlone};
    ghost use Rattle.hc_core.specs.Standing.{CanServe, DeskStandsFor, GivesReadings, from_state, at_desk};

    /// A forward has ended: those that waited for it are released, by rising number, and then what came
    /// meanwhile is read, first on the connection of the exchange that it was for.
    pub(crate) fn finish(
        &mut self,
        f: u64,
        client: Option<u64>,
        actions: &mut Vec<Action>,
    ) -> Result<(), AllocError>
        requires { CanServe self.old }
        ensures { (settings : CoreSettings) (s : State) → DeskStandsFor settings self.old s
            → OnOk result (GivesFinish (from_state settings s actions.old.items) f client (at_desk actions.new.items self.new)) }
    {
        let waiting = self.exchanges.waiting_for(self.alloc, f)?;
        let mut clients = listed(self.alloc, client)?;
        self.release_all(waiting, &mut clients, actions)?;
        self.read_all(clients, actions)
    }

    /// Releases exchanges that waited, and adds their connections to those that may be read on.
    fn release_all(
        &mut self,
        waiting: Vec<u64>,
        clients: &mut Vec<u64>,
        actions: &mut Vec<Action>,
    ) -> Result<(), AllocError>
        requires { CanServe self.old }
        ensures { (settings : CoreSettings) (s : State) → DeskStandsFor settings self.old s
            → OnOk result (GivesReleases (from_state settings s actions.old.items) waiting.items clients.old.items clients.new.items
            (at_desk actions.new.items self.new)) }
    {
        'waiting: for e in waiting {
            self.release(e, clients, actions)?;
        }
        Ok(())
    }

    /// Releases an exchange that waited, and adds its connection to those that may be read on.
    fn release(
        &mut self,
        e: u64,
        clients: &mut Vec<u64>,
        actions: &mut Vec<Action>,
    ) -> Result<(), AllocError>
        requires { CanServe self.old }
        ensures { (settings : CoreSettings) (s : State) → DeskStandsFor settings self.old s
            → OnOk result (GivesRelease (from_state settings s actions.old.items) e clients.old.items clients.new.items
            (at_desk actions.new.items self.new)) }
    {
        let Some(held) = take_exchange(&mut self.exchanges, &mut self.clients, e) else {
            return Ok(());
        };
        clients.push(held.exchange.connection)?;
        self.release_held(held, actions)
    }

    /// Releases an exchange that waited, and was taken out: it gets its reply from what is stored now, or goes
    /// to the origin by a forward of its own.
    fn release_held(
        &mut self,
        held: HeldExchange,
        actions: &mut Vec<Action>,
    ) -> Result<(), AllocError>
        ensures { OnOk result (GivesReleased held (at_desk actions.old.items self.old) (at_desk actions.new.items self.new)) }
    {
        let closes = closes_behind(
            &held.exchange.request,
            held.client.leaves,
            self.numbers.closing,
        );
        let wanted = WantedReply {
            name: &self.name,
            moment: self.numbers.moment,
            asked: &held.exchange.request,
            closes,
        };
        match release(self.alloc, &mut self.store, &wanted, &held.exchange.target)? {
            Some(reply) => self.reply_to(held, closes, &reply, actions),
            None => self.go_alone(held, actions),
        }
    }

    /// The request of an exchange that waited, and was taken out, goes to the origin by a forward of its own,
    /// and it awaits its reply still.
    fn go_alone(
        &mut self,
        mut held: HeldExchange,
        actions: &mut Vec<Action>,
    ) -> Result<(), AllocError>
        ensures { OnOk result (SendsAlone held (at_desk actions.old.items self.old) (at_desk actions.new.items self.new)) }
    {
        let name = self.name.as_slice();
        let request = forward_alone(
            self.alloc,
            name,
            &held.exchange.target,
            &held.exchange.request,
        )?;
        held.exchange.waits_for = None;
        self.send_for(
            held,
            request,
            Cause::UriMiss,
            ForwardKind::Joinable,
            actions,
        )
    }

    /// Reads connections, one after another, each until nothing more can be read.
    fn read_all(&mut self, clients: Vec<u64>, actions: &mut Vec<Action>) -> Result<(), AllocError>
        requires { CanServe self.old }
        ensures { (settings : CoreSettings) (s : State) → DeskStandsFor settings self.old s
            → OnOk result (GivesReadings (from_state settings s actions.old.items) clients.items (at_desk actions.new.items self.new)) }
    {
        'clients: for c in clients {
            self.read_on(c, actions)?;
        }
        Ok(())
    }
}
