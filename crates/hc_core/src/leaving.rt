//! The end of what a client sends.

use crate::desk::Desk;
use crate::incidents::refuse_client;
use hc_open::Client;
use hc_service::Action;
use std::alloc::AllocError;
use std::hash::BuildHasher;

impl<S: BuildHasher> Desk<S> {
    ghost use Rattle.std.specs.Prelude.{◌≡◌, ℕ, ◌<◌, List, OnOk, Some, None, true, false};
    ghost use Rattle.std.specs.FinMap.{get};
    ghost use Rattle.hc_fields.specs.Numbers.{end_of_moments};
    ghost use Rattle.hc_incoming.specs.RequestReading.{CanRead};
    ghost use Rattle.hc_service.specs.declared.action.Action.{Action};
    ghost use Rattle.hc_service.specs.declared.settings.CoreSettings.{CoreSettings};
    ghost use Rattle.hc_service.specs.State.{Connection, State};
    ghost use Rattle.hc_open.specs.Links.{IsClient};
    ghost use Rattle.hc_core.specs.Standing.{CanServe, GivesEnd, DeskStandsFor, without_connection, from_state, at_desk};

    /// The client of an open connection sends no more.
    pub(crate) fn end_client(&mut self, c: u64, actions: &mut Vec<Action>) -> Result<(), AllocError>
        requires { CanServe self.old }
        ensures { (settings : CoreSettings) (s : State) (k : Connection) → DeskStandsFor settings self.old s
            → get s.connections c ≡ Some k
            → OnOk result (GivesEnd (from_state settings s actions.old.items) c k (at_desk actions.new.items self.new)) }
    {
        let Some(client) = self.clients.remove(&c) else {
            return Ok(());
        };
        if client.leaves {
            return self.put_back(c, client);
        }
        match client.exchange {
            Some(_) => self.leave_busy(c, client),
            None => self.end_idle(c, client, actions),
        }
    }

    /// Nothing more is read of a connection, which was taken out: its client's end is no news.
    fn put_back(&mut self, c: u64, client: Client) -> Result<(), AllocError>
        ensures { (settings : CoreSettings) (s : State) (k : Connection) (items : List Action)
            → DeskStandsFor settings self.old (without_connection c s)
            → get s.connections c ≡ Some k → IsClient client k → k.leaves ≡ true
            → OnOk result (GivesEnd (from_state settings s items) c k (at_desk items self.new)) }
    {
        self.clients.insert(c, client)?;
        Ok(())
    }

    /// The client ends while an exchange awaits its reply, on a connection which was taken out: what is unread
    /// behind the request is given up.
    fn leave_busy(&mut self, c: u64, mut client: Client) -> Result<(), AllocError>
        ensures { (settings : CoreSettings) (s : State) (k : Connection) (exchange : ℕ) (items : List Action)
            → DeskStandsFor settings self.old (without_connection c s)
            → get s.connections c ≡ Some k → IsClient client k → k.exchange ≡ Some exchange → k.leaves ≡ false
            → OnOk result (GivesEnd (from_state settings s items) c k (at_desk items self.new)) }
    {
        client.leave();
        self.clients.insert(c, client)?;
        Ok(())
    }

    /// The client of a connection, which was taken out, sends no more between requests or inside one.
    fn end_idle(
        &mut self,
        c: u64,
        mut client: Client,
        actions: &mut Vec<Action>,
    ) -> Result<(), AllocError>
        requires in_time { self.old.numbers.moment < end_of_moments }
        requires can { CanRead client.reader }
        ensures { (settings : CoreSettings) (s : State) (k : Connection)
            → DeskStandsFor settings self.old (without_connection c s)
            → get s.connections c ≡ Some k → IsClient client k → k.exchange ≡ None → k.leaves ≡ false
            → OnOk result (GivesEnd (from_state settings s actions.old.items) c k (at_desk actions.new.items self.new)) }
    {
        match client.reader.end()? {
            Some(trouble) => refuse_client(
                self.alloc,
                &mut self.incidents,
                self.numbers.moment,
                c,
                trouble,
                actions,
            ),
            None => {
                actions.push(Action::CloseClient(c))?;
                Ok(())
            }
        }
    }
}
