//! What happens on a client's connection besides its requests.

ghost use Rattle.std.specs.Prelude.{◌≡◌};

use crate::desk::Desk;
use hc_open::Client;
use std::alloc::AllocError;
use std::hash::BuildHasher;

impl<S: BuildHasher> Desk<S> {
    ghost use Rattle.std.specs.Prelude.{◌≡◌, ℕ, [], OnOk, Some, ◌<◌, true};
    ghost use Rattle.std.specs.FinMap.{get, len};
    ghost use Rattle.hc_service.specs.declared.settings.CoreSettings.{CoreSettings};
    ghost use Rattle.hc_service.specs.Numbers.{is_later};
    ghost use Rattle.hc_service.specs.State.{State, Connection};
    ghost use Rattle.hc_service.specs.Serves.Turn.{Opening, ClientSending};
    ghost use Rattle.hc_core.specs.Standing.{GivesTurn, DeskStandsFor, from_state, at_desk};

    /// A connection opens, of a number greater than all before.
    pub(crate) fn open(&mut self, c: u64) -> Result<(), AllocError>
        ensures { (settings : CoreSettings) (s : State) → DeskStandsFor settings self.old s
            → is_later c s.numbers.connection ≡ true → len s.connections < s.numbers.room
            → OnOk result (GivesTurn (from_state settings s []) (Opening c) (at_desk [] self.new)) }
    {
        self.clients.insert(c, Client::new(self.alloc))?;
        self.numbers.open(c);
        Ok(())
    }

    /// Octets come from the client of an open connection.
    pub(crate) fn receive_client(&mut self, c: u64, octets: &[u8]) -> Result<(), AllocError>
        ensures { (settings : CoreSettings) (s : State) (k : Connection) → DeskStandsFor settings self.old s
            → get s.connections c ≡ Some k
            → OnOk result (GivesTurn (from_state settings s []) (ClientSending c octets.now) (at_desk [] self.new)) }
    {
        let Some(mut client) = self.clients.remove(&c) else {
            return Ok(());
        };
        client.hear(octets)?;
        self.clients.insert(c, client)?;
        Ok(())
    }
}
