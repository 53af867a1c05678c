//! What each event owes.

use crate::desk::Desk;
use crate::receiving::ForwardStage;
use hc_service::{Action, Event, Happening};
use std::alloc::AllocError;
use std::hash::BuildHasher;

impl<S: BuildHasher> Desk<S> {
    ghost use Rattle.std.specs.Prelude.{◌≡◌, ◌<◌, IfOk, None};
    ghost use Rattle.hc_fields.specs.Numbers.{end_of_moments};
    ghost use Rattle.hc_service.specs.declared.event.Happening.TheVariants.{ClientOpened, ClientBytes, ClientEnd, OriginBytes, OriginEnd, OriginFailed, Stopping};
    ghost use Rattle.hc_service.specs.declared.settings.CoreSettings.{CoreSettings};
    ghost use Rattle.hc_service.specs.State.{State};
    ghost use Rattle.hc_service.specs.Serves.{first_fault};
    ghost use Rattle.hc_core.specs.Standing.{CanServe, GivesService, DeskStandsFor};
    ghost use Rattle.hc_core.specs.Happenings.{CanTake, TakesOn};

    /// Does what an event owes that fails no test.
    pub(crate) fn serve(&mut self, event: Event) -> Result<Vec<Action>, AllocError>
        requires can { CanTake event.of self.old }
        requires in_time { event.moment < end_of_moments }
        ensures { (settings : CoreSettings) (s : State) → DeskStandsFor settings self.old s → first_fault event s ≡ None
            → IfOk result (λ actions. GivesService settings event s actions.items self.new) }
    {
        self.incidents.clear();
        self.numbers.pass_to(event.moment);
        self.take(event.of)
    }

    /// Does what is owed for what happens now.
    fn take(&mut self, of: Happening) -> Result<Vec<Action>, AllocError>
        requires { CanTake of self.old }
        ensures { TakesOn of self.old result self.new }
    {
        match of {
            Happening::ClientOpened(c) => self.client_opened(c),
            Happening::ClientBytes(c, octets) => self.client_sent(c, octets.as_slice()),
            Happening::ClientEnd(c) => self.client_ended(c),
            Happening::OriginBytes(f, octets) => self.origin_sent(f, octets.as_slice()),
            Happening::OriginEnd(f) => self.origin_ended(f),
            Happening::OriginFailed(f) => self.origin_lost(f),
            Happening::Stopping => self.stop(),
        }
    }

    /// A connection opens.
    fn client_opened(&mut self, c: u64) -> Result<Vec<Action>, AllocError>
        ensures { TakesOn (ClientOpened c) self.old result self.new }
    {
        self.open(c)?;
        Ok(Vec::new(self.alloc))
    }

    /// Octets come from the client of an open connection, which is read as far as can be.
    fn client_sent(&mut self, c: u64, octets: &[u8]) -> Result<Vec<Action>, AllocError>
        requires { CanTake (ClientBytes c octets.now) self.old }
        ensures { TakesOn (ClientBytes c octets.now) self.old result self.new }
    {
        self.receive_client(c, octets)?;
        let mut actions = Vec::new(self.alloc);
        self.read_on(c, &mut actions)?;
        Ok(actions)
    }

    /// The client of an open connection sends no more.
    fn client_ended(&mut self, c: u64) -> Result<Vec<Action>, AllocError>
        requires { CanTake (ClientEnd c) self.old }
        ensures { TakesOn (ClientEnd c) self.old result self.new }
    {
        let mut actions = Vec::new(self.alloc);
        self.end_client(c, &mut actions)?;
        Ok(actions)
    }

    /// Octets come from the origin on an open forward.
    fn origin_sent(&mut self, f: u64, octets: &[u8]) -> Result<Vec<Action>, AllocError>
        requires { CanTake (OriginBytes f octets.now) self.old }
        ensures { TakesOn (OriginBytes f octets.now) self.old result self.new }
    {
        let mut actions = Vec::new(self.alloc);
        match self.receive_origin(f, octets, &mut actions)? {
            ForwardStage::IsOpen => Ok(actions),
            ForwardStage::HasEnded { client } => {
                self.finish(f, client, &mut actions)?;
                Ok(actions)
            }
        }
    }

    /// The origin sends no more on an open forward.
    fn origin_ended(&mut self, f: u64) -> Result<Vec<Action>, AllocError>
        requires { CanTake (OriginEnd f) self.old }
        ensures { TakesOn (OriginEnd f) self.old result self.new }
    {
        let mut actions = Vec::new(self.alloc);
        let client = self.end_origin(f, &mut actions)?;
        self.finish(f, client, &mut actions)?;
        Ok(actions)
    }

    /// An open forward is lost.
    fn origin_lost(&mut self, f: u64) -> Result<Vec<Action>, AllocError>
        requires { CanTake (OriginFailed f) self.old }
        ensures { TakesOn (OriginFailed f) self.old result self.new }
    {
        let mut actions = Vec::new(self.alloc);
        let client = self.lose(f, &mut actions)?;
        self.finish(f, client, &mut actions)?;
        Ok(actions)
    }

    /// Whoever serves the cache stops: from now on each reply closes its connection behind it.
    fn stop(&mut self) -> Result<Vec<Action>, AllocError>
        ensures { TakesOn Stopping self.old result self.new }
    {
        self.numbers.stop();
        Ok(Vec::new(self.alloc))
    }
}
