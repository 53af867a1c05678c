//! The cache.

ghost use Rattle.std.specs.Prelude.{◌≡◌};

use crate::desk::Desk;
use crate::keeping::steps_keep_agreement;
use hc_head::Target;
use hc_service::{
    Action, CoreFault, CoreOptions, CoreSettings, Event, Incident, StepFault, Stock, is_name,
    is_room, is_size,
};
use hc_store::Store;
use lru::DefaultHasher;
use std::alloc::{AllocError, Global};
use std::hash::{BuildHasher, BuildHasherDefault};
use std::marker::Model;

/// A shared cache in front of one origin, as a step function over what happens at its links.
pub struct Core<S: BuildHasher = DefaultHasher> {
    failed: bool,
    desk: Desk<S>,
}

impl<S: BuildHasher + Drop> Drop for Core<S> {
    fn drop(self) {
        let Core { failed: _, desk } = self;
        drop(desk);
    }
}

impl<S: BuildHasher> Model for Core<S> {
    ghost use Rattle.std.specs.Coded.{codes};
    ghost use Rattle.std_collections.specs.Layout.BTreeMap.{btree_map_code};
    ghost use Rattle.hc_core.specs.Steps.{CanStep, Cache, cache_of};

    ghost Value = { Cache };

    ghost coded = { Prim.hlevel (codes, btree_map_code) };

    ghost view = { λ c. cache_of c.failed c.desk };

    ghost invariant = { λ c. CanStep c.failed c.desk };
}

impl Core<DefaultHasher> {
    ghost use Rattle.hc_core.specs.Settings.{GivesCore};

    /// A cache of those settings to which nothing has happened, with the usual options: room for 1,024 connections, and
    /// responses that set a cookie are stored. Targets are hashed with a fixed seed; where an attacker picks them, use
    /// `with_hasher` with a `RandomState`.
    pub fn new(alloc: Global, settings: CoreSettings) -> Result<Self, CoreFault>
        ensures { GivesCore result settings }
    {
        Core::with_hasher(alloc, settings, BuildHasherDefault::new())
    }
}

impl<S: BuildHasher + Drop> Core<S> {
    ghost use Rattle.hc_core.specs.Settings.{GivesCore, GivesCoreWith};

    /// The same, whose store hashes targets with that.
    pub fn with_hasher(alloc: Global, settings: CoreSettings, hasher: S) -> Result<Self, CoreFault>
        ensures { GivesCore result settings }
    {
        Core::with_options(alloc, settings, hasher, CoreOptions::usual())
    }

    /// The same, with those options. Beyond its room a connection that opens is refused, by `TooManyConnections`.
    pub fn with_options(
        alloc: Global,
        settings: CoreSettings,
        hasher: S,
        options: CoreOptions,
    ) -> Result<Self, CoreFault>
        ensures { GivesCoreWith result settings options }
    {
        if !is_name(settings.name.as_slice()) {
            return Err(CoreFault::Name);
        }
        if !is_size(settings.keys) {
            return Err(CoreFault::Size);
        }
        if !is_room(options.connections) {
            return Err(CoreFault::Room);
        }
        let bytes = settings.bytes as usize;
        let store = Store::with_hasher(alloc, settings.keys, bytes, options.keeps_cookies, hasher)?;
        Ok(Core {
            failed: false,
            desk: Desk::new(alloc, settings.name, store, options.connections),
        })
    }
}

impl<S: BuildHasher> Core<S> {
    ghost use Rattle.std.specs.Prelude.{◌≢◌, ◌&&◌, ◌==◌, ℕ, [], length, true, false, None, IfOk, IsErrOf, OnErr};
    ghost use Rattle.std.specs.FinMap.{len};
    ghost use Rattle.std.specs.Option.{option_copied};
    ghost use Rattle.hc_service.specs.declared.fault.StepFault.TheVariants.{Failed, Memory};
    ghost use Rattle.hc_service.specs.declared.fault.StepFault.{StepFault};
    ghost use Rattle.hc_service.specs.declared.settings.CoreSettings.{CoreSettings};
    ghost use Rattle.hc_service.specs.Agreement.{Agrees, History, IsReady};
    ghost use Rattle.hc_service.specs.Settings.{AreGood};
    ghost use Rattle.hc_service.specs.Serves.{clients_of};
    ghost use Rattle.hc_service.specs.State.{State, awaits_reply};
    ghost use Rattle.hc_store.specs.Entries.{entries_weight};
    ghost use Rattle.hc_core.specs.Held.{held_of_client, held_of_forward, is_background, is_needed, target_at};
    ghost use Rattle.hc_core.specs.Steps.{GivesAgreement, GivesStep, StandsFor, TellsFirst, records_given};

    /// Something happens. Where memory is refused, no event is served any more; any other fault changes
    /// nothing, and of several the first is told: that it has failed, then those of `first_fault`.
    pub fn step(&mut self, event: Event) -> Result<Vec<Action>, StepFault>
        // Where it agrees with what has happened, the records that it gives out are a transcript behind those
        // before, each reply among them is right, and it agrees with what has happened then.
        ensures agrees { (settings : CoreSettings) (s : State) (h : History) → AreGood settings
            → StandsFor settings self.old s → Agrees s h → GivesAgreement result settings event s h self.new }
        // Whatever state it stands for, if each forward can end there, it does what it owes for the event.
        ensures gives { (settings : CoreSettings) (s : State) → StandsFor settings self.old s → IsReady s
            → GivesStep result settings event s self.new }
        // Whatever state it stands for, the first test that the event fails is told, and no other fault but want of memory.
        ensures first { (settings : CoreSettings) (s : State) → StandsFor settings self.old s → TellsFirst result event s }
        ensures works { IsErrOf result Failed → self.old.failed ≡ true }
        // What stands after a fault.
        ensures failed { IsErrOf result Memory → self.new.failed ≡ true }
        ensures same { (fault : StepFault) → IsErrOf result fault → fault ≢ Memory → self.new ≡ self.old }
        ensures given { OnErr result (records_given self.new ≡ records_given self.old) }
        ensures failed_again { self.old.failed ≡ true → IsErrOf result Failed }
    {
        steps_keep_agreement();
        self.serve(event)
    }

    /// Does what is owed for an event that no test refuses.
    fn serve(&mut self, event: Event) -> Result<Vec<Action>, StepFault>
        ensures gives { (settings : CoreSettings) (s : State) → StandsFor settings self.old s → IsReady s
            → GivesStep result settings event s self.new }
        ensures first { (settings : CoreSettings) (s : State) → StandsFor settings self.old s → TellsFirst result event s }
        ensures works { IsErrOf result Failed → self.old.failed ≡ true }
        ensures failed { IsErrOf result Memory → self.new.failed ≡ true }
        ensures same { (fault : StepFault) → IsErrOf result fault → fault ≢ Memory → self.new ≡ self.old }
        ensures given { OnErr result (records_given self.new ≡ records_given self.old) }
        ensures failed_again { self.old.failed ≡ true → IsErrOf result Failed }
    {
        if self.failed {
            return Err(StepFault::Failed);
        }
        if let Some(fault) = self.desk.first_fault(&event) {
            return Err(fault);
        }
        let given = self.desk.numbers.records;
        match self.desk.serve(event) {
            Ok(actions) => Ok(actions),
            Err(_) => {
                self.failed = true;
                self.desk.numbers.records = given;
                Err(StepFault::Memory)
            }
        }
    }

    /// How many records were given out.
    pub fn records(&self) -> u64
        ensures given { result ≡ records_given self.now }
        ensures state { (settings : CoreSettings) (s : State) → StandsFor settings self.now s → result ≡ s.numbers.records }
    {
        self.desk.numbers.records
    }

    /// Whether it hasn't failed, and no connection or forward is open.
    pub fn idle(&self) -> bool
        ensures state { (settings : CoreSettings) (s : State) → StandsFor settings self.now s
            → result ≡ (len s.connections == 0 && len s.forwards == 0) }
        ensures failed { self.now.failed ≡ true → result ≡ false }
    {
        !self.failed && self.desk.is_idle()
    }
    /// Whether it hasn't failed, and a request of that connection awaits its reply. Who drives a cache reads no further from
    /// such a client.
    pub fn awaits(&self, connection: u64) -> bool
        ensures state { (settings : CoreSettings) (s : State) → StandsFor settings self.now s
            → result ≡ awaits_reply connection s }
        ensures failed { self.now.failed ≡ true → result ≡ false }
    {
        !self.failed && self.desk.awaits(connection)
    }

    /// Whether it hasn't failed, and that forward is open for the store alone: it revalidates a stored response behind a
    /// reply that was given out stale (RFC 5861 section 3), and no exchange awaits what comes on it.
    ///
    /// A forward that was made for an exchange never becomes such a one: at the latest it ends in the step that gives the
    /// exchange its reply. Where the client sends no more before that, the exchange awaits its reply all the same.
    pub fn is_background(&self, forward: u64) -> bool
        ensures state { (settings : CoreSettings) (s : State) → StandsFor settings self.now s
            → result ≡ is_background forward s }
        ensures failed { self.now.failed ≡ true → result ≡ false }
    {
        !self.failed && self.desk.is_background(forward)
    }

    /// Whether it hasn't failed, and that forward is open and goes on even where nobody awaits what comes on it: it is open
    /// for the store alone, or its request may change something at the origin, so that its response invalidates what is
    /// stored of that.
    pub fn is_needed(&self, forward: u64) -> bool
        ensures state { (settings : CoreSettings) (s : State) → StandsFor settings self.now s
            → result ≡ is_needed forward s }
        ensures failed { self.now.failed ≡ true → result ≡ false }
    {
        !self.failed && self.desk.is_needed(forward)
    }

    /// The connections of the exchanges that the end of that forward answers: first that for which it was sent, then those
    /// that wait for it, by rising number of their exchanges. None where the forward isn't open, or the cache has failed.
    pub fn clients_of(&self, forward: u64) -> Result<Vec<u64>, AllocError>
        ensures state { (settings : CoreSettings) (s : State) → StandsFor settings self.now s
            → IfOk result (λ clients. clients.items ≡ clients_of forward s) }
        ensures failed { self.now.failed ≡ true → IfOk result (λ clients. clients.items ≡ []) }
    {
        if self.failed {
            return Ok(Vec::new(self.desk.alloc));
        }
        self.desk.clients_of(forward)
    }

    /// What that forward asks for: nothing where it isn't open, or the cache has failed.
    pub fn target_of(&self, forward: u64) -> Option<&Target>
        ensures state { (settings : CoreSettings) (s : State) → StandsFor settings self.now s
            → option_copied result ≡ target_at forward s }
        ensures failed { self.now.failed ≡ true → option_copied result ≡ None }
    {
        if self.failed {
            return None;
        }
        self.desk.target_of(forward)
    }

    /// What was refused in the last step that was served, and which forwards failed there by what came on them, in the
    /// order in which that happened; nothing where the cache has failed.
    ///
    /// No clause says more: neither that nothing is left out, nor that it is of that step.
    pub fn incidents(&self) -> &[Incident]
        ensures failed { self.now.failed ≡ true → result.now ≡ [] }
    {
        if self.failed {
            return &[];
        }
        self.desk.incidents.as_slice()
    }

    /// How many octets have come from the client of that connection behind the last request that was read, and weren't
    /// dropped: 0 where it isn't open, or the cache has failed.
    pub fn held_of_client(&self, connection: u64) -> usize
        ensures state { (settings : CoreSettings) (s : State) → StandsFor settings self.now s
            → result ≡ held_of_client connection s }
        ensures failed { self.now.failed ≡ true → result ≡ 0 }
    {
        if self.failed {
            return 0;
        }
        self.desk.held_of_client(connection)
    }

    /// How many octets have come on that forward, whose response isn't whole: 0 where it isn't open, or the cache has
    /// failed.
    pub fn held_of_forward(&self, forward: u64) -> usize
        ensures state { (settings : CoreSettings) (s : State) → StandsFor settings self.now s
            → result ≡ held_of_forward forward s }
        ensures failed { self.now.failed ≡ true → result ≡ 0 }
    {
        if self.failed {
            return 0;
        }
        self.desk.held_of_forward(forward)
    }

    /// What its store holds, in numbers. How many targets were dropped no clause says.
    pub fn stock(&self) -> Stock
        ensures targets { (settings : CoreSettings) (s : State) → StandsFor settings self.now s
            → result.targets ≡ length s.store.entries }
        ensures octets { (settings : CoreSettings) (s : State) → StandsFor settings self.now s
            → result.octets ≡ entries_weight s.store.entries }
    {
        self.desk.stock()
    }
}
