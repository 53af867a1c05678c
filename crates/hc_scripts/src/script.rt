//! Scripts of events.

ghost use Rattle.std.specs.Prelude.{◌≡◌, ◌≢◌, ℕ, ◌⊎◌, List, IfOk, IfErr, MatchResult};
ghost use Rattle.hc_service.specs.declared.event.Event.{Event};
ghost use Rattle.hc_scripts.specs.declared.fault.ScriptFault.{ScriptFault};
ghost use Rattle.hc_scripts.specs.declared.fault.ScriptFault.TheVariants as fault;
ghost use Rattle.hc_scripts.specs.Scripts.{IsScript};
ghost use Rattle.hc_scripts.specs.ScriptFaults.{ScriptBreaks};

use crate::fault::ScriptFault;
use crate::opening::behind_opening;
use crate::reading::read_events;
use crate::settings_line::read_settings;
use hc_fields::Octets;
use hc_service::{CoreSettings, Event};
use std::alloc::{AllocError, Global};

/// The name of a cache that plays a script.
const NAME: &[u8] = b"hcache";

/// What a cache is set to, and what happens to it.
#[derive(Drop)]
pub struct Script {
    /// How many keys the cache's store may have.
    pub keys: u64,
    /// How many octets the cache's store may have.
    pub bytes: u64,
    /// What happens, in this order. A moment may be earlier than the one before it.
    pub events: Vec<Event>,
}

impl Script {
    ghost use Rattle.hc_scripts.specs.Replays.{settings_of};

    /// The settings of a cache that plays the script, whether or not it can have them.
    pub fn settings(&self, alloc: Global) -> Result<CoreSettings, AllocError>
        ensures { IfOk result (λ settings. settings ≡ settings_of self.now.keys self.now.bytes) }
    {
        Ok(CoreSettings {
            name: Octets::from_slice(alloc, NAME)?,
            keys: self.keys as usize,
            bytes: self.bytes,
        })
    }
}

/// The script that the octets are. It takes memory for the events, each of whose octets are copied
/// once. The fault is never `Settings`: whether a cache can have the settings isn't judged.
pub fn read_script(alloc: Global, octets: &[u8]) -> Result<Script, ScriptFault>
    ensures ok { IfOk result (λ script. IsScript octets.now script.keys script.bytes script.events.items) }
    ensures err { IfErr result (λ f. f ≢ fault.Memory → ScriptBreaks octets.now f) }
    // A script is read, and a broken one refused by its fault, unless memory is refused.
    ensures found { (keys bytes : ℕ) (events : List Event) → IsScript octets.now keys bytes events
        → MatchResult result (λ s. (s.keys ≡ keys) × (s.bytes ≡ bytes) × (s.events.items ≡ events)) (λ f. f ≡ fault.Memory) }
    ensures refused { (f : ScriptFault) → ScriptBreaks octets.now f → MatchResult result (λ s. ⊥) (λ e. (e ≡ f) ⊎ (e ≡ fault.Memory)) }
{
    read_parts(alloc, octets)
}

/// The script that the octets are.
fn read_parts(alloc: Global, octets: &[u8]) -> Result<Script, ScriptFault>
    ensures ok { IfOk result (λ script. IsScript octets.now script.keys script.bytes script.events.items) }
    ensures err { IfErr result (λ f. f ≢ fault.Memory → ScriptBreaks octets.now f) }
{
    let rest = behind_opening(octets)?;
    let (size, rest) = read_settings(rest)?;
    let events = read_events(alloc, rest)?;
    Ok(Script {
        keys: size.keys,
        bytes: size.bytes,
        events,
    })
}
