//! Laws of scripts.

ghost use Rattle.std.specs.Prelude.{◌≡◌, ℕ, ◌⊎◌, List, ◌++◌};
ghost use Rattle.hc_service.specs.declared.event.Event.{Event};
ghost use Rattle.hc_scripts.specs.declared.fault.ScriptFault.{ScriptFault};
ghost use Rattle.hc_scripts.specs.declared.fault.ScriptFault.TheVariants as fault;
ghost use Rattle.hc_scripts.specs.Scripts.{IsScript};
ghost use Rattle.hc_scripts.specs.ScriptFaults.{ScriptBreaks, IsScriptOfFirst};

/// Octets are one script at most.
pub fn one_script()
    ensures { (octets : List ℕ) (keys bytes k b : ℕ) (events others : List Event)
        → IsScript octets keys bytes events → IsScript octets k b others
        → (keys ≡ k) × (bytes ≡ b) × (events ≡ others) }
{}

/// What breaks octets is one fault at most.
pub fn breaks_once()
    ensures { (octets : List ℕ) (f e : ScriptFault) → ScriptBreaks octets f → ScriptBreaks octets e → f ≡ e }
{}

/// Octets that a fault breaks are no script.
pub fn broken_is_no_script()
    ensures { (octets : List ℕ) (f : ScriptFault) (keys bytes : ℕ) (events : List Event)
        → ScriptBreaks octets f → ¬ (IsScript octets keys bytes events) }
{}

/// No octets are broken by want of memory, nor by what they say of the settings.
pub fn octets_alone_break()
    ensures memory { (octets : List ℕ) → ¬ (ScriptBreaks octets fault.Memory) }
    ensures settings { (octets : List ℕ) → ¬ (ScriptBreaks octets fault.Settings) }
{}

/// A front of a script is torn, or it is a script of the first of the events.
pub fn fronts_are_torn()
    ensures { (front more : List ℕ) (keys bytes : ℕ) (events : List Event) → IsScript (front ++ more) keys bytes events
        → ScriptBreaks front fault.Torn ⊎ IsScriptOfFirst front keys bytes events }
{}
