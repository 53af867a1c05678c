//! What a cache returns to whoever drives it.

use hc_cases::{Unanswered, show};
use hc_core::Core;
use hc_service::Incident;
use std::alloc::AllocError;
use std::fmt::Write;

/// Writes the connections of the exchanges that the end of the forward answers.
pub(crate) fn say_clients(core: &Core, forward: u64, out: &mut String) -> Result<(), Unanswered> {
    let clients = core.clients_of(forward)?;
    Ok(say_numbers(clients.as_slice(), out)?)
}

fn say_numbers(numbers: &[u64], out: &mut String) -> Result<(), AllocError> {
    if numbers.is_empty() {
        return out.push_str("nobody");
    }
    for (place, number) in numbers.iter().enumerate() {
        if place > 0 {
            out.push_str(" and ")?;
        }
        write!(out, "{number}")?;
    }
    Ok(())
}

/// Writes whether the forward goes on where nobody awaits what comes on it.
pub(crate) fn say_needed(core: &Core, forward: u64, out: &mut String) -> Result<(), Unanswered> {
    let text = if core.is_needed(forward) {
        "needed"
    } else {
        "not needed"
    };
    Ok(out.push_str(text)?)
}

/// Writes what went wrong.
pub(crate) fn say_incidents(incidents: &[Incident], out: &mut String) -> Result<(), AllocError> {
    for incident in incidents {
        say_incident(incident, out)?;
    }
    Ok(())
}

fn say_incident(incident: &Incident, out: &mut String) -> Result<(), AllocError> {
    match incident {
        Incident::Refused {
            connection,
            trouble,
        } => {
            let name = trouble.name();
            write!(out, ", refuses {connection}, since {name}")
        }
        Incident::Failed {
            forward,
            target,
            trouble,
        } => {
            write!(out, ", fails {forward} for ")?;
            show(target.host.as_slice(), out)?;
            show(target.path.as_slice(), out)?;
            let name = trouble.name();
            write!(out, ", since {name}")
        }
    }
}
