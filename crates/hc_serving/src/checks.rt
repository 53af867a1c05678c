//! What is looked at before anybody is served.

ghost use Rattle.std.specs.Prelude.{◌≡◌, IfErr};
ghost use Rattle.hc_serving.specs.Outcomes.{IsTooLow, files_wanted};
ghost use Rattle.hc_serving.specs.Proxies.{IsOfMaking};

use crate::fault::ServeFault;
use crate::recordable::refused_kind_at;
use hc_crowd::Limits;
use hc_peers::MOST_TURNED_AWAY;
use hc_sockets::most_open_files;
use std::rt::Files;

/// So many files may be open besides the links: the listeners and what is recorded to among them.
const FILES_BESIDE: u64 = 32;

/// Fails where nothing is recorded to the file of that name, if there is one.
pub(crate) fn check_recording<R: Files>(rt: &R, file: Option<&str>) -> Result<(), ServeFault>
    ensures { IfErr result IsOfMaking }
{
    let Some(file) = file else {
        return Ok(());
    };
    match refused_kind_at(rt, file) {
        Ok(None) => Ok(()),
        Ok(Some(kind)) => Err(ServeFault::Unrecordable(kind)),
        Err(reason) => Err(ServeFault::Record(reason)),
    }
}

/// Fails where the system doesn't let so many files be open as the limits may want.
pub(crate) fn check_open_files<R: Files>(rt: &R, limits: Limits) -> Result<(), ServeFault>
    ensures { IfErr result (IsTooLow limits) }
{
    let Some(limit) = most_open_files(rt) else {
        return Ok(());
    };
    let wanted = files_wanted(limits);
    if wanted > limit {
        return Err(ServeFault::OpenFiles { limit, wanted });
    }
    Ok(())
}

/// How many files may be open at once within these limits.
fn files_wanted(limits: Limits) -> u64
    ensures { result ≡ files_wanted limits }
{
    (limits.connections as u64)
        .saturating_add(limits.origin_connections as u64)
        .saturating_add(MOST_TURNED_AWAY as u64)
        .saturating_add(FILES_BESIDE)
}
