//! Writing Cache-Status.

ghost use Rattle.std.specs.Prelude.{◌≡◌, ◌++◌, IfOk, OnOk};
ghost use Rattle.hc_status.specs.Texts.{fwd_status_text, handling_text, member_text, stored_text, collapsed_text, ttl_text};

use crate::cache_status::{CacheStatus, Handling};
use hc_fields::Octets;
use std::alloc::{AllocError, Global};
use std::io::Write;

fn write_ttl(text: &mut Vec<u8>, ttl: Option<i64>) -> Result<(), AllocError>
    ensures { OnOk result (text.new.items ≡ text.old.items ++ ttl_text ttl) }
{
    match ttl {
        None => Ok(()),
        Some(ttl) => write!(text, ";ttl={ttl}").map_err(|_| AllocError),
    }
}

fn write_fwd_status(text: &mut Vec<u8>, fwd_status: Option<u16>) -> Result<(), AllocError>
    ensures { OnOk result (text.new.items ≡ text.old.items ++ fwd_status_text fwd_status) }
{
    match fwd_status {
        None => Ok(()),
        Some(status) => write!(text, ";fwd-status={status}").map_err(|_| AllocError),
    }
}

fn write_stored(text: &mut Vec<u8>, stored: bool) -> Result<(), AllocError>
    ensures { OnOk result (text.new.items ≡ text.old.items ++ stored_text stored) }
{
    if stored {
        text.extend_from_slice(b";stored")
    } else {
        Ok(())
    }
}

fn write_collapsed(text: &mut Vec<u8>, collapsed: bool) -> Result<(), AllocError>
    ensures { OnOk result (text.new.items ≡ text.old.items ++ collapsed_text collapsed) }
{
    if collapsed {
        text.extend_from_slice(b";collapsed")
    } else {
        Ok(())
    }
}

fn write_handling(text: &mut Vec<u8>, handling: &Handling) -> Result<(), AllocError>
    ensures { OnOk result (text.new.items ≡ text.old.items ++ handling_text handling.now) }
{
    match handling {
        Handling::Hit { ttl } => {
            text.extend_from_slice(b";hit")?;
            write_ttl(text, *ttl)
        }
        Handling::Fwd {
            word,
            fwd_status,
            stored,
            collapsed,
        } => {
            text.extend_from_slice(b";fwd=")?;
            text.extend_from_slice(word.as_slice())?;
            write_fwd_status(text, *fwd_status)?;
            write_stored(text, *stored)?;
            write_collapsed(text, *collapsed)
        }
    }
}

/// The text of the member, without spaces.
pub fn write_member(alloc: Global, status: &CacheStatus) -> Result<Octets, AllocError>
    ensures { IfOk result (λ text. text ≡ member_text status.now) }
{
    let mut text = Vec::new(alloc);
    text.extend_from_slice(status.name.as_slice())?;
    write_handling(&mut text, &status.handling)?;
    Ok(Octets::from_vec(text))
}
