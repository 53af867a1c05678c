//! Scripts of events: how they are read, and what a cache makes of them.
#![tactic(auto)]

mod event_line;
mod fault;
mod first_line;
mod kind;
mod laws;
mod limits;
mod numeral;
mod opening;
mod reading;
mod replaying;
mod script;
mod settings_line;
mod splitting;

pub use event_line::EventLine;
pub use fault::ScriptFault;
pub use kind::EventKind;
pub use laws::{breaks_once, broken_is_no_script, fronts_are_torn, octets_alone_break, one_script};
pub use limits::{GREATEST_COUNT, GREATEST_KEYS};
pub use opening::OPENING;
pub use replaying::replay;
pub use script::{Script, read_script};
