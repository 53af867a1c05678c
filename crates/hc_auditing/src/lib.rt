//! The command `audit`, from a reader to a line and an exit status, and what other commands share with it: how a file is
//! opened and read, the line of a verdict, what is said where a task isn't done, and text on a writer.
#![tactic(auto)]

mod auditing;
mod input;
mod line;
mod minimums;
mod opening;
mod print;
mod program;
mod pulling;
mod trouble;
mod usage;

pub use auditing::{audit, said, verdict_status};
pub use input::all_of;
pub use line::verdict_line;
pub use minimums::ended;
pub use opening::{input_name, input_of, opened};
pub use print::printed;
pub use program::{answered, audited, status, unread, words_of};
pub use pulling::{Fed, buffer, pull};
pub use trouble::Trouble;
pub use usage::shown;
