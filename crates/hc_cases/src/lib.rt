//! What programs of cases share.
//!
//! A case is a line of a list: a question, and what it is about, in parts with a `|` between them.
//! A program answers each case of its list with one line: the case, ` => `, and the answer.
#![tactic(auto)]

mod answers;
mod asking;
mod escapes;
mod list;
mod print;
mod showing;
mod words;

pub use answers::{answer_all, status};
pub use asking::{Ask, Case, Unanswered};
pub use escapes::unescaped;
pub use showing::{show, show_line, show_named, show_short, yes_or_no};
pub use words::octets_of;
