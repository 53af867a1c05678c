//! Options of a command line as rows of a table, what their values say, and what the words of `audit` ask.
#![tactic(auto)]

mod allowing;
mod auditing;
mod commands;
mod finding;
mod names;
mod refusal;
mod rows;
mod settings;
mod tables;
mod values;

pub use auditing::{
    AuditOrder, AuditTerms, Minimums, audit_asked, audit_terms_in, minimums_in, not_text,
};
pub use commands::{audit_command, begun, program, with_rows, with_subcommand};
pub use finding::{flag_in, number_if_given, number_or, required};
pub use refusal::{Refusal, usage_error};
pub use rows::{Kind, Row, Takes};
pub use settings::settings_in;
pub use tables::{AUDITED, COUNTING, JSON, JUDGING};
pub use values::number_of;
