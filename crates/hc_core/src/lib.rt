//! The shared cache as a step function: events in, actions and records out. And its runs: a cache that is handed
//! events, one after another, and the transcript that it records. What it is told and does stands in hc_service;
//! this crate gives all of it.
#![tactic(auto)]

mod admission;
mod answering;
mod awaiting;
mod clients;
mod desk;
mod ending;
mod fault;
mod incidents;
mod keeping;
mod laws;
mod leaving;
mod machine;
mod moving;
mod outcome;
mod reading;
mod receiving;
mod recording;
mod releasing;
mod running;
mod serving;

pub use fault::RunFault;
pub use hc_service::{Action, CoreFault, CoreSettings, Event, Happening, StepFault};
pub use laws::{
    chunk_lines_are_read_strictly, no_request_is_held_back, one_reaction,
    what_takes_no_memory_is_put,
};
pub use machine::Core;
pub use outcome::{Run, StepResult};
pub use running::run;
