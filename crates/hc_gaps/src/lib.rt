//! In what a reply differs from a stored response that it may carry: in the request that it answers, in its status and its body,
//! and in its fields; and why a 304 isn't about that response.
#![tactic(auto)]

mod against;
mod contents;
mod differing;
mod forms;
mod selecting;

pub use against::{Against, agree, first_against};
pub use contents::{BodyGap, ContentGap, PERMITTED_PART, body_gap, content_gap, has_body};
pub use differing::{Change, Differences, FieldGap, FieldsOrigin, Freedom, compare};
pub use forms::leaves_out;
pub use selecting::{Selection, unmet_members};
