//! What arrives on links: how the octets of a client connection become requests or refusals, and how
//! those of a forward's connection to the origin become one response or a failure, and why (`Trouble`).
#![tactic(auto)]

mod arrival;
mod heads;
mod laws;
mod requests;
mod responses;
mod troubles;

pub use arrival::{Ended, RequestArrival, ResponseHeard};
pub use laws::{one_request_arrives, one_response_arrives, refusals_have_their_status};
pub use requests::RequestReader;
pub use responses::ResponseReader;
pub use troubles::{Trouble, refusal_status};
