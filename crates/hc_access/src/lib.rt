//! The access log of a proxy: a line for each reply.
#![tactic(auto)]

mod access_log;
mod asked;
mod drafts;
mod heads;
mod line;
mod lines;
mod quoting;
mod replies;
mod visits;
mod writer;

pub use access_log::{AccessLog, Target};
pub use heads::{ReplyHead, reply_head};
pub use visits::Visited;
