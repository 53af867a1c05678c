//! A cache behind sockets: clients connect to it, one after another or many at once, it connects to an origin, and both
//! sides are recorded to a file.
#![tactic(auto)]

mod checks;
mod claim;
mod counting;
mod fault;
mod herald;
mod logging;
mod proxying;
mod recordable;
mod recorded;
mod recording;
mod served;
mod serving;
mod watched;
mod wrongs;

pub use claim::Claim;
pub use counting::Bounds;
pub use fault::ServeFault;
pub use hc_access::{AccessLog, Target};
pub use hc_monitor::Board;
pub use hc_sockets::Health;
pub use logging::{Addressed, LogFile, LogTo};
pub use proxying::{Proxy, System, serve_proxy};
pub use recordable::Unrecordable;
pub use recorded::{RecordEnd, Recorded};
pub use recording::{FileRecorder, RecordTo};
pub use served::Served;
pub use serving::{Service, serve};
pub use watched::{Opening, serve_links};
