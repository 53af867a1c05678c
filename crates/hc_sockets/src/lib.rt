//! The system as drivers see it: sockets, of which none is waited for alone or each is, files, clocks, and signals.
#![tactic(auto)]

mod addresses;
mod attempts;
mod channel;
mod clock;
mod health;
mod listeners;
mod listening;
mod open_files;
mod origin;
mod process;
mod signals;
mod sockets;
mod stale;
mod system_link;
mod tokens;
mod watchers;
mod wire;

pub use clock::SystemClock;
pub use health::{Breakdown, Health};
pub use listening::Listening;
pub use open_files::most_open_files;
pub use origin::Origin;
pub use sockets::{Ends, Sockets, SocketsFault};
pub use system_link::{Device, Recording, Socket, SystemLink};
pub use wire::Wire;
