//! A world in memory for many clients at once: what it is to do, and what becomes of it. Clients connect and say octets,
//! an origin answers, clocks are set, and a stop is asked; such a schedule is written down, or comes by chance from a
//! seed. For tests: a crowd is served over the world, and behind that it tells what passed at each link.
#![tactic(auto)]

mod cues;
mod deeds;
mod dice;
mod made;
mod noted;
mod notes;
mod origin;
mod peer;
mod play;
mod reading;
mod schedules;
mod script;
mod sheet;
mod standing;
mod strand;
mod tally;
mod visits;
mod within;
mod words;

pub use made::Made;
pub use noted::Noted;
pub use notes::Notes;
pub use peer::Peer;
pub use play::{Play, is_client, key_of};
pub use reading::script_in;
pub use schedules::script_of;
pub use script::Script;
pub use sheet::Sheet;
pub use standing::Standing;
pub use strand::Strand;
pub use tally::Tally;
pub use within::has_within;
