//! What a terminal may be shown of octets that others have written: printable ASCII alone, never more than some, and
//! no secrets; and the records of a transcript so.
#![tactic(auto)]

mod hidden;
mod moment;
mod octets;
mod page;
mod record;
mod showing;
mod span;
mod teller;
mod values;

pub use moment::push_moment;
pub use octets::{SHOWN, push_octets};
pub use page::Page;
pub use showing::{EarlyEnding, Showing, ShowingStage};
pub use span::Span;
pub use teller::{FieldOf, RecordName, Teller};
pub use values::{push_target, push_value};
