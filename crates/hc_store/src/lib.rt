//! The bounded store of a cache: targets with their variants, which variant a request is answered from,
//! and what is dropped where there are too many or they are too heavy.
#![tactic(auto)]

mod adding;
mod choosing;
mod cookies;
mod freshening;
mod keys;
mod laws;
mod putting;
mod store;
mod trimming;
mod variants;
mod weights;

pub use adding::MOST_VARIANTS;
pub use freshening::NotModified;
pub use laws::{
    no_cookie_is_chosen, the_chosen_is_the_latest, trimming_keeps_what_fits, what_is_put_is_there,
    what_would_set_a_cookie_goes,
};
pub use putting::Put;
pub use store::{Choice, Store};
pub use variants::Variants;
