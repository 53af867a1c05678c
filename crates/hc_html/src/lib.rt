//! A document in HTML that is written piece by piece: elements, places in it, and texts, in which nothing is markup.
#![tactic(auto)]

mod front;
mod html;
mod laws;
mod tags;

pub use html::Html;
pub use laws::escaped_text_is_no_markup;
pub use tags::{Class, Tag};
