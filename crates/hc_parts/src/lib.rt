//! Parts of a recording: its records by their targets, so that each part can be audited by itself.
#![tactic(auto)]

mod laws;

pub use laws::{
    each_item_goes_into_one_part, first_no_of_the_parts_is_no_to_the_whole,
    parts_are_judged_as_the_whole, parts_are_transcripts,
    wrong_replies_of_parts_are_those_of_the_whole, yes_to_all_parts_is_yes_to_the_whole,
};
