//! Transcripts: recordings of what a cache received and sent.
#![tactic(auto)]

mod converting;
mod fault;
mod first_line;
mod format;
mod framed;
mod item;
mod laws;
mod limits;
mod line;
mod numerals;
mod open_numbers;
mod places;
mod reader;
mod record;
mod view;
mod writing;

pub use converting::{ConvertFault, convert};
pub use fault::RecordFault;
pub use format::Format;
pub use item::{Meaning, OwnedItem};
pub use laws::{
    breaks_once, broken_for_ever, converted_is_a_transcript, first_format_is_converted_to_itself,
    one_item, one_transcript, record_text_goes_on, unfinished_once, written_record_read_back,
};
pub use limits::{GREATEST_MOMENT, GREATEST_NUMBER, LONGEST_MESSAGE};
pub use line::{Kind, Line, ToldCause};
pub use numerals::numeral;
pub use reader::RecordReader;
pub use record::{Passed, Record};
pub use view::{MeaningView, RecordView};
pub use writing::{append_record, record_parts, write_record};
