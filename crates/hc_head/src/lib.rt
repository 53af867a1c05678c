//! Heads of requests and responses, and the targets of requests.
#![tactic(auto)]

mod empty_line;
mod fault;
mod head;
mod hosts;
mod methods;
mod parts;
mod places;
mod plain;
mod requests;
mod responses;
mod statuses;
mod targets;
mod unfinished;
mod views;
mod weighing;
mod weights;
mod writable;
mod writing;

pub use empty_line::{Search, find_empty_line};
pub use fault::HeadFault;
pub use head::{RequestHead, ResponseHead, Room, Step, Target, Version};
pub use methods::{Method, is_get, is_get_or_head, is_head, is_unsafe};
pub use places::HeadPlaces;
pub use plain::{plain_fields_stay_plain, plain_names, plain_values, read_head_is_plain};
pub use requests::{one_request_head, read_request};
pub use responses::{one_response_head, read_response};
pub use statuses::{StatusCode, is_error_status, is_interim};
pub use targets::{
    forwarded_target_is_the_same, one_target, read_target, same_target, target,
    target_parts_are_plain, targets_compare_by_host_and_path,
};
pub use views::{RequestHeadView, ResponseHeadView};
pub use weighing::room_behind_lines;
pub use weights::{read_head_is_short, weights_add_up, written_head_length};
pub use writable::{
    LONGEST_BODY, request_text_read_back, response_text_read_back, writable_request,
    writable_response,
};
pub use writing::{write_request, write_response};
