//! What a shared cache may store, which requests a stored response answers, what validates it, and
//! what is sent to the origin (RFC 9111 sections 3 and 4).
#![tactic(auto)]

mod conditions;
mod forward_laws;
mod forwards;
mod laws;
mod passing;
mod selecting;
mod storing;
mod tags;
mod validators;

pub use conditions::{REPEATED_NAMES, client_condition};
pub use forward_laws::{forwards_are_writable, forwards_frame_no_body, forwards_keep_the_target};
pub use forwards::{conditional_request, plain_request, unconditional_request};
pub use laws::{
    asterisk_selects_nobody, authorized_needs_permission, field_of_one_request_selects_nobody,
    listed_tag_still_holds, no_store_is_never_stored, no_store_of_a_request_holds,
    not_modified_is_never_stored, only_get_is_stored, partial_is_never_stored,
    plain_response_is_stored, private_is_never_stored, same_lines_are_selected,
};
pub use passing::{
    kept_lines, no_framing_stays, no_name_stays, passed_request_is_writable,
    passed_response_is_writable, plain_head_is_writable, received_heads,
};
pub use selecting::{is_met, selects};
pub use storing::{
    asks_for_storable, invites_storing, is_heuristically_cacheable, is_storable, is_understood,
    may_store, permits_authorized,
};
pub use tags::{last_modified, tag, validator};
pub use validators::Validator;
