//! What happens to a shared cache, and what it owes: which case a request is, what is done with what the origin
//! answers, and what each event makes of what the cache knows.
#![tactic(auto)]

mod action;
mod asking;
mod cases;
mod event;
mod fault;
mod incidents;
mod joining;
mod laws;
mod numbers;
mod open;
mod replying;
mod serving;
mod settings;
mod settings_fault;
mod stock;

pub use action::Action;
pub use asking::{ends_connection, is_bypass};
pub use cases::{Case, Cause, case_before_store, case_by_store};
pub use event::{Event, Happening};
pub use fault::StepFault;
pub use incidents::Incident;
pub use joining::{is_joinable, may_be_joined, may_be_shared, plain_kind};
pub use laws::{
    agreement_is_ready, events_keep_agreement, few_wait_for_each_forward, hits_are_right,
    new_cache_agrees, no_cookie_comes_from_the_store, nobody_is_left_waiting,
    open_exchanges_are_those_of_the_connections, other_replies_are_right,
    received_messages_can_be_recorded, records_given_out_are_counted, records_keep_to_the_format,
    replies_close_behind_a_stop, right_runs_join, runs_are_judged_right, runs_begin_with_agreement,
    runs_go_on, runs_keep_agreement, runs_of_turns_keep_agreement, steps_are_runs, steps_end_ready,
    steps_go_on, stored_responses_are_those_of_the_records, turns_keep_agreement,
    unread_octets_are_those_that_came, what_forbids_serving_is_obeyed,
    what_is_open_follows_the_actions, what_is_open_is_that_of_the_records,
    what_is_stored_can_be_a_reply,
};
pub use numbers::Numbers;
pub use open::{ForwardKind, OpenExchange, OpenForward, Purpose};
pub use replying::{
    WantedReply, collapsed_reply, failure_status, hit_reply, made_reply, passed_reply,
    replacing_reply,
};
pub use serving::{
    age_at, has_still, is_fresh, may_be_served, may_replace, ttl_at, while_revalidating,
};
pub use settings::{CoreOptions, CoreSettings, is_name, is_room, is_size};
pub use settings_fault::CoreFault;
pub use stock::Stock;
