//! What the history of a transcript means: the state of a stored response, the filters that a reused
//! one passes, right and wrong replies, the verdict, and what has to be known of a history to judge.
#![tactic(auto)]

mod allowed;
mod allowing;
mod among;
mod candidates;
mod claim;
mod compared;
mod filters;
mod finding;
mod forwarded;
mod kept;
mod laws;
mod marks;
mod ranges;
mod reasons;
mod right;
mod settings;
mod usable;
mod verdicts;
mod wrong;

pub use allowed::Allowed;
pub use allowing::{allowed_staleness, is_allowed_fresh, is_met_or_normalized, use_is_allowed};
pub use among::{Among, is_looked_at};
pub use candidates::Candidate;
pub use claim::{ReplyClaim, ttl_of};
pub use compared::{differs, is_of_content};
pub use filters::passed;
pub use finding::{
    found_of_collapsed, found_of_forwarded, found_of_hit, found_of_inferred, found_of_unmarked,
    reason_behind,
};
pub use forwarded::{carries, may_be_for};
pub use hc_status::Mark;
pub use kept::Kept;
pub use laws::{
    first_candidate_is_the_furthest, forgetting_and_noting_commute, forgotten_changes_no_reason,
    later_update_clears_the_mark, least_reason_by_the_furthest, memory_breaks_nothing,
    more_allowed_keeps_right, nothing_allowed_is_strict, noting_goes_on, one_list_of_candidates,
    one_list_of_wrong_replies, one_verdict, seen_is_enough, standing_verdict_stays,
    window_is_what_is_later_than_the_request, wrong_by_one_reason,
    wrong_replies_begin_with_the_verdict, wrong_replies_of_a_front_come_first,
};
pub use marks::{MarkedReply, reply_mark};
pub use reasons::Reason;
pub use right::{allows_unmarked, is_judged_collapsed};
pub use settings::{FieldNames, Settings, UnmarkedReplies};
pub use usable::{
    age_of, is_fresh_within, lifetime_of, meanwhile_permits, request_permits, said_on_error,
    validated_since,
};
pub use verdicts::{Counts, Finding, Verdict};
pub use wrong::{Ending, WrongReply};
