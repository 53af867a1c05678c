//! `hc_rule_cases`: what octets are read as, heads and whole messages, and what is written of them; what fields say, and
//! what the rules of a shared cache make of them.
//!
//! It answers the cases of its list, each by one line.
#![tactic(auto)]

mod blocks;
mod messages_describing;
mod messages_heads;
mod messages_lent;
mod messages_links;
mod messages_parts;
mod messages_pieces;
mod messages_shared;
mod messages_targets;
mod messages_whole;
mod messages_writing;
mod rules_describing;
mod rules_fields;
mod rules_fresh;
mod rules_lists;
mod rules_marks;
mod rules_parts;
mod rules_states;
mod rules_storing;
mod rules_updates;
mod starts;

use crate::messages_whole::Asked;
use hc_cases::{Ask, Case, Unanswered};
use hc_head::{RequestHead, ResponseHead};
use std::process::ExitCode;

/// The answers of this program.
struct RuleCases;

impl Ask for RuleCases {
    fn answer(&self, case: &Case<'_>, out: &mut String) -> Result<(), Unanswered> {
        match case.question {
            "request-head" => messages_heads::read::<RequestHead>(case, out),
            "response-head" => messages_heads::read::<ResponseHead>(case, out),
            "target" => messages_targets::target(case, out),
            "unsafe" => messages_targets::is_unsafe(case, out),
            "message" => messages_whole::answer(Asked::Cuts, case, out),
            "write-message" => messages_whole::answer(Asked::Text, case, out),
            "octet-by-octet" => messages_pieces::octet_by_octet(case, out),
            "slices" | "lent" => messages_lent::answer(case, out),
            "writable-request" => messages_writing::writable_request(case, out),
            "writable-response" => messages_writing::writable_response(case, out),
            _ => answer_of_links(case, out),
        }
    }
}

// Answers a question of what comes on connections, of fields, or of rules.
fn answer_of_links(case: &Case<'_>, out: &mut String) -> Result<(), Unanswered> {
    match case.question {
        "arrivals" => messages_links::arrivals(case, out),
        "waiting" => messages_links::waiting(case, out),
        "heard" => messages_links::heard(case, out),
        "list" | "number" | "token" | "directive" => rules_lists::answer(case, out),
        "structured" | "mark" => rules_marks::answer(case, out),
        "date" | "dated" | "lifetime" | "age-value" | "age" | "fresh" => {
            rules_fresh::answer(case, out)
        }
        "storable" | "selects" | "validator" | "condition" => rules_storing::answer(case, out),
        "values" | "joined" | "only" | "without" | "left-out" | "updated" => {
            rules_fields::answer(case, out)
        }
        _ => rules_updates::answer(case, out),
    }
}

fn main(rt: HostRuntime) -> ExitCode {
    let status = hc_cases::status(&rt, &RuleCases, &mut rt.stdout(), &mut rt.stderr());
    ExitCode::from(status)
}
