//! What a report counts and lists, as members of a JSON object.

ghost use Rattle.std.specs.Prelude.{◌≡◌, IfOk, map};
ghost use Rattle.serde_json.specs.Data.{Members, array as array_data};
ghost use Rattle.serde_json.specs.View.{items_of, view};
ghost use Rattle.hc_figures.specs.Entries.{object_with, with_all};
ghost use Rattle.hc_figures.specs.Objects.{Has};
ghost use Rattle.hc_figures.specs.Figures.{figure_entries};
ghost use Rattle.hc_figures.specs.Json.{break_entries, end_entries, listed_data, octet_entries, reply_entries, verdict_entries, warning_data, wrong_entries, wrongs_entries};

use crate::counts::ReplyCounts;
use crate::listed::{ListedReplies, ListedReply};
use crate::members::{Array, Object};
use hc_history::{Counts, Ending, WrongReply};
use hc_transcript::RecordFault;
use serde_json::Value;
use std::alloc::{AllocError, Global};

/// What is said where no reply has a mark.
pub const NO_MARK: &str =
    "no reply was held against a response, since none says by Cache-Status whether it is a \
hit or was forwarded";

/// Adds what is counted of the replies of a recording that ends so, which of them are wrong, and what the verdict is; so
/// much was counted of its records, if they were counted.
pub fn put_figures(
    alloc: Global,
    replies: &ReplyCounts,
    wrongs: &ListedReplies,
    ending: Ending,
    counts: Option<Counts>,
    report: &mut Object,
)
    ensures { (all : Members) → Has report.old all → Has report.new (with_all (figure_entries replies.now wrongs.now ending counts) all) }
{
    report.put("verdict", verdict_json(alloc, wrongs.first, ending));
    report.put("ends", ends_json(alloc, ending));
    report.some("records", counts.map(|counts| counts.records));
    report.put("replies", replies_json(alloc, replies));
    report.put("octets", octets_json(alloc, replies));
    report.number("judged", replies.judged());
    report.put("warning", warning_json(alloc, replies));
    report.put("wrong", wrongs_json(alloc, wrongs));
}

// The verdict, where that is the first wrong reply of a recording that ends so.
fn verdict_json(
    alloc: Global,
    first: Option<WrongReply>,
    ending: Ending,
) -> Result<Value, AllocError>
    ensures { IfOk result (λ v. view v ≡ object_with (verdict_entries first ending)) }
{
    let mut verdict = Object::new(alloc);
    put_verdict(first, ending, &mut verdict);
    verdict.into_value()
}

fn put_verdict(first: Option<WrongReply>, ending: Ending, object: &mut Object)
    ensures { (all : Members) → Has object.old all → Has object.new (with_all (verdict_entries first ending) all) }
{
    if let Some(wrong) = first {
        object.text("answer", "no");
        put_wrong(wrong, object);
        return;
    }
    match ending {
        Ending::Broken(position, fault) => {
            object.text("answer", "malformed");
            put_break(position, fault, object);
        }
        Ending::Whole => object.text("answer", "yes"),
    }
}

fn ends_json(alloc: Global, ending: Ending) -> Result<Value, AllocError>
    ensures { IfOk result (λ v. view v ≡ object_with (end_entries ending)) }
{
    let mut end = Object::new(alloc);
    put_end(ending, &mut end);
    end.into_value()
}

fn put_end(ending: Ending, object: &mut Object)
    ensures { (all : Members) → Has object.old all → Has object.new (with_all (end_entries ending) all) }
{
    match ending {
        Ending::Whole => object.flag("whole", true),
        Ending::Broken(position, fault) => {
            object.flag("whole", false);
            put_break(position, fault, object);
        }
    }
}

fn put_break(position: u64, fault: RecordFault, object: &mut Object)
    ensures { (all : Members) → Has object.old all → Has object.new (with_all (break_entries position fault) all) }
{
    object.number("position", position);
    object.number("fault", u64::from(fault.number()));
    object.text("name", fault.name());
}

fn put_wrong(wrong: WrongReply, object: &mut Object)
    ensures { (all : Members) → Has object.old all → Has object.new (with_all (wrong_entries wrong) all) }
{
    object.number("position", wrong.position);
    object.number("reason", u64::from(wrong.reason.number()));
    object.text("name", wrong.reason.name());
}

fn replies_json(alloc: Global, replies: &ReplyCounts) -> Result<Value, AllocError>
    ensures { IfOk result (λ v. view v ≡ object_with (reply_entries replies.now)) }
{
    let mut counts = Object::new(alloc);
    counts.number("all", replies.all());
    counts.number("hits", replies.hits);
    counts.number("forwarded", replies.forwarded);
    counts.number("collapsed", replies.collapsed);
    counts.number("unmarked", replies.unmarked);
    counts.number("both", replies.both);
    counts.into_value()
}

fn octets_json(alloc: Global, replies: &ReplyCounts) -> Result<Value, AllocError>
    ensures { IfOk result (λ v. view v ≡ object_with (octet_entries replies.now)) }
{
    let mut octets = Object::new(alloc);
    octets.number("hits", replies.hit_octets);
    octets.number("forwarded", replies.forwarded_octets);
    octets.into_value()
}

fn warning_json(alloc: Global, replies: &ReplyCounts) -> Result<Value, AllocError>
    ensures { IfOk result (λ v. view v ≡ warning_data replies.now) }
{
    if replies.has_no_mark() {
        Value::try_from_str(alloc, NO_MARK)
    } else {
        Ok(Value::Null)
    }
}

fn wrongs_json(alloc: Global, replies: &ListedReplies) -> Result<Value, AllocError>
    ensures { IfOk result (λ v. view v ≡ object_with (wrongs_entries replies.now)) }
{
    let mut wrongs = Object::new(alloc);
    wrongs.number("count", replies.count);
    wrongs.put("listed", listed_json(alloc, replies.listed.as_slice()));
    wrongs.number("unlisted", replies.unlisted());
    wrongs.into_value()
}

fn listed_json(alloc: Global, wrongs: &[ListedReply]) -> Result<Value, AllocError>
    ensures { IfOk result (λ v. view v ≡ array_data (items_of (map listed_data wrongs.now))) }
{
    let mut listed = Array::new(alloc);
    for wrong in wrongs {
        listed.push(reply_json(alloc, wrong));
    }
    listed.into_value()
}

// A wrong reply, and the method and the target of its request.
fn reply_json(alloc: Global, reply: &ListedReply) -> Result<Value, AllocError>
    ensures { IfOk result (λ v. view v ≡ listed_data reply.now) }
{
    let mut listed = Object::new(alloc);
    put_wrong(reply.wrong, &mut listed);
    listed.text("method", reply.request.method.as_str());
    listed.text("target", reply.request.target.as_str());
    listed.into_value()
}
