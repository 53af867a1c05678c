//! The report as a witness.

ghost use Rattle.std.specs.Prelude.{◌≡◌, ◌++◌, List, [], ◌∷◌, IfOk, OnOk, slice_get, string_bytes};
ghost use Rattle.hc_transcript.specs.Items.{Item};
ghost use Rattle.hc_transcript.specs.History.{exchange_of};
ghost use Rattle.hc_history.specs.Seen.{IsSeenAs};
ghost use Rattle.hc_history.specs.declared.wrong.WrongReply.{WrongReply};
ghost use Rattle.hc_audit.specs.Hearing.{IsReplyBehind, item_judged};
ghost use Rattle.hc_shown.specs.Octets.{octets_text};
ghost use Rattle.hc_shown.specs.Values.{target_text};
ghost use Rattle.hc_report.specs.Json.{WritesReport};
ghost use Rattle.hc_report.specs.Kinds.{AreShownIn, IsShownOf};
ghost use Rattle.hc_report.specs.Told.{TellsOf};

use crate::found::Found;
use crate::json::put_all;
use crate::made::shown;
use crate::text::say_report;
use hc_audit::{JudgedReply, PassedRecord, Witness};
use hc_figures::{ListedReplies, Object, ReplyCounts, ShownRequest};
use hc_history::{Counts, Ending, Finding, Reason, ReplyClaim, Settings, WrongReply};
use hc_index::Index;
use hc_past::Past;
use hc_shown::{Page, push_target};
use std::alloc::{AllocError, Global};

/// What is said of a recording: what its replies say of themselves, which of them are wrong and by what, and what
/// could be let pass so that fewer are.
pub struct Report {
    pub(crate) alloc: Global,
    past: Past,
    pub(crate) replies: ReplyCounts,
    pub(crate) wrongs: ListedReplies,
    pub(crate) found: Found,
}

impl Drop for Report {
    fn drop(self) {
        let Report {
            alloc: _,
            past,
            replies: _,
            wrongs,
            found,
        } = self;
        drop(past);
        drop(wrongs);
        drop(found);
    }
}

impl<I: Index> Witness<I> for Report {
    ghost tells = { λ report wrongs. TellsOf report wrongs };

    // Of the records it keeps what is shown of the requests of those that it lists.
    ghost hears = { λ report h. AreShownIn h report.wrongs.listed.items };

    fn pass(&mut self, passed: &PassedRecord<'_, I>) -> Result<(), AllocError> {
        self.past.pass(passed)
    }

    fn see(&mut self, judged: &JudgedReply<'_, I>) -> Result<(), AllocError> {
        let reply = judged.reply.reply();
        let octets = reply.body.len() as u64;
        let is_right = judged.finding == Finding::Right;
        self.replies.count(judged.mark, octets, is_right);
        match judged.finding {
            Finding::Right => Ok(()),
            Finding::Wrong(reason) => self.take_wrong(judged, reason),
        }
    }
}

impl Report {
    /// The report on an audit by those settings that has read nothing yet.
    pub fn new(alloc: Global, settings: Settings) -> Result<Self, AllocError>
        ensures tells { IfOk result (λ report. TellsOf report []) }
        ensures hears { IfOk result (λ report. AreShownIn [] report.wrongs.listed.items) }
    {
        Ok(Report {
            alloc,
            past: Past::new(alloc, None)?,
            replies: ReplyCounts::new(),
            wrongs: ListedReplies::new(alloc),
            found: Found::new(alloc, settings)?,
        })
    }

    // Takes in a wrong reply.
    fn take_wrong<I: Index>(
        &mut self,
        judged: &JudgedReply<'_, I>,
        reason: Reason,
    ) -> Result<(), AllocError>
        ensures told { (wrongs : List WrongReply) → TellsOf self.old wrongs
            → OnOk result (TellsOf self.new (wrongs ++ record { position = judged.now.position; reason = reason } ∷ [])) }
        ensures shown { (h : List Item) → AreShownIn h self.old.wrongs.listed.items → IsReplyBehind I.seen h judged.now
            → OnOk result (AreShownIn (item_judged judged.now ∷ h) self.new.wrongs.listed.items) }
    {
        let position = judged.position;
        let wrong = WrongReply { position, reason };
        let request = shown_request(self.alloc, judged)?;
        self.wrongs.note(wrong, &request)?;
        self.found.take(judged, reason, request.target, &self.past)
    }

    /// The first wrong reply.
    pub fn first_wrong(&self) -> Option<WrongReply>
        ensures { (wrongs : List WrongReply) → TellsOf self.now wrongs → result ≡ slice_get wrongs 0 }
    {
        self.wrongs.first
    }

    /// Writes what stands behind the verdict, for a recording that ends so, and of which so much was counted.
    pub fn say(
        &self,
        ending: Ending,
        counts: Option<Counts>,
        out: &mut String,
    ) -> Result<(), AllocError> {
        let helpful = self.found.tries.helpful(self.wrongs.count)?;
        let mut page = Page::new(self.alloc);
        say_report(self, helpful.as_slice(), ending, counts, &mut page);
        page.onto(out)
    }

    /// The whole report as a JSON object, on one line.
    pub fn json(&self, ending: Ending, counts: Option<Counts>) -> Result<String, AllocError>
        ensures { IfOk result (λ text. WritesReport (string_bytes text) self.now.wrongs self.now.replies ending counts) }
    {
        let mut object = Object::new(self.alloc);
        put_all(self, ending, counts, &mut object);
        object.into_text()
    }
}

/// What is shown of the request that a reply answers.
pub(crate) fn shown_request<I: Index>(
    alloc: Global,
    judged: &JudgedReply<'_, I>,
) -> Result<ShownRequest, AllocError>
    ensures { (h : List Item) → IsSeenAs judged.now.format (I.seen judged.now.index.now) h
        → IfOk result (IsShownOf (exchange_of judged.now.exchange h)) }
{
    match judged.claim() {
        Some(claim) => shown_of(alloc, &claim),
        None => Ok(ShownRequest {
            method: String::new(alloc),
            target: String::new(alloc),
        }),
    }
}

// The request of what a reply claims.
fn shown_of(alloc: Global, claim: &ReplyClaim<'_>) -> Result<ShownRequest, AllocError>
    ensures method { IfOk result (λ shown. string_bytes shown.method ≡ octets_text claim.now.request.method) }
    ensures target { IfOk result (λ shown. string_bytes shown.target ≡ target_text claim.now.target) }
{
    let method = shown(alloc, claim.request.method.as_slice())?;
    let mut target = String::new(alloc);
    push_target(claim.target, &mut target)?;
    Ok(ShownRequest { method, target })
}
