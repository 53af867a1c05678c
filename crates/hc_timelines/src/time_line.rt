//! The time line of a target: what came for it, and what that made of what is stored of it.

ghost use Rattle.std.specs.Prelude.{◌≡◌, List, option_map};
ghost use Rattle.hc_transcript.specs.declared.format.Format.{Format};
ghost use Rattle.hc_transcript.specs.Items.{Item};
ghost use Rattle.hc_history.specs.Seen.{IsSeenAs, live_of};
ghost use Rattle.hc_index.specs.Lists.{state_in};
ghost use Rattle.hc_timelines.specs.Standings.{standing_of};

use crate::changes::{Change, Standing, change_at, standing_of};
use crate::rows::{Row, class_of, say_change, say_finding, say_forbidden, say_mark, say_response};
use hc_audit::{JudgedReply, PassedRecord};
use hc_head::{ResponseHeadView, StatusCode, Target, is_error_status, same_target};
use hc_history::{Mark, ReplyClaim};
use hc_html::{Class, Html, Tag};
use hc_index::{Index, RecordedForward};
use hc_past::named;
use hc_shown::{RecordName, Teller};
use hc_transcript::{Kind, MeaningView};
use hc_use::what_forbids;
use std::alloc::{AllocError, Global};
use std::collections::VecDeque;

/// How many rows there are at most: the last ones.
const MOST_ROWS: usize = 60;

/// How many stored responses are followed at most: the last ones.
const MOST_LANES: usize = 16;

// A response that may be stored.
#[derive(Clone, Copy)]
struct Lane {
    position: u64,
    // How it stands after the records so far, once they are known to an index.
    standing: Option<Standing>,
}

/// What came for a target, up to the last of its replies that is explained.
pub(crate) struct TimeLine {
    alloc: Global,
    pub(crate) target: Target,
    // The lifetime that is lent to what states none, if one is.
    lent: Option<u32>,
    last: u64,
    lanes: Vec<Lane>,
    rows: VecDeque<Row>,
    // How many rows were left out.
    earlier: u64,
    // The position of the response of the last row, as long as no index is known that has noted it.
    unsettled: Option<u64>,
}

impl Drop for TimeLine {
    fn drop(self) {
        let TimeLine {
            alloc: _,
            target,
            lent: _,
            last: _,
            lanes,
            rows,
            earlier: _,
            unsettled: _,
        } = self;
        drop(target);
        drop(lanes);
        drop(rows);
    }
}

impl TimeLine {
    /// Nothing yet, of that target, up to that reply.
    pub(crate) fn new(alloc: Global, target: Target, lent: Option<u32>, last: u64) -> Self {
        TimeLine {
            alloc,
            target,
            lent,
            last,
            lanes: Vec::new(alloc),
            rows: VecDeque::new(alloc),
            earlier: 0,
            unsettled: None,
        }
    }

    /// Goes on up to that reply at least.
    pub(crate) fn extend(&mut self, last: u64) {
        self.last = self.last.max(last);
    }

    // Adds a row, after which the oldest is left out where there are too many.
    fn push(&mut self, row: Row) -> Result<(), AllocError> {
        if MOST_ROWS <= self.rows.len() {
            drop(self.rows.pop_front());
            self.earlier = self.earlier.saturating_add(1);
        }
        self.rows.push_back(row)?;
        Ok(())
    }

    // Says in the last row what its response made of what is stored, by an index that has noted it.
    fn settle<I: Index>(&mut self, index: &I) {
        let Some(position) = self.unsettled.take() else {
            return;
        };
        if let Some(row) = self.rows.back_mut() {
            let lanes = self.lanes.as_mut_slice();
            settle(index, &self.target, self.lent, position, lanes, row);
        }
    }

    /// Takes in the next record, which is no reply.
    pub(crate) fn pass<I: Index>(
        &mut self,
        passed: &PassedRecord<'_, I>,
    ) -> Result<(), AllocError> {
        self.settle(passed.index);
        if self.last < passed.position {
            return Ok(());
        }
        let item = passed.item;
        match &item.of {
            MeaningView::OriginResponse(response) => self.take_end(
                passed,
                Kind::OriginResponse,
                Some(&response.head),
            ),
            MeaningView::OriginFailure => self.take_end(passed, Kind::OriginFailure, None),
            _ => Ok(()),
        }
    }

    // Takes in the end of a forward for the target: that response, or a failure.
    fn take_end<I: Index>(
        &mut self,
        passed: &PassedRecord<'_, I>,
        kind: Kind,
        response: Option<&ResponseHeadView<'_>>,
    ) -> Result<(), AllocError> {
        let item = passed.item;
        let Some(forward) = passed.index.forward(item.number()) else {
            return Ok(());
        };
        if !same_target(&forward.target, &self.target) {
            return Ok(());
        }
        let named = RecordName {
            position: passed.position,
            kind,
            number: item.number(),
            moment: item.moment(),
        };
        let mut row = Row::new(self.alloc, named, Class::Failure);
        match response {
            Some(response) => self.take_response(forward, response, &mut row)?,
            None => row.words.words("no answer"),
        }
        self.push(row)
    }

    // Says what a response is, and follows it if it may be stored.
    fn take_response(
        &mut self,
        forward: &RecordedForward,
        response: &ResponseHeadView<'_>,
        row: &mut Row,
    ) -> Result<(), AllocError> {
        say_response(forward, response, &mut row.words);
        if !is_error_status(response.status) {
            row.class = Class::Response;
        }
        self.unsettled = Some(row.named.position);
        let forbids = what_forbids(&forward.request, response);
        if forbids.is_nothing() {
            return self.follow(row.named.position);
        }
        if response.status != StatusCode::NOT_MODIFIED {
            say_forbidden(&forbids, &mut row.words);
        }
        Ok(())
    }

    // Follows a response that may be stored.
    fn follow(&mut self, position: u64) -> Result<(), AllocError> {
        if MOST_LANES <= self.lanes.len() {
            let _oldest = self.lanes.remove(0);
        }
        self.lanes.push(Lane {
            position,
            standing: None,
        })?;
        Ok(())
    }

    /// Takes in the next reply.
    pub(crate) fn see<I: Index>(&mut self, judged: &JudgedReply<'_, I>) -> Result<(), AllocError> {
        self.settle(judged.index);
        if self.last < judged.position {
            return Ok(());
        }
        match judged.claim() {
            Some(claim) if same_target(claim.target, &self.target) => self.take_reply(
                judged, &claim,
            ),
            _ => Ok(()),
        }
    }

    fn take_reply<I: Index>(
        &mut self,
        judged: &JudgedReply<'_, I>,
        claim: &ReplyClaim<'_>,
    ) -> Result<(), AllocError> {
        let from = source_of(judged, claim)?;
        let class = class_of(judged.finding, judged.mark);
        if self.joins(class, from, judged.position) {
            return Ok(());
        }
        let named = RecordName {
            position: judged.position,
            kind: Kind::ClientReply,
            number: judged.exchange,
            moment: judged.moment,
        };
        let mut row = Row::new(self.alloc, named, class);
        row.from = from;
        row.words
            .said_octets("", claim.request.method.as_slice(), "");
        row.words
            .count(" -> ", u64::from(claim.status().as_u16()), "");
        say_mark(judged.mark, &mut row.words);
        say_finding(judged.finding, from, &mut row.words);
        self.push(row)
    }

    // Whether a reply is a right hit from the same response as the one in the last row, which stands for it then, too.
    fn joins(&mut self, class: Class, from: Option<u64>, position: u64) -> bool {
        let Some(row) = self.rows.back_mut() else {
            return false;
        };
        match (class, row.class) {
            (Class::Hit, Class::Hit) if row.from == from => {
                row.more = row.more.saturating_add(1);
                row.last = position;
                true
            }
            _ => false,
        }
    }

    /// Writes it.
    pub(crate) fn write(&self, html: &mut Html) {
        html.begin(Tag::Ol, Class::Log);
        if self.earlier != 0 {
            html.begin(Tag::Li, Class::Note);
            html.count(self.earlier, " earlier rows are left out");
            html.end(Tag::Li);
        }
        for row in self.rows.iter() {
            row.write(self.alloc, html);
        }
        html.end(Tag::Ol);
    }
}

// How the response of that target at that position stands.
fn standing_at<I: Index>(
    index: &I,
    target: &Target,
    position: u64,
    lent: Option<u32>,
) -> Option<Standing>
    ensures { (format : Format) (h : List Item) → IsSeenAs format (I.seen index.now) h
        → result ≡ option_map (standing_of lent) (state_in position (live_of target.now h)) }
{
    Some(standing_of(lent, index.response(target, position)?))
}

// Says in the row of the response at that position what it made of what is stored, by an index that has noted it.
fn settle<I: Index>(
    index: &I,
    target: &Target,
    lent: Option<u32>,
    position: u64,
    lanes: &mut [Lane],
    row: &mut Row,
) {
    for lane in lanes {
        let now = standing_at(index, target, lane.position, lent);
        if let Some(change) = change_at(position, lane.standing, now) {
            row.class = class_by(change, row.class);
            say_change(change, lane.position, &mut row.words);
        }
        lane.standing = now;
    }
}

// How a response is drawn that does so.
fn class_by(change: Change, class: Class) -> Class {
    match change {
        Change::Stored(_) => class,
        Change::Validated(_) => Class::Validation,
        Change::Invalidated => Class::Invalidation,
    }
}

// The stored response that is named of a hit.
fn source_of<I: Index>(
    judged: &JudgedReply<'_, I>,
    claim: &ReplyClaim<'_>,
) -> Result<Option<u64>, AllocError> {
    let Mark::Hit { .. } = judged.mark else {
        return Ok(None);
    };
    let candidates = judged.candidates()?;
    match named(judged.index, claim, candidates.as_slice(), 0) {
        Some(candidate) => Ok(Some(candidate.position)),
        None => Ok(None),
    }
}
