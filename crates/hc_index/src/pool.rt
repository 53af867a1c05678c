//! What the windows of a target hold.

ghost use Rattle.std.specs.Prelude.{◌≡◌, ◌≤◌, ◌+◌, ◌^◌, ℕ, true, length, drop};
ghost use Rattle.std.specs.BTreeSet.{contains};
ghost use Rattle.hc_index.specs.Openings.{by_opening};

use crate::kept::{RecordedForward, WindowAnswer};
use crate::windows::window_answer;
use hc_framing::Message;
use hc_head::ResponseHead;
use hc_transcript::ToldCause;
use std::alloc::{AllocError, Global};
use std::collections::{BTreeSet, VecDeque};

/// How many answers are given up, at most, while a window is open, so that they can be counted.
const MOST_DROPPED: usize = 1 << 62;

/// The answers of the origin for one target, and the windows that are open: a window holds the answers behind
/// those that were there before it. An answer that no window holds any more is given up.
#[derive(Drop)]
pub(crate) struct Pool {
    /// How many answers were given up.
    pub(crate) dropped: usize,
    /// The answers behind them, the oldest first.
    pub(crate) answers: VecDeque<WindowAnswer>,
    /// How many answers there were before a window, and the number of its exchange.
    windows: BTreeSet<(usize, u64)>,
    ghost few: { dropped ≤ 2 ^ 62 },
    ghost in_order: { (behind number : ℕ) → contains by_opening windows (behind, number) ≡ true → behind ≤ dropped + length answers.items },
}

/// Gives up so many of the oldest answers.
fn drop_oldest(answers: &mut VecDeque<WindowAnswer>, count: usize)
    ensures { answers.new.items ≡ drop count answers.old.items }
{
    for _ in 0..count {
        answers.pop_front();
    }
}

impl Pool {
    ghost use Rattle.std.specs.Prelude.{◌||◌, false, not, IfOk, OnOk};
    ghost use Rattle.hc_index.specs.Lists.{forward_seen};
    ghost use Rattle.hc_index.specs.Windows.{answer_to};
    ghost use Rattle.hc_index.specs.Maps.{AddsAnswer, ClosesWindow, OpensWindow, answers_behind, is_open};

    /// A pool without windows.
    pub(crate) fn new(alloc: Global) -> Self
        ensures { (behind number : ℕ) → is_open behind number result ≡ false }
    {
        Pool {
            dropped: 0,
            answers: VecDeque::new(alloc),
            windows: BTreeSet::new(alloc),
        }
    }

    /// Whether no window is open.
    pub(crate) fn is_unused(&self) -> bool
        ensures { result ≡ true → (behind number : ℕ) → is_open behind number self.now ≡ false }
    {
        self.windows.is_empty()
    }

    /// Whether the window of the exchange of that number may be open behind so many answers. Where it needn't
    /// be sure of that, it doesn't look.
    pub(crate) fn may_be_open(&self, behind: usize, number: u64, surely: bool) -> bool
        ensures { result ≡ (not surely || is_open behind number self.now) }
    {
        !surely || self.windows.contains(&(behind, number))
    }

    /// Opens the window of the exchange of that number, and says how many answers there were before it.
    pub(crate) fn open(&mut self, number: u64) -> Result<usize, AllocError>
        ensures { IfOk result (λ behind. OpensWindow number self.old behind self.new) }
    {
        let behind = self.dropped + self.answers.len();
        self.windows.insert((behind, number))?;
        Ok(behind)
    }

    /// Closes the window of the exchange of that number, and gives up what no other window holds.
    pub(crate) fn close(&mut self, behind: usize, number: u64)
        ensures { ClosesWindow number self.old self.new }
    {
        self.windows.remove(&(behind, number));
        self.give_up();
    }

    /// How many answers there were before the oldest window; all of them where there is none.
    fn oldest(&self) -> usize
        ensures oldest { (b n : ℕ) → is_open b n self.now ≡ true → result ≤ b }
        ensures few { result ≤ self.now.dropped + length self.now.answers.items }
    {
        match self.windows.first() {
            Some((behind, _)) => *behind,
            None => self.dropped + self.answers.len(),
        }
    }

    /// Gives up the answers that no window holds.
    fn give_up(&mut self)
        ensures windows { (b n : ℕ) → is_open b n self.new ≡ is_open b n self.old }
        ensures answers { (b n : ℕ) → is_open b n self.old ≡ true → answers_behind b self.new ≡ answers_behind b self.old }
    {
        let count = self.oldest().saturating_sub(self.dropped);
        if MOST_DROPPED - self.dropped < count {
            return;
        }
        drop_oldest(&mut self.answers, count);
        self.dropped += count;
    }

    /// Adds the response to a forward of the target and of that cause, if a window is open.
    pub(crate) fn add(
        &mut self,
        forward: &RecordedForward,
        cause: ToldCause,
        response: &Message<ResponseHead>,
    ) -> Result<(), AllocError>
        ensures { OnOk result (AddsAnswer (answer_to (forward_seen forward.now) cause response.now) self.old self.new) }
    {
        if self.windows.is_empty() {
            return Ok(());
        }
        let answer = window_answer(forward, cause, response)?;
        self.answers.push_back(answer)?;
        Ok(())
    }
}
