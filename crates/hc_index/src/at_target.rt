//! What is kept of one target.

ghost use Rattle.std.specs.Prelude.{◌≡◌, ◌<◌, ◌≤◌, ℕ, true, Some, None, Decides, IfOk, OnOk, if◌then◌else◌};
ghost use Rattle.hc_fields.specs.Numbers.{end_of_moments};
ghost use Rattle.hc_head.specs.declared.head.Target.{Target};
ghost use Rattle.hc_head.specs.Statuses.{is_error_status};
ghost use Rattle.hc_index.specs.Lists.{forward_seen};
ghost use Rattle.hc_index.specs.Maps.{AnswersAt, ClosesAt, FailsAt, KeepsSame, OpensAt};

use crate::kept::{LiveResponse, RecordedForward};
use crate::lives::{answer_lives, begin_live};
use crate::pool::Pool;
use hc_fields::SharedOctets;
use hc_framing::Message;
use hc_head::{ResponseHead, StatusCode, is_error_status};
use hc_transcript::ToldCause;
use std::alloc::{AllocError, Global};

/// What is kept of a target.
#[derive(Drop)]
pub(crate) struct AtTarget {
    /// Its live responses, by rising position.
    pub(crate) lives: Vec<LiveResponse>,
    /// The position of the latest error of a forward of it; 0 where there was none.
    pub(crate) error: u64,
    /// The position of the latest failure of a forward of it; 0 where there was none.
    pub(crate) failure: u64,
    /// What the windows of its open exchanges hold.
    pub(crate) pool: Pool,
}

/// The position of the latest error behind a response of that status.
fn error_after(error: u64, status: StatusCode, position: u64) -> u64
    ensures { result ≡ (if is_error_status status then position else error) }
{
    if is_error_status(status) {
        position
    } else {
        error
    }
}

/// Whether both have the same octets. None is looked at where there are not as many.
fn same_octets(one: &SharedOctets, other: &SharedOctets) -> bool
    ensures { Decides result (one.now ≡ other.now) }
{
    one.as_slice() == other.as_slice()
}

/// The body, in the memory of the latest live response where that has the same.
fn shared_body(lives: &[LiveResponse], body: SharedOctets) -> Result<SharedOctets, AllocError>
    ensures { IfOk result (λ shared. shared ≡ body) }
{
    match lives.last() {
        Some(latest) if same_octets(&latest.state.body, &body) => latest.state.body.share(),
        _ => Ok(body),
    }
}

impl AtTarget {
    /// What is kept of a target of which nothing is known.
    pub(crate) fn new(alloc: Global) -> Self
        ensures { (target : Target) → KeepsSame target None (Some result) }
    {
        AtTarget {
            lives: Vec::new(alloc),
            error: 0,
            failure: 0,
            pool: Pool::new(alloc),
        }
    }

    /// Whether it is no more than is kept of a target of which nothing is known.
    pub(crate) fn is_nothing(&self) -> bool
        ensures { result ≡ true → (target : Target) → KeepsSame target (Some self.now) None }
    {
        self.lives.is_empty() && self.error == 0 && self.failure == 0 && self.pool.is_unused()
    }

    /// Opens the window of the exchange of that number, and says how many answers there were before it.
    pub(crate) fn open(&mut self, number: u64) -> Result<usize, AllocError>
        ensures { (target : Target) → IfOk result (λ behind. OpensAt target number behind (Some self.old) (Some self.new)) }
    {
        self.pool.open(number)
    }

    /// Closes the window of the exchange of that number.
    pub(crate) fn close(&mut self, behind: usize, number: u64)
        ensures { (target : Target) → ClosesAt target number (Some self.old) (Some self.new) }
    {
        self.pool.close(behind, number);
    }

    /// Takes in that a forward of the target failed.
    pub(crate) fn fail(&mut self, position: u64)
        ensures { (target : Target) → FailsAt target position (Some self.old) (Some self.new) }
    {
        self.failure = position;
    }

    /// Takes in the response to a forward of the target and of that cause. A body that the latest live response has as well is
    /// kept once.
    pub(crate) fn answer(
        &mut self,
        forward: RecordedForward,
        cause: ToldCause,
        position: u64,
        moment: u64,
        response: Message<ResponseHead>,
    ) -> Result<(), AllocError>
        requires { moment < end_of_moments }
        ensures { OnOk result (AnswersAt (forward_seen forward) cause position moment response (Some self.old) (Some self.new)) }
    {
        let alloc = forward.request.fields.alloc();
        let Message { head, body } = response;
        self.error = error_after(self.error, head.status, position);
        let body = shared_body(self.lives.as_slice(), body)?;
        let response = Message { head, body };
        self.pool.add(&forward, cause, &response)?;
        let lives = &mut self.lives;
        answer_lives(alloc, &forward, position, moment, &response, lives)?;
        begin_live(alloc, forward, position, moment, response, lives)
    }
}
