//! What comes of a run.

ghost use Rattle.std.specs.Prelude.{◌≡◌};
ghost use Rattle.hc_core.specs.Results.{is_cut_off, is_memory, is_refusal};

use hc_fields::Octets;
use hc_service::{Action, StepFault};

/// What a step returns.
pub type StepResult = Result<Vec<Action>, StepFault>;

/// What came of a run.
#[derive(Drop)]
pub struct Run {
    /// What each step returned, in order. A refused growth is the last.
    pub results: Vec<StepResult>,
    /// The transcript: what stands at its front, and the text of each record that was given out, in order.
    pub transcript: Octets,
}

impl Run {
    ghost use Rattle.std.specs.Prelude.{◌≡◌};
    ghost use Rattle.hc_core.specs.Results.{is_cut_off};

    /// Whether memory was refused to a step, behind which there is none.
    pub fn is_cut_off(&self) -> bool
        ensures { result ≡ is_cut_off self.now.results.items }
    {
        ends_in_refusal(self.results.as_slice())
    }
}

fn ends_in_refusal(results: &[StepResult]) -> bool
    ensures { result ≡ is_cut_off results.now }
{
    match results.split_last() {
        Some((last, _)) => is_refusal(last),
        None => false,
    }
}

fn is_memory(fault: StepFault) -> bool
    ensures { result ≡ is_memory fault }
{
    match fault {
        StepFault::Memory => true,
        StepFault::MomentTooLarge => false,
        StepFault::UnknownNumber => false,
        StepFault::TooManyConnections => false,
        StepFault::Failed => false,
    }
}

/// Whether memory was refused to the step.
pub(crate) fn is_refusal(result_of: &StepResult) -> bool
    ensures { result ≡ is_refusal result_of.now }
{
    match result_of {
        Ok(_) => false,
        Err(fault) => is_memory(*fault),
    }
}
