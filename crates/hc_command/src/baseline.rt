//! The baseline of a report, out of a file.

ghost use Rattle.std.specs.Prelude.{◌≡◌, List, ℕ, IfErr, IfOk, IfSome};
ghost use Rattle.serde_json.specs.Data.{Data};
ghost use Rattle.serde_json.specs.View.{view};
ghost use Rattle.hc_figures.specs.Reports.{IsBaseline};
ghost use Rattle.hc_figures.specs.declared.baseline.BaselineFault.{BaselineFault};
ghost use Rattle.hc_command.specs.Baseline.{IsNoBaseline, status_without};

use hc_auditing::{Trouble, all_of, printed};
use hc_figures::{Baseline, BaselineFault};
use std::alloc::Global;
use std::io::{Read, Write};

/// Why there is no baseline.
#[derive(Clone, Copy)]
pub enum BaselineTrouble {
    /// What was read is no report that has all wrong replies of a whole transcript.
    NoReport,
    /// It couldn't be read.
    Trouble(Trouble),
}

impl BaselineTrouble {
    /// Says it on `faults`, and returns the exit status. `name` is what the input is called where it fails.
    pub fn told<E: Write>(self, name: &str, faults: &mut E) -> u8
        ensures { result ≡ status_without self }
    {
        match self {
            BaselineTrouble::NoReport => {
                let _ = printed("error: baseline\n", faults);
                64
            }
            BaselineTrouble::Trouble(trouble) => trouble.told(name, faults),
        }
    }
}

/// The baseline that `input` gives up to its end.
pub fn baseline_of<R: Read>(alloc: Global, input: &mut R) -> Result<Baseline, BaselineTrouble>
    ensures ok { IfOk result (λ baseline. IfSome (R.remaining input.old) (λ octets. IsBaseline octets (view baseline.report))) }
    ensures err { IfErr result (λ trouble. IsNoBaseline trouble (R.remaining input.old)) }
{
    match all_of(alloc, input) {
        Ok(octets) => read_baseline(alloc, octets.as_slice()),
        Err(trouble) => Err(BaselineTrouble::Trouble(trouble)),
    }
}

// The baseline that those octets are.
fn read_baseline(alloc: Global, octets: &[u8]) -> Result<Baseline, BaselineTrouble>
    ensures ok { IfOk result (λ baseline. IsBaseline octets.now (view baseline.report)) }
    ensures err { IfErr result (λ trouble. IsNoBaseline trouble (Some octets.now)) }
{
    match Baseline::read(alloc, octets) {
        Ok(baseline) => Ok(baseline),
        Err(BaselineFault::NoReport) => Err(BaselineTrouble::NoReport),
        Err(BaselineFault::Memory) => Err(BaselineTrouble::Trouble(Trouble::Memory)),
    }
}
