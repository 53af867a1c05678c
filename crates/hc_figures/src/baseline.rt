//! What an earlier report has.

ghost use Rattle.std.specs.Prelude.{◌≡◌, Some, ℕ, false, true, IfOk, IfErr, option_map};
ghost use Rattle.serde_json.specs.View.{members_view, view};
ghost use Rattle.serde_json.specs.Data.{Data};
ghost use Rattle.hc_figures.specs.Reports.{IsBaseline, base_in, counts_in, has_all, is_baseline, whole_in, wrong_in};
ghost use Rattle.hc_figures.specs.declared.baseline.BaselineFault.TheVariants.{NoReport};

use crate::tally::{count_under, sum_of};
use serde_json::{Map, Value};
use std::alloc::Global;

/// Why octets are no baseline.
#[derive(Clone, Copy)]
pub enum BaselineFault {
    /// They are no report that has all wrong replies of a whole transcript.
    NoReport,
    /// Memory was refused.
    Memory,
}

/// An earlier report, as JSON, which has all wrong replies of a whole transcript, by their kind.
pub struct Baseline {
    pub(crate) report: Value,
}

impl Drop for Baseline {
    fn drop(self) {
        let Baseline { report } = self;
        drop(report);
    }
}

impl Baseline {
    /// The baseline that those octets are: a report, in JSON, on a transcript that doesn't break, which has all its wrong
    /// replies by their kind. It costs time n log n, and memory, in the octets.
    pub fn read(alloc: Global, octets: &[u8]) -> Result<Self, BaselineFault>
        ensures ok { IfOk result (λ baseline. IsBaseline octets.now (view baseline.report)) }
        ensures err { IfErr result (λ fault. fault ≡ NoReport → (report : Data) → ¬ IsBaseline octets.now report) }
    {
        match Value::from_slice(alloc, octets) {
            Ok(report) => of_report(report),
            Err(error) if error.is_memory() => Err(BaselineFault::Memory),
            Err(_) => Err(BaselineFault::NoReport),
        }
    }

    /// How many wrong replies it has of a kind.
    pub fn count(&self, kind: &str) -> u64
        ensures { result ≡ base_in (view self.now.report) kind.now }
    {
        match counts_in(&self.report) {
            Some(counts) => count_under(counts, kind),
            None => 0,
        }
    }
}

// The same of a report that was read.
fn of_report(report: Value) -> Result<Baseline, BaselineFault>
    ensures ok { IfOk result (λ baseline. (view baseline.report ≡ view report) × (is_baseline (view report) ≡ true)) }
    ensures err { IfErr result (λ fault. is_baseline (view report) ≡ false) }
{
    if whole_in(&report).unwrap_or(false) && has_all(&report) {
        Ok(Baseline { report })
    } else {
        Err(BaselineFault::NoReport)
    }
}

// Whether the transcript of a report doesn't break, if it says that.
fn whole_in(report: &Value) -> Option<bool>
    ensures { result ≡ whole_in (view report.now) }
{
    report.get("ends")?.get("whole")?.as_bool()
}

// Whether a report has as many wrong replies by their kind as it counts.
fn has_all(report: &Value) -> bool
    ensures { result ≡ has_all (view report.now) }
{
    match (counts_in(report), wrong_in(report)) {
        (Some(counts), Some(wrong)) => sum_of(counts) == Some(wrong),
        _ => false,
    }
}

/// Its wrong replies by their kind.
pub(crate) fn counts_in(report: &Value) -> Option<&Map<String, Value>>
    ensures { option_map (λ m. members_view m.now.entries) result ≡ counts_in (view report.now) }
{
    report.get("baseline")?.as_object()
}

// How many wrong replies it counts.
fn wrong_in(report: &Value) -> Option<u64>
    ensures { result ≡ wrong_in (view report.now) }
{
    report.get("wrong")?.get("count")?.as_u64()
}
