//! How the program ends by a verdict, where it had to judge so many replies.
ghost use Rattle.std.specs.Prelude.{◌≡◌, ◌⊎◌, ◌++◌, IfOk, codes, string_bytes};
ghost use Rattle.hc_history.specs.declared.verdicts.Verdict.TheVariants.{Yes};
ghost use Rattle.hc_auditing.specs.Minimums.{EndsBy, falls_short, judged_of, too_few_line};

use crate::auditing::verdict_status;
use crate::print::printed;
use crate::trouble::Trouble;
use hc_history::{Counts, Verdict};
use hc_options::Minimums;
use std::alloc::{AllocError, Global};
use std::io::Write;

/// The exit status of a yes by which too few replies were judged.
const TOO_FEW: u8 = 4;

/// Ends by a verdict, which was said, and returns the exit status. Where it is yes and fewer replies were
/// judged than is wanted, `faults` gets a line for each number of them that is too small, and the status
/// is 4. Where these can't be said, the status is 3.
pub fn ended<E: Write>(alloc: Global, least: Minimums, verdict: &Verdict, faults: &mut E) -> u8
    ensures { (result ≡ 3) ⊎ EndsBy least verdict.now result (E.contents faults.old) (E.contents faults.new) }
{
    match ended_by(alloc, least, verdict, faults) {
        Ok(status) => status,
        Err(trouble) => trouble.told("standard error", faults),
    }
}

// Says what is too few, if anything is, and returns the exit status.
fn ended_by<E: Write>(
    alloc: Global,
    least: Minimums,
    verdict: &Verdict,
    faults: &mut E,
) -> Result<u8, Trouble>
    ensures { IfOk result (λ status. EndsBy least verdict.now status (E.contents faults.old) (E.contents faults.new)) }
{
    match verdict {
        Verdict::Yes(counts) => ended_by_yes(alloc, least, counts, faults),
        Verdict::No(_, _) => Ok(verdict_status(verdict)),
        Verdict::Malformed(_, _) => Ok(verdict_status(verdict)),
    }
}

// Says what is too few of what was counted in a transcript that is right, if anything is, and returns the
// exit status.
fn ended_by_yes<E: Write>(
    alloc: Global,
    least: Minimums,
    counts: &Counts,
    faults: &mut E,
) -> Result<u8, Trouble>
    ensures { IfOk result (λ status. EndsBy least (Yes counts.now) status (E.contents faults.old) (E.contents faults.new)) }
{
    if !falls_short(least, counts) {
        return Ok(0);
    }
    let lines = shortfall_lines(alloc, least, counts)?;
    match printed(lines.as_str(), faults) {
        Ok(()) => Ok(TOO_FEW),
        Err(error) => Err(Trouble::Device(error)),
    }
}

// Whether there are too few hits, or too few replies that were judged.
fn falls_short(least: Minimums, counts: &Counts) -> bool
    ensures { result ≡ falls_short least counts.now }
{
    counts.hits < u64::from(least.hits) || judged(counts) < u128::from(least.judged)
}

// How many replies were judged.
fn judged(counts: &Counts) -> u128
    ensures { result ≡ judged_of counts.now }
{
    u128::from(counts.hits) + u128::from(counts.forwarded)
}

// The lines that say what is too few.
fn shortfall_lines(alloc: Global, least: Minimums, counts: &Counts) -> Result<String, AllocError>
    ensures { IfOk result (λ lines. string_bytes lines
        ≡ too_few_line (codes "hits") counts.now.hits least.hits ++ too_few_line (codes "judged") (judged_of counts.now) least.judged) }
{
    let mut lines = too_few_line(alloc, "hits", u128::from(counts.hits), least.hits)?;
    let judged = too_few_line(alloc, "judged", judged(counts), least.judged)?;
    lines.push_str(judged.as_str())?;
    Ok(lines)
}

// The line that says that there are too few of that name, if there are.
fn too_few_line(alloc: Global, name: &str, had: u128, wanted: u32) -> Result<String, AllocError>
    ensures { IfOk result (λ line. string_bytes line ≡ too_few_line name.now had wanted) }
{
    if had >= u128::from(wanted) {
        return Ok(String::new(alloc));
    }
    format!(in alloc; "too few: {name}={had}, wanted {wanted}\n")
}
