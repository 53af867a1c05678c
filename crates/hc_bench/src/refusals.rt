//! What a cache, an auditor and a store return, each by itself, also behind a request for memory that was
//! refused. Nothing refuses memory by itself: `tools/refuse_memory` runs this where each request is refused
//! in turn.

use crate::refusals_seen::Seen;
use crate::trouble::Trouble;
use crate::{refusals_auditing, refusals_serving, refusals_storing};
use std::alloc::Global;
use std::io::Write;

/// Says a line for each of them: that each call did what it was asked for, or that memory was refused and
/// what stands then is as it has to be, or that it isn't. It fails where memory was refused before there was
/// anything to see.
pub fn refusals<W: Write>(alloc: Global, output: &mut W) -> Result<(), Trouble> {
    say("a cache", refusals_serving::seen(alloc)?, output)?;
    say("an auditor", refusals_auditing::seen(alloc), output)?;
    let put = refusals_storing::seen_of_put(alloc)?;
    say("what a store puts", put, output)?;
    let freshened = refusals_storing::seen_of_freshen(alloc)?;
    say("what a store freshens", freshened, output)
}

fn say<W: Write>(what: &str, seen: Seen, output: &mut W) -> Result<(), Trouble> {
    let words = seen.words();
    writeln!(output, "{what}: {words}")?;
    Ok(output.flush()?)
}
