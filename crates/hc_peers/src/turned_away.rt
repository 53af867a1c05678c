//! Those for whom there was no room.

ghost use Rattle.std.specs.Prelude.{◌<◌, true, false, Bool, ℕ, List, []};
ghost use Rattle.hc_peers.specs.TurnedAway.{IsRefused};

use hc_flow::{Arrival, Stream};

/// So many links of those who were turned away are kept at once at most.
pub const MOST_TURNED_AWAY: usize = 64;

/// So many reads of what one of them sends are made at once at most.
const MOST_READS: usize = 16;

/// The stream, where the refusal was written, as far as it is taken now, and our half was ended.
pub(crate) fn refused<S: Stream>(stream: S, refusal: &[u8]) -> S
    ensures { (ended : Bool) → S.has_got stream [] → S.was_ended stream ended → IsRefused S.has_got S.was_ended refusal.now result }
{
    let mut stream = stream;
    // What isn't taken at once is of no use to one that reads so little.
    let _ = stream.write(refusal, &[]);
    stream.end();
    stream
}

/// Reads what comes, and drops it. Returns whether the other side has ended it, or the link has failed, or much comes.
pub(crate) fn is_over<S: Stream>(stream: &mut S, buffer: &mut [u8]) -> bool
    ensures { (refusal : List ℕ) → IsRefused S.has_got S.was_ended refusal stream.old → IsRefused S.has_got S.was_ended refusal stream.new }
{
    'reads: for _ in 0..MOST_READS {
        match stream.read(buffer) {
            Arrival::Octets(_) => {}
            Arrival::Later => return false,
            Arrival::End => return true,
            Arrival::Failed => return true,
        }
    }
    true
}
