//! What the program does, over any system and any two writers.

ghost use Rattle.std.specs.Prelude.{◌≡◌, ◌∷◌, [], ℕ, Some, codes, map, true};
ghost use Rattle.clap.specs.Words.{Text, fault_of};
ghost use Rattle.hc_arguments.specs.Commands.{hcache};
ghost use Rattle.hc_arguments.specs.Origins.{is_origin};
ghost use Rattle.hc_arguments.specs.Positions.{positive_of};
ghost use Rattle.hc_arguments.specs.Tasks.{Asks, CanBeDone, Task, proxy_words, service_words, task_of};
ghost use Rattle.hc_proxy_prog.specs.Ends.{Does, Ends, EndsTask, Proxied, Served};

use crate::serving::{Standard, proxied, served};
use hc_arguments::{Order, not_text, parsed};
use hc_auditing::{printed, shown, unread, words_of};
use hc_serving::Claim;
use std::convert::AsStr;
use std::io::Write;
use std::net::Net;
use std::random::RandomSource;
use std::rt::{Env, Files};
use std::time::Clock;

/// Does what the program's own arguments ask, and returns its exit status.
pub(crate) fn status<R, W: Write, E: Write>(rt: &R, output: &mut W, faults: &mut E) -> u8
where
    R: Env + Files + Net + Clock + RandomSource + Standard + AllocGlobal,
    R::File: Claim,
    ensures { Ends result (W.contents output.old) (W.contents output.new)
        (E.contents faults.old) (E.contents faults.new) }
{
    match words_of(rt) {
        Ok(words) => answered(rt, words.as_slice(), output, faults),
        Err(error) => unread(&error, not_text(rt.alloc()), output, faults),
    }
}

/// Does what the words ask, of which the first is the program's name, and returns the exit status.
///
/// Help or the version goes to `output`, and what went wrong to `faults`.
fn answered<R, S: AsStr, W: Write, E: Write>(
    rt: &R,
    words: &[S],
    output: &mut W,
    faults: &mut E,
) -> u8
where
    R: Files + Net + Clock + RandomSource + Standard + AllocGlobal,
    R::File: Claim,
    // `serve` with the four options that it needs, each value behind its `=`, is answered by serving.
    ensures serve { (name listen origin number file : Text) (connections : ℕ)
        → is_origin origin ≡ true → positive_of number ≡ Some connections
        → map S.text words.now ≡ name ∷ service_words listen origin number file
        → Served result (W.contents output.old) (W.contents output.new)
        (E.contents faults.old) (E.contents faults.new) }

    // And `proxy` with the two options that it needs by serving many clients at once.
    ensures proxy { (name listen origin : Text) → is_origin origin ≡ true
        → map S.text words.now ≡ name ∷ proxy_words listen origin
        → Proxied result (W.contents output.old) (W.contents output.new)
        (E.contents faults.old) (E.contents faults.new) }

    // So are other words that ask for one of these, and have no fault; and those that ask for another command are refused.
    ensures asked { (task : Task) → fault_of hcache (map S.text words.now) ≡ []
        → Asks (map S.text words.now) task
        → Does task result (W.contents output.old) (W.contents output.new)
        (E.contents faults.old) (E.contents faults.new) }
    ensures ends { Ends result (W.contents output.old) (W.contents output.new)
        (E.contents faults.old) (E.contents faults.new) }
{
    match parsed(rt.alloc(), words) {
        Ok(order) => done(rt, order, faults),
        Err(error) => shown(&error, output, faults),
    }
}

// Does what is asked.
fn done<R, E: Write>(rt: &R, order: Order<'_>, faults: &mut E) -> u8
where
    R: Files + Net + Clock + RandomSource + Standard + AllocGlobal,
    R::File: Claim,
    requires { CanBeDone (task_of order) }
    ensures { EndsTask (task_of order.entry) result (E.contents faults.old) (E.contents faults.new) }
{
    match order {
        Order::Serve(serving) => served(rt, serving, faults),
        Order::Proxy(proxying) => proxied(rt, proxying, faults),
        Order::Audit { .. } => another(faults),
        Order::Report { .. } => another(faults),
        Order::Explain { .. } => another(faults),
        Order::Show { .. } => another(faults),
        Order::Replay { .. } => another(faults),
        Order::Convert { .. } => another(faults),
        Order::Split { .. } => another(faults),
        Order::Join { .. } => another(faults),
    }
}

// Says that another program does that, and returns the exit status.
fn another<E: Write>(faults: &mut E) -> u8
    ensures { result ≡ 64 }
{
    let _ = printed(
        "error: this program serves clients, and another one does the rest\n",
        faults,
    );
    64
}
