//! The open exchanges and their windows.

ghost use Rattle.std.specs.Prelude.{◌≡◌, ◌==◌, ℕ, Some, None, map, OnOk, if◌then◌else◌, option_copied};
ghost use Rattle.hc_index.specs.Lists.{forward_seen, open_in, watched, watched_answered};

use crate::kept::{RecordedForward, WatchedExchange};
use crate::windows::window_answer;
use hc_framing::Message;
use hc_head::{ResponseHead, same_target};
use hc_history::may_be_for;
use hc_transcript::ToldCause;
use std::alloc::AllocError;

/// The open exchange of that number.
pub(crate) fn find_exchange(exchanges: &[WatchedExchange], number: u64) -> Option<&WatchedExchange>
    ensures { option_copied result ≡ open_in number exchanges.now }
{
    exchanges
        .iter()
        .find(|watched| watched.exchange.number == number)
}

/// Closes the exchange of that number.
pub(crate) fn close_exchange(exchanges: &mut Vec<WatchedExchange>, number: u64)
    ensures { (e : ℕ) → open_in e exchanges.new.items
        ≡ (if number == e then None else open_in e exchanges.old.items) }
{
    exchanges.retain(|watched| watched.exchange.number != number);
}

/// Opens that exchange in the place of any other of its number.
pub(crate) fn open_exchange(
    exchanges: &mut Vec<WatchedExchange>,
    watched: WatchedExchange,
) -> Result<(), AllocError>
    ensures { OnOk result ((e : ℕ) → open_in e exchanges.new.items
        ≡ (if watched.exchange.number == e then Some watched else open_in e exchanges.old.items)) }
{
    close_exchange(exchanges, watched.exchange.number);
    exchanges.push(watched)?;
    Ok(())
}

/// Puts the response to a forward of any target and cause into the window of an exchange.
fn add_to_window(
    forward: &RecordedForward,
    cause: ToldCause,
    response: &Message<ResponseHead>,
    exchange: &mut WatchedExchange,
) -> Result<(), AllocError>
    ensures { OnOk result (watched exchange.new ≡ watched_answered (forward_seen forward.now) cause response.now (watched exchange.old)) }
{
    if !may_be_for(cause, exchange.exchange.number) {
        return Ok(());
    }
    if !same_target(&forward.target, &exchange.exchange.target) {
        return Ok(());
    }
    let answer = window_answer(forward, cause, response)?;
    exchange.window.push_back(answer)?;
    Ok(())
}

/// Puts the response to a forward of that cause into the windows of its target.
#[tactic(auto, using(crate::proofs::LoopLemmas::seen_over_at))]
pub(crate) fn add_to_windows(
    forward: &RecordedForward,
    cause: ToldCause,
    response: &Message<ResponseHead>,
    exchanges: &mut Vec<WatchedExchange>,
) -> Result<(), AllocError>
    ensures { OnOk result (map watched exchanges.new.items
        ≡ map (watched_answered (forward_seen forward.now) cause response.now) (map watched exchanges.old.items)) }
{
    for exchange in exchanges.iter_mut() {
        add_to_window(forward, cause, response, exchange)?;
    }
    Ok(())
}
