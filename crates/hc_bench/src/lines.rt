//! The lines that the program prints.
ghost use Rattle.std.specs.Prelude.{◌≡◌, IfOk, string_bytes};
ghost use Rattle.hc_bench.specs.Lines.{counts_line, rate_line, cost_line, store_line};

use crate::feeding::FedMessage;
use crate::rate::Rate;
use std::alloc::{AllocError, Global};

/// What was counted while a message was fed in pieces of that size.
pub fn counts_line<H>(
    alloc: Global,
    name: &str,
    size: usize,
    fed: &FedMessage<H>,
) -> Result<String, AllocError>
    ensures { IfOk result (λ line. string_bytes line ≡ counts_line name.now size fed.now) }
{
    let octets = fed.octets;
    let body = fed.message.body.len();
    let calls = fed.calls;
    format!(in alloc; "{name} piece={size} octets={octets} body={body} calls={calls}\n")
}

/// How fast messages were read in pieces of that size.
pub fn rate_line(alloc: Global, name: &str, size: usize, rate: &Rate) -> Result<String, AllocError>
    ensures { IfOk result (λ line. string_bytes line ≡ rate_line name.now size rate.now) }
{
    let messages = rate.count;
    let octets = rate.octets;
    let speed = rate.octets_per_second();
    format!(in alloc;
        "{name} piece={size} messages={messages} octets={octets} octets_per_second={speed}\n"
    )
}

/// What an octet of the long messages cost, beside an octet of the short ones.
pub fn cost_line(
    alloc: Global,
    name: &str,
    size: usize,
    short: &Rate,
    long: &Rate,
) -> Result<String, AllocError>
    ensures { IfOk result (λ line. string_bytes line ≡ cost_line name.now size short.now long.now) }
{
    let percent = long.percent_of(short);
    format!(in alloc; "{name} piece={size} cost_percent={percent}\n")
}

/// How fast as many calls of `choose` and of `put` were, of a store of so many keys of which so many were
/// used in turn.
pub fn store_line(
    alloc: Global,
    keys: usize,
    used: usize,
    choose: &Rate,
    put: &Rate,
) -> Result<String, AllocError>
    ensures { IfOk result (λ line. string_bytes line ≡ store_line keys used choose.now put.now) }
{
    let calls = choose.count;
    let choose_speed = choose.count_per_second();
    let put_speed = put.count_per_second();
    format!(in alloc;
        "store keys={keys} used={used} calls={calls} choose_per_second={choose_speed} put_per_second={put_speed}\n"
    )
}
