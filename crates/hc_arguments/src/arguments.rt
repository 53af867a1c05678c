//! What the words of a command line ask.

ghost use Rattle.std.specs.Prelude.{◌≡◌, ◌∷◌, [], IfErr, IfOk, MatchResult, ℕ, Some, None, codes, map, true};
ghost use Rattle.clap.specs.Words.{HasKind, Text, fault_of, first_value, found_of, kind_of, subcommand_of, subcommand_rows_of};
ghost use Rattle.hc_options.specs.Auditing.{plain_audit};
ghost use Rattle.hc_options.specs.Commands.{IsFileName, IsWord};
ghost use Rattle.hc_options.specs.Refusals.{Refuses};
ghost use Rattle.hc_options.specs.Rows.{IsAmong, entry_of};
ghost use Rattle.hc_options.specs.Values.{number_by};
ghost use Rattle.hc_options.specs.declared.refusal.Refusal.TheVariants.{Missing};
ghost use Rattle.hc_options.specs.declared.rows.Takes.TheVariants.{Number};
ghost use Rattle.hc_transcript.specs.Limits.{greatest_number};
ghost use Rattle.hc_arguments.specs.Cache.{keys_served, plain_cache};
ghost use Rattle.hc_arguments.specs.Commands.{hcache};
ghost use Rattle.hc_arguments.specs.Limits.{TakesNumbers, AsksLimits, AsksPatience, AsksTerms, limit_in};
ghost use Rattle.hc_arguments.specs.Origins.{is_origin};
ghost use Rattle.hc_arguments.specs.Positions.{positive_of};
ghost use Rattle.hc_arguments.specs.Tables.{Command, proxying, taken_by};
ghost use Rattle.hc_arguments.specs.Tables.Command.{Audits, Converts, Explains, Joins, Proxies, Replays, Reports, Serves, Shows, Splits};
ghost use Rattle.hc_arguments.specs.Tasks.{Asks, AsksBy, AsksIn, AreAll, CanBeDone, IsRefused, IsRefusedIn, ListensAt, RefusesBy, RefusesIn, all_values, explaining, first_text, plain_form, plain_proxy_task, proxy_words, service_words, task_of, values_in};
ghost use Rattle.hc_arguments.specs.Tasks.Task.{ToAudit, ToConvert, ToExplain, ToProxy, ToReplay, ToReport, ToServe};

use crate::cache::cache_in;
use crate::command::{command, command_named, report_command};
use crate::order::{
    ExplainTerms, Order, ProxyLimits, ProxyPatience, Proxying, RecordTerms, ReportTerms, Serving,
};
use crate::origins::is_origin;
use crate::positions::span_of;
use crate::rows::{
    ABANDONED, CLIENTS, CONNECT_TIMEOUT, CONNECTIONS, DRAIN_TIMEOUT, EXPLAINED, HELD, IDLE_TIMEOUT,
    MAX_CONNECTIONS, ORIGIN, ORIGIN_CONNECTIONS, ORIGIN_TIMEOUT, ORIGIN_TOTAL, PARTS, POSITION,
    QUEUE_TIMEOUT, RECORD_LIMIT, REQUEST_TIMEOUT, SEND_TIMEOUT, SPAN,
};
use clap::error::ErrorKind;
use clap::{ArgMatches, Error};
use hc_options::{
    Refusal, Row, audit_terms_in, flag_in, minimums_in, number_if_given, number_or, required,
    settings_in, usage_error,
};
use std::alloc::{AllocError, Global};
use std::convert::AsStr;

/// Of so many targets `serve` keeps responses without `--keys`.
const KEYS_SERVED: u64 = 1_024;

/// And so many `proxy`: as many as it may, since `--bytes` bounds their octets.
const KEYS_PROXIED: u64 = 65_536;

/// What the words ask. The first word is the program's name.
///
/// An `Err` is a mistake in the words, memory that was refused, or a call for help or the version,
/// and it displays the text to print.
pub fn parsed<'a, S: AsStr>(alloc: Global, words: &'a [S]) -> Result<Order<'a>, Error>
    // `audit FILE` gives that FILE and the plain settings, and fails only where memory is refused.
    ensures audit { (name file : Text) → IsWord file
        → map S.text words.entry.now ≡ name ∷ codes "audit" ∷ file ∷ []
        → MatchResult result (λ order. task_of order ≡ ToAudit file plain_audit)
        (λ error. kind_of error ≡ ErrorKind.OutOfMemory) }
    // `report FILE` asks for text, and gives that FILE and those settings too.
    ensures report { (name file : Text) → IsWord file
        → map S.text words.entry.now ≡ name ∷ codes "report" ∷ file ∷ []
        → MatchResult result (λ order. task_of order ≡ ToReport file plain_audit plain_form)
        (λ error. kind_of error ≡ ErrorKind.OutOfMemory) }
    // And `explain FILE` asks for the first wrong reply, where FILE isn't `-`.
    ensures explain { (name file : Text) → IsFileName file
        → map S.text words.entry.now ≡ name ∷ codes "explain" ∷ file ∷ []
        → MatchResult result (λ order. task_of order ≡ ToExplain file (explaining None))
        (λ error. kind_of error ≡ ErrorKind.OutOfMemory) }
    // Or `explain FILE POSITION` for the reply at that position.
    ensures explain_at { (name file number : Text) (position : ℕ) → IsFileName file → positive_of number ≡ Some position
        → map S.text words.entry.now ≡ name ∷ codes "explain" ∷ file ∷ number ∷ []
        → MatchResult result (λ order. task_of order ≡ ToExplain file (explaining (Some position)))
        (λ error. kind_of error ≡ ErrorKind.OutOfMemory) }
    // `replay FILE` gives that FILE, and fails only so too.
    ensures replay { (name file : Text) → IsWord file
        → map S.text words.entry.now ≡ name ∷ codes "replay" ∷ file ∷ []
        → MatchResult result (λ order. task_of order ≡ ToReplay file)
        (λ error. kind_of error ≡ ErrorKind.OutOfMemory) }
    // And so does `convert FILE`.
    ensures convert { (name file : Text) → IsWord file
        → map S.text words.entry.now ≡ name ∷ codes "convert" ∷ file ∷ []
        → MatchResult result (λ order. task_of order ≡ ToConvert file)
        (λ error. kind_of error ≡ ErrorKind.OutOfMemory) }
    // And `serve` gives the values of the four options that it needs, each behind its `=`, and the plain cache, where the
    // origin has no port 0.
    ensures serve { (name listen origin number file : Text) (connections : ℕ)
        → is_origin origin ≡ true → positive_of number ≡ Some connections
        → map S.text words.entry.now ≡ name ∷ service_words listen origin number file
        → MatchResult result (λ order. task_of order ≡ ToServe listen origin connections file (plain_cache keys_served))
        (λ error. kind_of error ≡ ErrorKind.OutOfMemory) }
    // And `proxy` those of the two that it needs, no file, and the plain terms, limits and cache.
    ensures proxy { (name listen origin : Text) → is_origin origin ≡ true → map S.text words.entry.now ≡ name ∷ proxy_words listen origin
        → MatchResult result (λ order. task_of order ≡ ToProxy (plain_proxy_task listen origin))
        (λ error. kind_of error ≡ ErrorKind.OutOfMemory) }

    // Other words give what they say, where the command line has no fault and the values are in their ranges.
    ensures asked { IfOk result (λ order. Asks (map S.text words.entry.now) (task_of order)) }
    ensures taken { IfOk result (λ _. fault_of hcache (map S.text words.entry.now) ≡ []) }
    ensures refused { IfErr result (IsRefused (map S.text words.entry.now)) }

    // A proxy listens at all places that are named, in their order.
    ensures all { IfOk result (ListensAt (values_in (subcommand_of hcache (map S.text words.entry.now)) (codes "listen"))) }

    // What is asked can be done: there are caches of those settings.
    ensures possible { IfOk result (λ order. CanBeDone (task_of order)) }
{
    asked(alloc, words)
}

// The same of any words, of which `parsed` tells more where they are plain.
fn asked<'a, S: AsStr>(alloc: Global, words: &'a [S]) -> Result<Order<'a>, Error>
    ensures asked { IfOk result (λ order. Asks (map S.text words.entry.now) (task_of order)) }
    ensures all { IfOk result (ListensAt (values_in (subcommand_of hcache (map S.text words.entry.now)) (codes "listen"))) }
    ensures taken { IfOk result (λ _. fault_of hcache (map S.text words.entry.now) ≡ []) }
    ensures refused { IfErr result (IsRefused (map S.text words.entry.now)) }
{
    let matches = matches_of(alloc, words)?;
    asked_in(alloc, &matches)
}

// What a parse finds in the words.
fn matches_of<'a, S: AsStr>(alloc: Global, words: &'a [S]) -> Result<ArgMatches<'a>, Error>
    ensures found { IfOk result (λ matches. subcommand_rows_of matches ≡ subcommand_of hcache (map S.text words.entry.now)) }
    ensures taken { IfOk result (λ _. fault_of hcache (map S.text words.entry.now) ≡ []) }
    ensures refused { IfErr result (HasKind (fault_of hcache (map S.text words.entry.now))) }
{
    command(alloc)?.try_get_matches_from(words)
}

// What the subcommand asks, or the error that says why it asks nothing.
fn asked_in<'a>(alloc: Global, matches: &ArgMatches<'a>) -> Result<Order<'a>, Error>
    ensures ok { IfOk result (λ order. AsksIn (subcommand_rows_of matches.now) (task_of order)) }
    ensures all { IfOk result (ListensAt (values_in (subcommand_rows_of matches.now) (codes "listen"))) }
    ensures err { IfErr result (IsRefusedIn (subcommand_rows_of matches.now)) }
{
    match order_in(alloc, matches) {
        Ok(order) => Ok(order),
        Err(refusal) => {
            Err(refusal.error(alloc, command_named(alloc, matches.subcommand_name()))?)
        }
    }
}

// What the subcommand asks.
fn order_in<'a>(alloc: Global, matches: &ArgMatches<'a>) -> Result<Order<'a>, Refusal>
    ensures ok { IfOk result (λ order. AsksIn (subcommand_rows_of matches.now) (task_of order)) }
    ensures all { IfOk result (ListensAt (values_in (subcommand_rows_of matches.now) (codes "listen"))) }
    ensures err { IfErr result (RefusesIn (subcommand_rows_of matches.now)) }
{
    let Some((name, found)) = matches.subcommand() else {
        return Err(Refusal::Missing);
    };
    match name {
        "audit" => audit_in(alloc, found),
        "report" => report_in(alloc, found),
        "explain" => explain_in(alloc, found),
        "show" => show_in(found),
        "replay" => replay_in(found),
        "serve" => serve_in(alloc, found),
        "proxy" => proxy_in(alloc, found),
        "convert" => convert_in(found),
        "split" => split_in(found),
        "join" => join_in(found),
        _ => Err(Refusal::Missing),
    }
}

// What `audit` asks.
fn audit_in<'a>(alloc: Global, found: &ArgMatches<'a>) -> Result<Order<'a>, Refusal>
    ensures ok { IfOk result (λ order. AsksBy (Some Audits) (first_value (found_of found.now)) (task_of order)) }
    ensures err { IfErr result (RefusesBy (Some Audits) (first_value (found_of found.now))) }
{
    let file = required(found, "FILE")?;
    let terms = audit_terms_in(alloc, found)?;
    Ok(Order::Audit { file, terms })
}

// What `report` asks.
fn report_in<'a>(alloc: Global, found: &ArgMatches<'a>) -> Result<Order<'a>, Refusal>
    ensures ok { IfOk result (λ order. AsksBy (Some Reports) (first_value (found_of found.now)) (task_of order)) }
    ensures err { IfErr result (RefusesBy (Some Reports) (first_value (found_of found.now))) }
{
    let file = required(found, "FILE")?;
    let form = ReportTerms {
        json: flag_in(found, "json"),
        baseline: found.get_str("baseline"),
        strict: flag_in(found, "baseline-strict"),
        annotates: flag_in(found, "annotations"),
        junit: found.get_str("junit"),
        html: flag_in(found, "html"),
    };
    let terms = audit_terms_in(alloc, found)?;
    Ok(Order::Report { file, terms, form })
}

// What `explain` asks.
fn explain_in<'a>(alloc: Global, found: &ArgMatches<'a>) -> Result<Order<'a>, Refusal>
    ensures ok { IfOk result (λ order. AsksBy (Some Explains) (first_value (found_of found.now)) (task_of order)) }
    ensures err { IfErr result (RefusesBy (Some Explains) (first_value (found_of found.now))) }
{
    let file = required(found, "FILE")?;
    if file == "-" {
        return Err(Refusal::Value(&EXPLAINED));
    }
    let position = number_if_given(found, &POSITION)?;
    let json = flag_in(found, "json");
    let settings = settings_in(alloc, found)?;
    let terms = ExplainTerms {
        position,
        settings,
        json,
    };
    Ok(Order::Explain { file, terms })
}

// What `show` asks.
fn show_in<'a>(found: &ArgMatches<'a>) -> Result<Order<'a>, Refusal>
    ensures ok { IfOk result (λ order. AsksBy (Some Shows) (first_value (found_of found.now)) (task_of order)) }
    ensures err { IfErr result (RefusesBy (Some Shows) (first_value (found_of found.now))) }
{
    let file = required(found, "FILE")?;
    let written = required(found, "POSITION[-POSITION]")?;
    match span_of(written.as_bytes()) {
        Some(span) => Ok(Order::Show { file, span }),
        None => Err(Refusal::Value(&SPAN)),
    }
}

// What `replay` asks.
fn replay_in<'a>(found: &ArgMatches<'a>) -> Result<Order<'a>, Refusal>
    ensures ok { IfOk result (λ order. AsksBy (Some Replays) (first_value (found_of found.now)) (task_of order)) }
    ensures err { IfErr result (RefusesBy (Some Replays) (first_value (found_of found.now))) }
{
    let file = required(found, "FILE")?;
    Ok(Order::Replay { file })
}

// What `convert` asks.
fn convert_in<'a>(found: &ArgMatches<'a>) -> Result<Order<'a>, Refusal>
    ensures ok { IfOk result (λ order. AsksBy (Some Converts) (first_value (found_of found.now)) (task_of order)) }
    ensures err { IfErr result (RefusesBy (Some Converts) (first_value (found_of found.now))) }
{
    let file = required(found, "FILE")?;
    Ok(Order::Convert { file })
}

// What `split` asks.
fn split_in<'a>(found: &ArgMatches<'a>) -> Result<Order<'a>, Refusal>
    ensures ok { IfOk result (λ order. AsksBy (Some Splits) (first_value (found_of found.now)) (task_of order)) }
    ensures err { IfErr result (RefusesBy (Some Splits) (first_value (found_of found.now))) }
{
    let file = required(found, "FILE")?;
    if file == "-" {
        return Err(Refusal::Value(&EXPLAINED));
    }
    let dir = required(found, "DIR")?;
    let parts = parts_in(found)?;
    Ok(Order::Split { file, parts, dir })
}

// How many parts there are to be, which has to be said.
fn parts_in(found: &ArgMatches<'_>) -> Result<u64, Refusal>
    ensures ok { IfOk result (λ number. number_by (Number 1 500) (first_value (found_of found.now) (codes "N")) ≡ Some (Some number)) }
    ensures err { IfErr result (RefusesBy (Some Splits) (first_value (found_of found.now))) }
{
    match number_if_given(found, &PARTS)? {
        Some(number) => Ok(number),
        None => Err(Refusal::Missing),
    }
}

// What `join` asks.
fn join_in<'a>(found: &ArgMatches<'a>) -> Result<Order<'a>, Refusal>
    ensures ok { IfOk result (λ order. AsksBy (Some Joins) (first_value (found_of found.now)) (task_of order)) }
    ensures err { IfErr result (RefusesBy (Some Joins) (first_value (found_of found.now))) }
{
    let dir = required(found, "DIR")?;
    let least = minimums_in(found)?;
    Ok(Order::Join { dir, least })
}

// What `serve` asks.
fn serve_in<'a>(alloc: Global, found: &ArgMatches<'a>) -> Result<Order<'a>, Refusal>
    ensures ok { IfOk result (λ order. AsksBy (Some Serves) (first_value (found_of found.now)) (task_of order)) }
    ensures err { IfErr result (RefusesBy (Some Serves) (first_value (found_of found.now))) }
{
    let listen = required(found, "listen")?;
    let origin = required(found, "origin")?;
    if !is_origin(origin) {
        return Err(Refusal::Value(&ORIGIN));
    }
    let file = required(found, "record")?;
    let connections = connections_in(found)?;
    let settings = cache_in(alloc, found, KEYS_SERVED)?;
    Ok(Order::Serve(Serving {
        listen,
        origin,
        connections,
        file,
        settings,
    }))
}

// How many connections are served, which has to be said.
fn connections_in(found: &ArgMatches<'_>) -> Result<u64, Refusal>
    ensures ok { IfOk result (λ number. number_by (Number 1 greatest_number) (first_value (found_of found.now) (codes "connections")) ≡ Some (Some number)) }
    ensures err { IfErr result (RefusesBy (Some Serves) (first_value (found_of found.now))) }
{
    match number_if_given(found, &CONNECTIONS)? {
        Some(number) => Ok(number),
        None => Err(Refusal::Missing),
    }
}

// What `proxy` asks.
fn proxy_in<'a>(alloc: Global, found: &ArgMatches<'a>) -> Result<Order<'a>, Refusal>
    ensures ok { IfOk result (λ order. AsksBy (Some Proxies) (first_value (found_of found.now)) (task_of order)) }
    ensures all { IfOk result (ListensAt (all_values (found_of found.now) (codes "listen"))) }
    ensures err { IfErr result (RefusesBy (Some Proxies) (first_value (found_of found.now))) }
{
    let origin: &str = required(found, "origin")?;
    if !is_origin(origin) {
        return Err(Refusal::Value(&ORIGIN));
    }
    Ok(Order::Proxy(Proxying {
        origin,
        file: found.get_str("record"),
        log: found.get_str("access-log"),
        status: found.get_str("status"),
        terms: terms_in(found)?,
        limits: limits_in(found)?,
        keeps_cookies: flag_in(found, "store-set-cookie"),
        listens: listens_in(alloc, found)?,
        settings: cache_in(alloc, found, KEYS_PROXIED)?,
    }))
}

// Where clients connect to.
fn listens_in<'a>(alloc: Global, found: &ArgMatches<'a>) -> Result<Vec<&'a str>, Refusal>
    ensures ok { IfOk result (λ listens. first_value (found_of found.now) (codes "listen") ≡ Some (first_text listens.items)) }
    ensures all { IfOk result (λ listens. AreAll listens.items (all_values (found_of found.now) (codes "listen"))) }
    ensures err { IfErr result (RefusesBy (Some Proxies) (first_value (found_of found.now))) }
{
    let listens = named_listens(found)?;
    let copied = listens.to_vec(alloc)?;
    Ok(copied)
}

// The same, as the words have it: some place has to be named.
fn named_listens<'m, 'a>(found: &'m ArgMatches<'a>) -> Result<&'m [&'a str], Refusal>
    ensures ok { IfOk result (λ listens. first_value (found_of found.now) (codes "listen") ≡ Some (first_text listens.now)) }
    ensures all { IfOk result (λ listens. AreAll listens.now (all_values (found_of found.now) (codes "listen"))) }
    ensures err { IfErr result (λ refusal. (refusal ≡ Missing) × (first_value (found_of found.now) (codes "listen") ≡ None)) }
{
    let Some(listens) = found.get_strs("listen") else {
        return Err(Refusal::Missing);
    };
    if listens.is_empty() {
        return Err(Refusal::Missing);
    }
    Ok(listens)
}

// How far a proxy is to record.
fn terms_in(found: &ArgMatches<'_>) -> Result<RecordTerms, Refusal>
    ensures ok { IfOk result (AsksTerms (first_value (found_of found.now))) }
    ensures err { IfErr result (Refuses taken_by proxying (first_value (found_of found.now))) }
{
    let limit = number_if_given(found, &RECORD_LIMIT)?;
    let strict = flag_in(found, "record-strict");
    Ok(RecordTerms { strict, limit })
}

// Within which limits a proxy is asked for.
fn limits_in(found: &ArgMatches<'_>) -> Result<ProxyLimits, Refusal>
    ensures ok { IfOk result (AsksLimits (first_value (found_of found.now))) }
    ensures err { IfErr result (Refuses taken_by proxying (first_value (found_of found.now))) }
{
    Ok(ProxyLimits {
        connections: limit_in(found, &MAX_CONNECTIONS, 1_024)?,
        origin_connections: limit_in(found, &ORIGIN_CONNECTIONS, 100)?,
        held: limit_in(found, &HELD, 268_435_456)?,
        connect_timeout: limit_in(found, &CONNECT_TIMEOUT, 5)?,
        drain_timeout: limit_in(found, &DRAIN_TIMEOUT, 8)?,
        patience: patience_in(found)?,
        clients: number_if_given(found, &CLIENTS)?,
    })
}

// How long clients, and requests to the origin, may take.
fn patience_in(found: &ArgMatches<'_>) -> Result<ProxyPatience, Refusal>
    ensures ok { IfOk result (AsksPatience (first_value (found_of found.now))) }
    ensures err { IfErr result (Refuses taken_by proxying (first_value (found_of found.now))) }
{
    Ok(ProxyPatience {
        idle_timeout: limit_in(found, &IDLE_TIMEOUT, 75)?,
        request_timeout: limit_in(found, &REQUEST_TIMEOUT, 60)?,
        send_timeout: limit_in(found, &SEND_TIMEOUT, 60)?,
        queue_timeout: limit_in(found, &QUEUE_TIMEOUT, 5)?,
        origin_timeout: limit_in(found, &ORIGIN_TIMEOUT, 60)?,
        origin_total: limit_in(found, &ORIGIN_TOTAL, 600)?,
        abandoned: limit_in(found, &ABANDONED, 5)?,
    })
}

// The number of a limit, or the usual one without it.
fn limit_in(found: &ArgMatches<'_>, limit: &'static Row, usual: u64) -> Result<u64, Refusal>
    requires among { IsAmong (entry_of limit.now) proxying }
    requires numbers { TakesNumbers limit.now.takes }
    ensures ok { IfOk result (λ number. limit_in (first_value (found_of found.now)) (entry_of limit.now) usual ≡ Some number) }
    ensures err { IfErr result (Refuses taken_by proxying (first_value (found_of found.now))) }
{
    number_or(found, limit, usual)
}

/// The error of a command line that asks to hold a transcript against a baseline strictly, and names none.
pub fn without_baseline(alloc: Global) -> Result<Error, AllocError>
    ensures { IfOk result (λ error. kind_of error ≡ ErrorKind.MissingRequiredArgument) }
{
    usage_error(
        report_command(alloc),
        ErrorKind::MissingRequiredArgument,
        String::from_str(alloc, "--baseline-strict needs --baseline <FILE>"),
    )
}

/// The error of a command line that asks for a document in HTML and for another form beside it.
pub fn beside_html(alloc: Global) -> Result<Error, AllocError>
    ensures { IfOk result (λ error. kind_of error ≡ ErrorKind.ArgumentConflict) }
{
    usage_error(
        report_command(alloc),
        ErrorKind::ArgumentConflict,
        String::from_str(
            alloc,
            "--html goes without --json, --baseline, --junit and --annotations",
        ),
    )
}

/// The error of a command line that is not text.
pub fn not_text(alloc: Global) -> Result<Error, AllocError>
    ensures { IfOk result (λ error. kind_of error ≡ ErrorKind.ValueValidation) }
{
    usage_error(
        command(alloc),
        ErrorKind::ValueValidation,
        String::from_str(alloc, "invalid UTF-8 was detected in one or more arguments"),
    )
}
