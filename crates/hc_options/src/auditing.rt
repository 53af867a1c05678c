//! What the words of `audit` ask.

ghost use Rattle.std.specs.Prelude.{◌≡◌, ◌∷◌, [], IfErr, IfOk, MatchResult, codes, map};
ghost use Rattle.clap.specs.Words.{HasKind, Text, fault_of, first_value, found_of, kind_of, subcommand_of, subcommand_rows_of};
ghost use Rattle.hc_options.specs.Auditing.{AreRefused, AreRefusedIn, AsksAuditTerms, AsksMinimums, AsksToAudit, plain_audit};
ghost use Rattle.hc_options.specs.Auditing.{AsksAudit};
ghost use Rattle.hc_options.specs.Commands.{IsWord, auditing, value_in};
ghost use Rattle.hc_options.specs.Refusals.{Refuses};
ghost use Rattle.hc_options.specs.Rows.{audit_entries, counting, is_taken, terms};

use crate::commands::{audit_command, auditing_command};
use crate::finding::{count_or_zero, required};
use crate::refusal::{Refusal, usage_error};
use crate::settings::settings_in;
use crate::tables::{MIN_HITS, MIN_JUDGED};
use clap::error::ErrorKind;
use clap::{ArgMatches, Error};
use hc_history::Settings;
use std::alloc::{AllocError, Global};
use std::convert::AsStr;

/// To audit a transcript.
#[derive(Drop)]
pub struct AuditOrder<'a> {
    /// Where it is: the name of a file, or `-` for standard input.
    pub file: &'a str,
    /// On what terms it is audited.
    pub terms: AuditTerms,
}

/// On what terms an audit says yes.
#[derive(Drop)]
pub struct AuditTerms {
    /// What lets replies pass.
    pub settings: Settings,
    /// How many replies it has to judge.
    pub minimums: Minimums,
}

/// How many replies of a transcript have to be judged at least, so that it tells something that they are right.
#[derive(Clone, Copy)]
pub struct Minimums {
    /// How many hits there have to be, from 0 to 2,147,483,648.
    pub hits: u32,
    /// How many hits and forwarded replies there have to be together, from 0 to 2,147,483,648.
    pub judged: u32,
}

/// What the words ask of the program that only audits. The first word is the program's name.
///
/// An `Err` is a mistake in the words, memory that was refused, or a call for help or the version,
/// and it displays the text to print.
pub fn audit_asked<'a, S: AsStr>(alloc: Global, words: &'a [S]) -> Result<AuditOrder<'a>, Error>
    // `audit FILE` gives that FILE and the plain settings, and fails only where memory is refused.
    ensures audit { (name file : Text) → IsWord file
        → map S.text words.entry.now ≡ name ∷ codes "audit" ∷ file ∷ []
        → MatchResult result (λ order. (order.file.now ≡ file) × (order.terms ≡ plain_audit))
        (λ error. kind_of error ≡ ErrorKind.OutOfMemory) }

    // Other words give what they say, where the command line has no fault and the values are in their ranges.
    ensures asked { IfOk result (λ order. AsksToAudit (map S.text words.entry.now) order.file.now order.terms) }
    ensures taken { IfOk result (λ _. fault_of auditing (map S.text words.entry.now) ≡ []) }
    ensures refused { IfErr result (AreRefused (map S.text words.entry.now)) }
{
    asked(alloc, words)
}

// The same of any words, of which `audit_asked` tells more where they are plain.
fn asked<'a, S: AsStr>(alloc: Global, words: &'a [S]) -> Result<AuditOrder<'a>, Error>
    ensures asked { IfOk result (λ order. AsksToAudit (map S.text words.entry.now) order.file.now order.terms) }
    ensures taken { IfOk result (λ _. fault_of auditing (map S.text words.entry.now) ≡ []) }
    ensures refused { IfErr result (AreRefused (map S.text words.entry.now)) }
{
    let matches = matches_of(alloc, words)?;
    asked_in(alloc, &matches)
}

// What a parse finds in the words.
fn matches_of<'a, S: AsStr>(alloc: Global, words: &'a [S]) -> Result<ArgMatches<'a>, Error>
    ensures found { IfOk result (λ matches. subcommand_rows_of matches ≡ subcommand_of auditing (map S.text words.entry.now)) }
    ensures taken { IfOk result (λ _. fault_of auditing (map S.text words.entry.now) ≡ []) }
    ensures refused { IfErr result (HasKind (fault_of auditing (map S.text words.entry.now))) }
{
    auditing_command(alloc)?.try_get_matches_from(words)
}

// What the subcommand asks, or the error that says why it asks nothing.
fn asked_in<'a>(alloc: Global, matches: &ArgMatches<'a>) -> Result<AuditOrder<'a>, Error>
    ensures ok { IfOk result (λ order. AsksAudit (value_in (subcommand_rows_of matches.now)) order.file.now order.terms) }
    ensures err { IfErr result (AreRefusedIn (subcommand_rows_of matches.now)) }
{
    match order_in(alloc, matches) {
        Ok(order) => Ok(order),
        Err(refusal) => Err(refusal.error(alloc, audit_command(alloc))?),
    }
}

// What the subcommand asks, which is `audit`, since there is no other.
fn order_in<'a>(alloc: Global, matches: &ArgMatches<'a>) -> Result<AuditOrder<'a>, Refusal>
    ensures ok { IfOk result (λ order. AsksAudit (value_in (subcommand_rows_of matches.now)) order.file.now order.terms) }
    ensures err { IfErr result (Refuses is_taken audit_entries (value_in (subcommand_rows_of matches.now))) }
{
    match matches.subcommand() {
        Some((_, found)) => audit_in(alloc, found),
        None => Err(Refusal::Missing),
    }
}

// What `audit` asks.
fn audit_in<'a>(alloc: Global, found: &ArgMatches<'a>) -> Result<AuditOrder<'a>, Refusal>
    ensures ok { IfOk result (λ order. AsksAudit (first_value (found_of found.now)) order.file.now order.terms) }
    ensures err { IfErr result (Refuses is_taken audit_entries (first_value (found_of found.now))) }
{
    let file = required(found, "FILE")?;
    let terms = audit_terms_in(alloc, found)?;
    Ok(AuditOrder { file, terms })
}

/// On what terms a command that judges all replies says yes.
pub fn audit_terms_in(alloc: Global, found: &ArgMatches<'_>) -> Result<AuditTerms, Refusal>
    ensures ok { IfOk result (AsksAuditTerms (first_value (found_of found.now))) }
    ensures err { IfErr result (Refuses is_taken terms (first_value (found_of found.now))) }
{
    let settings = settings_in(alloc, found)?;
    let minimums = minimums_in(found)?;
    Ok(AuditTerms { settings, minimums })
}

/// How many replies a command that judges all has to judge.
pub fn minimums_in(found: &ArgMatches<'_>) -> Result<Minimums, Refusal>
    ensures ok { IfOk result (AsksMinimums (first_value (found_of found.now))) }
    ensures err { IfErr result (Refuses is_taken counting (first_value (found_of found.now))) }
{
    Ok(Minimums {
        hits: count_or_zero(found, &MIN_HITS)?,
        judged: count_or_zero(found, &MIN_JUDGED)?,
    })
}

/// The error of a command line that is not text.
pub fn not_text(alloc: Global) -> Result<Error, AllocError>
    ensures { IfOk result (λ error. kind_of error ≡ ErrorKind.ValueValidation) }
{
    usage_error(
        auditing_command(alloc),
        ErrorKind::ValueValidation,
        String::from_str(alloc, "invalid UTF-8 was detected in one or more arguments"),
    )
}
