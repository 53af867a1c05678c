//! What the program that only audits does, over any system and any two writers.
ghost use Rattle.std.specs.Prelude.{◌≡◌, ◌⊎◌, ◌∷◌, [], codes, map};
ghost use Rattle.clap.specs.Words.{Text, fault_of};
ghost use Rattle.hc_options.specs.declared.auditing.AuditTerms.{AuditTerms};
ghost use Rattle.hc_options.specs.Auditing.{AsksToAudit, no_minimums};
ghost use Rattle.hc_options.specs.Commands.{IsWord, auditing};
ghost use Rattle.hc_auditing.specs.Audit.{Answers};
ghost use Rattle.hc_auditing.specs.Ends.{EndsAudit, EndsUnasked};

use crate::auditing::audit;
use crate::opening::{input_name, input_of};
use crate::trouble::Trouble;
use crate::usage::shown;
use clap::Error;
use hc_options::{AuditTerms, audit_asked, not_text};
use std::alloc::AllocError;
use std::convert::AsStr;
use std::io::{ErrorKind, Input, Write};
use std::rt::{Env, Files};
use std::{env, io};

/// Does what the program's own arguments ask, and returns its exit status.
pub fn status<R, W: Write, E: Write>(rt: &R, output: &mut W, faults: &mut E) -> u8
where
    R: Env + Files + Input + AllocGlobal,
    ensures { EndsAudit result (W.contents output.old) (W.contents output.new)
        (E.contents faults.old) (E.contents faults.new) }
{
    match words_of(rt) {
        Ok(words) => answered(rt, words.as_slice(), output, faults),
        Err(error) => unread(&error, not_text(rt.alloc()), output, faults),
    }
}

/// The program's name and its arguments. One that is not text is an error.
pub fn words_of<R: Env + AllocGlobal>(rt: &R) -> io::Result<Vec<String>> {
    Ok(env::args(rt)?.collect(rt.alloc())?)
}

/// Says why the program's own arguments can't be read: memory was refused, or one of them is not text, as `not_text`
/// says. Returns the exit status.
pub fn unread<W: Write, E: Write>(
    error: &io::Error,
    not_text: Result<Error, AllocError>,
    output: &mut W,
    faults: &mut E,
) -> u8
    ensures { EndsUnasked result (W.contents output.old) (W.contents output.new)
        (E.contents faults.old) (E.contents faults.new) }
{
    match not_text {
        Ok(mistake) if error.kind() != ErrorKind::OutOfMemory => shown(&mistake, output, faults),
        Ok(_) | Err(_) => Trouble::Memory.told("", faults),
    }
}

/// Does what the words ask, of which the first is the program's name, and returns the exit status.
///
/// A transcript is read from the system. The line of a verdict, help or the version goes to `output`, and what went
/// wrong to `faults`.
pub fn answered<R, S: AsStr, W: Write, E: Write>(
    rt: &R,
    words: &[S],
    output: &mut W,
    faults: &mut E,
) -> u8
where
    R: Files + Input + AllocGlobal,
    // `audit FILE` is answered by an audit, and by no usage error.
    ensures audit { (name file : Text) → IsWord file
        → map S.text words.now ≡ name ∷ codes "audit" ∷ file ∷ []
        → Answers no_minimums result (W.contents output.old) (W.contents output.new)
        (E.contents faults.old) (E.contents faults.new) }

    // So are other words that ask for one, and have no fault.
    ensures asked { (file : Text) (terms : AuditTerms) → fault_of auditing (map S.text words.now) ≡ []
        → AsksToAudit (map S.text words.now) file terms
        → Answers terms.minimums result (W.contents output.old) (W.contents output.new)
        (E.contents faults.old) (E.contents faults.new) }
    ensures ends { EndsAudit result (W.contents output.old) (W.contents output.new)
        (E.contents faults.old) (E.contents faults.new) }
{
    match audit_asked(rt.alloc(), words) {
        Ok(order) => audited(rt, order.file, order.terms, output, faults),
        Err(error) => shown(&error, output, faults),
    }
}

/// Audits the file, or standard input for `-`, and returns the exit status.
pub fn audited<R, W: Write, E: Write>(
    rt: &R,
    file: &str,
    terms: AuditTerms,
    output: &mut W,
    faults: &mut E,
) -> u8
where
    R: Files + Input + AllocGlobal,
    ensures { Answers terms.minimums result (W.contents output.old) (W.contents output.new)
        (E.contents faults.old) (E.contents faults.new) }
{
    match input_of(rt, file) {
        Ok(mut input) => audit(
            rt.alloc(),
            terms,
            input_name(file),
            &mut input,
            output,
            faults,
        ),
        Err(error) => Trouble::Device(error).told(file, faults),
    }
}
