//! What is shown where the words of a command line ask for nothing to be done.
ghost use Rattle.std.specs.Prelude.{◌≡◌};
ghost use Rattle.std.specs.Io.KnownBytes.{Keeps};
ghost use Rattle.clap.specs.Words.{kind_of};
ghost use Rattle.hc_options.specs.Commands.{IsErrorStatus};
ghost use Rattle.hc_auditing.specs.Ends.{EndsUnasked};

use crate::print::printed;
use crate::trouble::Trouble;
use clap::Error;
use clap::error::ErrorKind;
use std::io::Write;

const USAGE: &str =
    "\nUsage: hcache audit [OPTIONS] <FILE>\n       hcache report [OPTIONS] <FILE>\n       \
    hcache explain [OPTIONS] <FILE> [POSITION]\n       hcache show <FILE> <POSITION[-POSITION]>\n       \
    hcache replay <FILE>\n       \
    hcache serve [OPTIONS] --listen <HOST:PORT> --origin <HOST:PORT> --connections <N> --record <FILE>\n       \
    hcache proxy [OPTIONS] --listen <ADDRESS> --origin <HOST:PORT>\n       \
    hcache convert <FILE>\n       \
    hcache split <FILE> <N> <DIR>\n       \
    hcache join [OPTIONS] <DIR>\n";

/// Shows an error of the parse: help and the version on `output`, and a mistake on `faults`. Returns the
/// exit status.
pub fn shown<W: Write, E: Write>(error: &Error, output: &mut W, faults: &mut E) -> u8
    ensures status { IsErrorStatus (kind_of error.now) result }
    ensures memory { kind_of error.now ≡ ErrorKind.OutOfMemory → Keeps (W.contents output.old) (W.contents output.new) }
    ensures mistake { result ≡ 64 → Keeps (W.contents output.old) (W.contents output.new) }
    ensures asked { result ≡ 0 → Keeps (E.contents faults.old) (E.contents faults.new) }
    ensures ends { EndsUnasked result (W.contents output.old) (W.contents output.new)
        (E.contents faults.old) (E.contents faults.new) }
{
    match error.kind() {
        ErrorKind::OutOfMemory => Trouble::Memory.told("", faults),
        ErrorKind::DisplayHelp | ErrorKind::DisplayVersion => match printed(error, output) {
            Ok(()) => 0,
            Err(error) => Trouble::Output(error).told("", faults),
        },
        // Of the errors of a parse these alone don't show the usage.
        ErrorKind::InvalidValue => {
            let _ = printed(error, faults);
            let _ = printed(USAGE, faults);
            64
        }
        _ => {
            let _ = printed(error, faults);
            64
        }
    }
}
