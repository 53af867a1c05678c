//! Text on a writer.
ghost use Rattle.std.specs.Prelude.{IfSome, OnOk};
ghost use Rattle.std.specs.Io.KnownBytes.{Appends};

use std::fmt::Display;
use std::io;
use std::io::Write;

/// Writes the text on `to` and flushes it. After an error some of the text may be written.
pub fn printed<D: Display + Drop, W: Write>(text: D, to: &mut W) -> io::Result<()>
    ensures { OnOk result (IfSome (D.output text)
        (Appends (W.contents to.old) (W.contents to.new))) }
{
    to.write_fmt(text)?;
    to.flush()
}
