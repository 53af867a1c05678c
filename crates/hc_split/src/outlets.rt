//! Where the records of a part go.

ghost use Rattle.std.specs.Prelude.{◌≡◌, ◌++◌, ◌∷◌, ℕ, [], OnOk, IfOk, decimal, if◌then◌else◌, ◌==◌};
ghost use Rattle.std.specs.Io.KnownBytes.{Appends};
ghost use Rattle.hc_transcript.specs.Records.{opening};
ghost use Rattle.hc_split.specs.Outlets.{position_line, table_of, text_of};

use crate::tally::Tally;
use hc_transcript::Format;
use itoa::Buffer;
use std::io;
use std::io::Write;

/// Where the octets of a part go, and its table, which has the position in the whole of each of its records, a line each.
pub struct Outlet<W> {
    text: W,
    table: W,
    tally: Tally,
}

impl<W: Drop> Drop for Outlet<W> {
    fn drop(self) {
        let Outlet { text, table, tally } = self;
        drop(text);
        drop(table);
        drop(tally);
    }
}

impl<W: Write + Drop> Outlet<W> {
    /// A part of that format without a record: its opening alone.
    pub fn new(format: Format, mut text: W, table: W) -> io::Result<Self>
        ensures text { IfOk result (λ outlet. Appends (W.contents text) (W.contents outlet.text) (opening format)) }
        ensures table { IfOk result (λ outlet. outlet.table ≡ table) }
    {
        text.write_all(format.opening())?;
        let mut tally = Tally::new();
        tally.add_text(format.opening());
        Ok(Outlet { text, table, tally })
    }

    // Puts the octets of a record, which has that position in the whole, behind those before it.
    fn put(&mut self, position: u64, octets: &[u8]) -> io::Result<()>
        ensures text { OnOk result (Appends (W.contents self.old.text) (W.contents self.new.text) octets.now) }
        ensures table { OnOk result (Appends (W.contents self.old.table) (W.contents self.new.table) (position_line position)) }
    {
        let mut buffer = Buffer::new();
        let line = buffer.format(position).as_bytes();
        self.text.write_all(octets)?;
        self.table.write_all(line)?;
        self.table.write_all(b"\n")?;
        self.tally.add_text(octets);
        self.tally.add_table(line);
        self.tally.add_table(b"\n");
        Ok(())
    }

    /// Hands all octets on that wait in a buffer, and tells what has gone into the part.
    pub fn close(mut self) -> io::Result<Tally> {
        self.flush()?;
        let Outlet { text, table, tally } = self;
        drop(text);
        drop(table);
        Ok(tally)
    }

    fn flush(&mut self) -> io::Result<()> {
        self.text.flush()?;
        self.table.flush()
    }
}

/// Puts the octets of a record, which has that position in the whole, into the part of that number.
pub fn give<W: Write + Drop>(
    outlets: &mut [Outlet<W>],
    part: usize,
    position: u64,
    octets: &[u8],
) -> io::Result<()>
    ensures texts { OnOk result ((k : ℕ) → Appends (text_of W.contents outlets.old k) (text_of W.contents outlets.new k)
        (if part == k then octets.now else [])) }
    ensures tables { OnOk result ((k : ℕ) → Appends (table_of W.contents outlets.old k) (table_of W.contents outlets.new k)
        (if part == k then position_line position else [])) }
{
    if part >= outlets.len() {
        return Err(io::Error::other("there is no such part"));
    }
    outlets[part].put(position, octets)
}
