//! Many connections that ask for the same at once.

use crate::commands_tasks::number_of;
use crate::program::written_of;
use hc_cases::Unanswered;
use std::alloc::{AllocError, Global};
use std::fmt::Write;

/// How such a script begins.
const SETTINGS: &str = "HCS1\nsettings 2 100000\n";

/// What each connection asks, and how long that is.
const ASKS: &str = "1000 28\nGET /a HTTP/1.1\r\nhost: h\r\n\r\n\n";

/// What the origin answers, and how long that is.
const ANSWERS: &str =
    "1000 105\nHTTP/1.1 200 \r\ndate: Thu, 01 Jan 1970 00:16:40 GMT\r\ncache-control: max-age=60\r\ncontent-length: 5\r\n\r\nhello\n";

/// Writes what comes of a script in which many connections ask for the same at once, and then as many forwards are
/// answered as are said: the line, and the exit status.
pub(crate) fn say_burst(
    alloc: Global,
    connections: &[u8],
    parts: &[Vec<u8>],
    out: &mut String,
) -> Result<(), Unanswered> {
    let [forwards] = parts else {
        return Err(Unanswered::Unknown);
    };
    let (connections, forwards) = (number_of(connections)?, number_of(forwards.as_slice())?);
    let mut script = String::from_str(alloc, SETTINGS)?;
    ask_and_answer(connections, forwards, &mut script)?;
    let words = ["hcache", "replay", "script"];
    written_of(alloc, &words, &[script.as_bytes()])?.say_fault(out)
}

fn ask_and_answer(connections: u64, forwards: u64, script: &mut String) -> Result<(), AllocError> {
    for connection in 1..=connections {
        write!(script, "open {connection} 1000\nclient {connection} {ASKS}")?;
    }
    for forward in 1..=forwards {
        write!(script, "origin {forward} {ANSWERS}")?;
    }
    Ok(())
}
