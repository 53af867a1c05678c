//! What stands in heads that a cache has written: each line of one ends with a carriage return and a line feed.

use memchr::memchr;

/// So many lines of a head are looked at, more than one has.
const MOST_LINES: usize = 256;

/// A line without its end, and what follows it. None behind the last line of a head.
fn next_line(text: &[u8]) -> Option<(&[u8], &[u8])> {
    let (line, rest) = text.split_at_checked(memchr(b'\n', text)?)?;
    let line = line.strip_suffix(b"\r")?;
    if line.is_empty() {
        return None;
    }
    Some((line, rest.strip_prefix(b"\n")?))
}

/// The first line of a head without its end.
pub(crate) fn first_line(head: &[u8]) -> &[u8] {
    match next_line(head) {
        Some((line, _)) => line,
        None => b"",
    }
}

/// What stands in the head of a reply.
#[derive(Clone, Copy)]
pub struct ReplyHead<'a> {
    /// The three digits of its status.
    pub status: &'a [u8],
    /// The value of its last Cache-Status; empty where there is none.
    pub mark: &'a [u8],
    /// How many octets it has.
    pub len: usize,
}

/// What stands in the head of a reply that begins with it.
pub fn reply_head(text: &[u8]) -> ReplyHead<'_> {
    let mut mark: &[u8] = b"";
    let mut rest = text;
    'lines: for _ in 0..MOST_LINES {
        let Some((line, behind)) = next_line(rest) else {
            break;
        };
        if let Some(found) = value_in(line, b"cache-status") {
            mark = found;
        }
        rest = behind;
    }
    ReplyHead {
        status: text.get(9..12).unwrap_or(b""),
        mark,
        len: text.len().saturating_sub(rest.len()).saturating_add(2),
    }
}

/// What a request tells of where it comes from.
#[derive(Clone, Copy)]
pub(crate) struct Sender<'a> {
    pub(crate) referer: &'a [u8],
    pub(crate) agent: &'a [u8],
}

/// The values of the last Referer and of the last User-Agent in a head; empty where there is none.
pub(crate) fn sender_in(head: &[u8]) -> Sender<'_> {
    let mut sender = Sender {
        referer: b"",
        agent: b"",
    };
    let mut rest = head;
    'lines: for _ in 0..MOST_LINES {
        let Some((line, behind)) = next_line(rest) else {
            return sender;
        };
        if let Some(agent) = value_in(line, b"user-agent") {
            sender.agent = agent;
        } else if let Some(referer) = value_in(line, b"referer") {
            sender.referer = referer;
        }
        rest = behind;
    }
    sender
}

/// The value of a line, if it has that name, which is written in small letters.
fn value_in<'a>(line: &'a [u8], name: &[u8]) -> Option<&'a [u8]> {
    // Most lines have another first letter.
    if line.first()?.to_ascii_lowercase() != *name.first()? {
        return None;
    }
    let (first, rest) = line.split_at_checked(name.len())?;
    if !first.eq_ignore_ascii_case(name) {
        return None;
    }
    let value = rest.strip_prefix(b":")?;
    Some(value.trim_ascii())
}
