//! The words of a line.

use hc_cases::Unanswered;

/// The words of a line, with a blank behind each.
#[derive(Clone, Copy)]
pub(crate) struct Words<'a> {
    rest: &'a str,
}

impl<'a> Words<'a> {
    pub(crate) fn of(line: &'a str) -> Self {
        Words { rest: line }
    }

    /// The next word, which is taken out; behind the last one it is empty.
    pub(crate) fn next(&mut self) -> &'a str {
        let (word, rest) = self.rest.split_once(' ').unwrap_or((self.rest, ""));
        self.rest = rest;
        word
    }

    /// The number that the next word is.
    pub(crate) fn number(&mut self) -> Result<u64, Unanswered> {
        match self.next().parse::<u64>() {
            Ok(number) => Ok(number),
            Err(_) => Err(Unanswered::Unknown),
        }
    }

    /// All that stands behind the words that were taken out.
    pub(crate) fn rest(&self) -> &'a str {
        self.rest
    }
}
