//! The words that ask about a transcript.

use crate::commands_words::push_words;
use hc_arguments::{Order, parsed};
use hc_cases::Unanswered;
use hc_history::Settings;
use std::alloc::Global;

/// What the transcript is called, where the program has to name it.
const FILE: &str = "transcript";

/// The words that ask for an audit without options.
pub(crate) fn plain_words() -> [&'static str; 3] {
    ["hcache", "audit", FILE]
}

/// The words that ask for an audit by the parts of a case, each of them a word.
pub(crate) fn words_of(alloc: Global, parts: &[Vec<u8>]) -> Result<Vec<&str>, Unanswered> {
    words_for(alloc, "audit", parts)
}

/// The words that ask for that by the parts of a case, each of them a word.
pub(crate) fn words_for<'a>(
    alloc: Global,
    command: &'a str,
    parts: &'a [Vec<u8>],
) -> Result<Vec<&'a str>, Unanswered> {
    let mut words = Vec::new(alloc);
    for word in ["hcache", command, FILE] {
        words.push(word)?;
    }
    push_words(parts, &mut words)?;
    Ok(words)
}

/// What the words let pass, where they ask for an audit.
pub(crate) fn settings_of(alloc: Global, words: &[&str]) -> Option<Settings> {
    match parsed(alloc, words) {
        Ok(Order::Audit { terms, .. }) => Some(terms.settings),
        _ => None,
    }
}
