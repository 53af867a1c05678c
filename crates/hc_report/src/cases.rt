//! Wrong replies as cases of a test in JUnit's XML, named by the rule, the method and the target, and as annotations: commands
//! of GitHub's workflows, a line each.

use crate::made::shown;
use hc_figures::{Baseline, ListedReply, ShownRequest, Tally};
use hc_history::{Ending, WrongReply};
use hc_shown::{Page, Teller};
use std::alloc::{AllocError, Global};

/// How many wrong replies are annotated at most.
const MOST_ANNOTATED: u64 = 1_000;

/// What would be markup in a text, and the entities for it.
const ENTITIES: [(char, &str); 5] = [
    ('&', "&amp;"),
    ('<', "&lt;"),
    ('>', "&gt;"),
    ('"', "&quot;"),
    ('\'', "&apos;"),
];

/// What would end the value of a property, and what stands for it. All but the last two would end a message, too.
const ENDS: [(char, &str); 5] = [
    ('%', "%25"),
    ('\r', "%0D"),
    ('\n', "%0A"),
    (':', "%3A"),
    (',', "%2C"),
];

/// The wrong replies as cases of a test, if they are asked for: each with what is shown of the request that it answers.
#[derive(Drop)]
pub(crate) struct Cases {
    alloc: Global,
    are_asked: bool,
    replies: Vec<ListedReply>,
}

impl Cases {
    /// No case.
    pub(crate) fn new(alloc: Global, are_asked: bool) -> Self {
        Cases {
            alloc,
            are_asked,
            replies: Vec::new(alloc),
        }
    }

    /// Takes in the next one.
    pub(crate) fn take(
        &mut self,
        wrong: WrongReply,
        request: ShownRequest,
    ) -> Result<(), AllocError> {
        if self.are_asked {
            self.replies.push(ListedReply { wrong, request })?;
        }
        Ok(())
    }

    /// Writes them as a suite, for a recording of that name that ends so. A case is skipped if the baseline has it, which has
    /// so many of them.
    pub(crate) fn say_suite(
        &self,
        name: &str,
        known: u64,
        baseline: Option<&Baseline>,
        ending: Ending,
        page: &mut Page,
    ) -> Result<(), AllocError> {
        let broken = u64::from(ending != Ending::Whole);
        let wrong = self.replies.len() as u64;
        let cases = wrong.saturating_add(broken).max(1);
        let failures = wrong.saturating_sub(known).saturating_add(broken);
        page.words("<?xml version=\"1.0\" encoding=\"UTF-8\"?>\n<testsuites>\n<testsuite name=\"");
        say_escaped(
            shown(self.alloc, name.as_bytes())?.as_str(),
            &ENTITIES,
            page,
        );
        page.count("\" tests=\"", cases, "");
        page.count("\" failures=\"", failures, "");
        page.count("\" errors=\"0\" skipped=\"", known, "\">\n");
        let mut told = Tally::new(self.alloc);
        for reply in self.replies.iter() {
            let is_known = self.is_known(baseline, reply, &mut told)?;
            say_case(reply, is_known, page);
        }
        say_end(wrong == 0, ending, page);
        Ok(())
    }

    /// Writes those that the baseline hasn't as annotations of the file of that name, for a recording that ends so.
    pub(crate) fn annotate(
        &self,
        file: &str,
        baseline: Option<&Baseline>,
        ending: Ending,
        page: &mut Page,
    ) -> Result<(), AllocError> {
        let mut told = Tally::new(self.alloc);
        let mut new: u64 = 0;
        for reply in self.replies.iter() {
            if self.is_known(baseline, reply, &mut told)? {
                continue;
            }
            new = new.saturating_add(1);
            if new <= MOST_ANNOTATED {
                annotate_one(file, reply, page);
            }
        }
        annotate_rest(new.saturating_sub(MOST_ANNOTATED), file, ending, page);
        Ok(())
    }

    // Whether the baseline has the next one after those that were told: of each kind it has the first ones, as many as it counts.
    fn is_known(
        &self,
        baseline: Option<&Baseline>,
        reply: &ListedReply,
        told: &mut Tally,
    ) -> Result<bool, AllocError> {
        let Some(baseline) = baseline else {
            return Ok(false);
        };
        let kind = reply.request.kind(self.alloc, reply.wrong.reason)?;
        told.take(kind.as_str())?;
        Ok(told.count(kind.as_str()) <= baseline.count(kind.as_str()))
    }
}

fn say_case(reply: &ListedReply, is_known: bool, page: &mut Page) {
    page.words("<testcase classname=\"");
    say_escaped(reply.wrong.reason.name(), &ENTITIES, page);
    page.words("\" name=\"");
    say_escaped(reply.request.method.as_str(), &ENTITIES, page);
    page.words(" ");
    say_escaped(reply.request.target.as_str(), &ENTITIES, page);
    let what = if is_known {
        "\"><skipped message=\"in the baseline, at "
    } else {
        "\"><failure message=\"wrong, at "
    };
    page.count(what, reply.wrong.position, "\"/></testcase>\n");
}

// Ends the suite: where the recording breaks, by the case of that, and where there is no other case, by one that is right.
fn say_end(is_empty: bool, ending: Ending, page: &mut Page) {
    match ending {
        Ending::Broken(position, fault) => {
            page.words("<testcase classname=\"");
            say_escaped(fault.name(), &ENTITIES, page);
            let what = "\" name=\"the recording\"><failure message=\"malformed, at ";
            page.count(what, position, "\"/></testcase>\n");
        }
        Ending::Whole if is_empty => {
            page.words("<testcase classname=\"hcache\" name=\"every reply is right\"/>\n");
        }
        Ending::Whole => {}
    }
    page.words("</testsuite>\n</testsuites>\n");
}

// Writes a text, with what stands for a character in place of each that the table has.
fn say_escaped(text: &str, table: &[(char, &str)], page: &mut Page) {
    for character in text.chars() {
        match stand_in(character, table) {
            Some(word) => page.words(word),
            None => {
                let mut octets = [0_u8; 4];
                page.words(character.encode_utf8(&mut octets));
            }
        }
    }
}

fn stand_in<'a>(character: char, table: &[(char, &'a str)]) -> Option<&'a str> {
    for (known, word) in table {
        if *known == character {
            return Some(word);
        }
    }
    None
}

fn annotate_one(file: &str, reply: &ListedReply, page: &mut Page) {
    begin_annotation(file, reply.wrong.reason.name(), page);
    say_escaped(reply.request.method.as_str(), &ENDS[..3], page);
    page.words(" ");
    say_escaped(reply.request.target.as_str(), &ENDS[..3], page);
    page.count(" at ", reply.wrong.position, "\n");
}

// Writes that there are so many more, if there are any, and where the recording breaks, if it does.
fn annotate_rest(more: u64, file: &str, ending: Ending, page: &mut Page) {
    if more != 0 {
        begin_annotation(file, "hcache", page);
        page.count("", more, " more wrong replies\n");
    }
    if let Ending::Broken(position, fault) = ending {
        begin_annotation(file, fault.name(), page);
        page.count("malformed at ", position, "\n");
    }
}

// Writes what stands before a message: the command with its properties.
fn begin_annotation(file: &str, title: &str, page: &mut Page) {
    page.words("::error file=");
    say_escaped(file, &ENDS, page);
    page.words(",title=");
    say_escaped(title, &ENDS, page);
    page.words("::");
}
