//! Answers in a row.

use crate::verdicts_tellers::Teller;
use hc_cases::Unanswered;
use std::alloc::{AllocError, Global};
use std::fmt::Write;

/// Writes answers in a row: the first, and each other that isn't the one before it, with its place.
#[derive(Drop)]
pub struct Runs<'a> {
    last: Option<String>,
    out: &'a mut String,
}

impl<'a> Runs<'a> {
    /// No answer yet.
    pub fn new(out: &'a mut String) -> Self {
        Runs { last: None, out }
    }

    /// Adds what is told, at a place, of the octets that the pieces make.
    pub fn tell(
        &mut self,
        alloc: Global,
        teller: &Teller<'_>,
        at: usize,
        pieces: &[&[u8]],
    ) -> Result<(), Unanswered> {
        let mut answer = String::new(alloc);
        teller.tell(alloc, pieces, &mut answer)?;
        Ok(self.add(at, answer)?)
    }

    // Adds the answer at a place.
    fn add(&mut self, at: usize, answer: String) -> Result<(), AllocError> {
        match &self.last {
            None => self.out.push_str(answer.as_str())?,
            Some(last) => say_change(last.as_str(), at, answer.as_str(), self.out)?,
        }
        self.last = Some(answer);
        Ok(())
    }
}

fn say_change(last: &str, at: usize, answer: &str, out: &mut String) -> Result<(), AllocError> {
    if last == answer {
        return Ok(());
    }
    write!(out, ", from {at} {answer}")
}
