//! What the parts of a case stand for.

use crate::asking::Unanswered;
use crate::escapes::unescaped;
use std::alloc::{AllocError, Global};
use std::fs;
use std::rt::Files;

/// The octets that a part stands for: those of a file for `@NAME`, a text so many times for
/// `*COUNT:TEXT`, with others around it for `*COUNT:TEXT:BEFORE:BEHIND`, and so many times again before each further one,
/// and else those of the text.
pub fn octets_of<R: Files + AllocGlobal>(rt: &R, part: &str) -> Result<Vec<u8>, Unanswered> {
    if let Some(name) = part.strip_prefix('@') {
        return Ok(fs::read(rt, name)?);
    }
    match part.strip_prefix('*') {
        Some(recipe) => repeated(rt, recipe),
        None => unescaped(rt.alloc(), part.as_bytes()),
    }
}

// The octets of a recipe: what stands before, the text so many times, what stands behind, and the text again before each
// further one.
fn repeated<R: AllocGlobal>(rt: &R, recipe: &str) -> Result<Vec<u8>, Unanswered> {
    let pieces: Vec<&str> = recipe.split(':').collect(rt.alloc())?;
    octets_by(rt.alloc(), pieces.as_slice())
}

// The octets of the pieces of a recipe.
fn octets_by(alloc: Global, pieces: &[&str]) -> Result<Vec<u8>, Unanswered> {
    let [count, text, others @ ..] = pieces else {
        return Err(Unanswered::Unknown);
    };
    let Ok(count) = count.parse::<u32>() else {
        return Err(Unanswered::Unknown);
    };
    let mut octets = Vec::new(alloc);
    append_recipe(alloc, &mut octets, count, text, others)?;
    Ok(octets)
}

fn append_recipe(
    alloc: Global,
    octets: &mut Vec<u8>,
    count: u32,
    text: &str,
    others: &[&str],
) -> Result<(), Unanswered> {
    let once = unescaped(alloc, text.as_bytes())?;
    append_around(alloc, octets, once.as_slice(), count, others)
}

fn append_around(
    alloc: Global,
    octets: &mut Vec<u8>,
    once: &[u8],
    count: u32,
    others: &[&str],
) -> Result<(), Unanswered> {
    let Some((before, behind)) = others.split_first() else {
        return Ok(append_times(octets, once, count)?);
    };
    append_unescaped(alloc, octets, before)?;
    append_times(octets, once, count)?;
    for (place, text) in behind.iter().enumerate() {
        if place > 0 {
            append_times(octets, once, count)?;
        }
        append_unescaped(alloc, octets, text)?;
    }
    Ok(())
}

// Appends the text so many times.
fn append_times(octets: &mut Vec<u8>, text: &[u8], count: u32) -> Result<(), AllocError> {
    for _ in 0..count {
        octets.extend_from_slice(text)?;
    }
    Ok(())
}

fn append_unescaped(alloc: Global, octets: &mut Vec<u8>, text: &str) -> Result<(), Unanswered> {
    let text = unescaped(alloc, text.as_bytes())?;
    octets.extend_from_slice(text.as_slice())?;
    Ok(())
}
