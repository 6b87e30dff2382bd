//! The lines of a case that say how its next script is run.

use crate::case::{Place, RunOptions, WhenFull};
use crate::fault::CaseFault;
use crate::notation::number_of;
use std::alloc::Global;

/// Takes a line that says how the next script is run; returns false if it is another line.
pub fn take_option(
    alloc: Global,
    options: &mut RunOptions,
    word: &str,
    rest: &str,
) -> Result<bool, CaseFault> {
    match word {
        "program" => options.arguments = Some(arguments_of(alloc, rest)?),
        "status" => options.status = status_of(alloc, rest)?,
        "faults" => options.faults = faults_of(alloc, rest)?,
        "reads" => options.at_most = Some(number_after(alloc, "of ", rest)?),
        "reader" => options.reader_fails = place_after(alloc, "fails ", rest)?,
        "writer" => take_writer(alloc, options, rest)?,
        "errors" => options.faults_limit = Some(number_after(alloc, "take ", rest)?),
        "past" => options.is_past_limits = past_of(alloc, rest)?,
        _ => return Ok(false),
    }
    Ok(true)
}

/// Returns the arguments in a text, with single spaces between them; `""` is an empty one.
fn arguments_of(alloc: Global, text: &str) -> Result<Vec<String>, CaseFault> {
    let mut arguments = Vec::new(alloc);
    for word in text.split_whitespace() {
        let argument = if word == "\"\"" { "" } else { word };
        arguments.push(String::from_str(alloc, argument)?)?;
    }
    Ok(arguments)
}

fn status_of(alloc: Global, text: &str) -> Result<u8, CaseFault> {
    match text.parse() {
        Ok(status) => Ok(status),
        Err(_) => Err(CaseFault::unreadable(alloc, text)),
    }
}

/// Returns the text as a line.
fn faults_of(alloc: Global, text: &str) -> Result<String, CaseFault> {
    Ok(format!(in alloc; "{text}\n")?)
}

/// Returns the number after these words.
fn number_after(alloc: Global, before: &str, text: &str) -> Result<usize, CaseFault> {
    match text.strip_prefix(before) {
        Some(number) => number_of(alloc, number),
        None => Err(CaseFault::unreadable(alloc, text)),
    }
}

/// Returns the place after these words: `after 30` or `anywhere`.
fn place_after(alloc: Global, before: &str, text: &str) -> Result<Place, CaseFault> {
    match text.strip_prefix(before) {
        Some("anywhere") => Ok(Place::Anywhere),
        Some(place) => Ok(Place::After(number_after(alloc, "after ", place)?)),
        None => Err(CaseFault::unreadable(alloc, text)),
    }
}

fn take_writer(alloc: Global, options: &mut RunOptions, text: &str) -> Result<(), CaseFault> {
    if text == "fails at its flush" {
        options.fails_at_flush = true;
        return Ok(());
    }
    if text.starts_with("takes") {
        options.when_full = WhenFull::TakesNothing;
        options.writer_stops = place_after(alloc, "takes nothing ", text)?;
    } else {
        options.writer_stops = place_after(alloc, "fails ", text)?;
    }
    Ok(())
}

/// Reads `the limits`.
fn past_of(alloc: Global, text: &str) -> Result<bool, CaseFault> {
    match text {
        "the limits" => Ok(true),
        _ => Err(CaseFault::unreadable(alloc, text)),
    }
}
