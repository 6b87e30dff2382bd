//! The faulty lines of a BASIC text.

ghost use Rattle.std.specs.Prelude.{◌≡◌, ◌≤◌, List, All, IfOk, length, take};
ghost use Rattle.cbm_text.specs.BasicText.{NamesLine};
ghost use Rattle.cbm_text.specs.FaultyLines.{AreFaultyIn, IsNoted};

use crate::cause::{Cause, cause_of};
use crate::crunching::push_text_line;
use crate::fault::BasicFault;
use script_text::raw_lines::{self, RawLines};
use std::alloc::{AllocError, Global};

/// A faulty line of a BASIC text.
#[derive(Clone, Copy)]
pub struct FaultyLine<'t> {
    /// Its first fault, in the order of `BasicFault`.
    pub fault: BasicFault,
    pub cause: Cause,
    /// The line without its line end.
    pub text: &'t [u8],
}

/// The first faulty lines of a BASIC text, and how many faulty lines it has.
#[derive(Drop)]
pub struct FaultyLines<'t> {
    pub lines: Vec<FaultyLine<'t>>,
    pub count: usize,
}

/// Finds the faulty lines of a BASIC text whose program is loaded at `start`. Returns the first
/// `most` of them, and how many there are. A faulty line adds nothing to the program, so that those
/// behind it begin where it would have begun.
pub fn faulty_lines<'t>(
    alloc: Global,
    start: u16,
    text: &'t [u8],
    most: usize,
) -> Result<FaultyLines<'t>, AllocError>
    ensures faulty { IfOk result (λ found. (all : List FaultyLine) × AreFaultyIn start text.now all × (found.lines.items ≡ take most all) × (found.count ≡ length all)) }
    ensures places { IfOk result (λ found. All (λ line. NamesLine text.now line.fault) found.lines.items) }
{
    let mut file = Vec::new(alloc);
    let mut lines = Vec::new(alloc);
    let mut count = 0;
    let mut at = start;
    let mut place = 0;
    for raw in RawLines(text) {
        place += 1;
        let line = raw_lines::text(raw);
        if raw_lines::is_skipped(line) {
            continue;
        }
        let outcome = push_text_line(alloc, &mut file, at, line, place);
        count += usize::from(outcome.is_err());
        at = noted(alloc, &mut lines, most, at, line, outcome)?;
    }
    Ok(FaultyLines { lines, count })
}

/// The address behind a text line, which is unchanged if the line is faulty. A faulty line is
/// appended to the list, if that has fewer than `most`.
fn noted<'t>(
    alloc: Global,
    lines: &mut Vec<FaultyLine<'t>>,
    most: usize,
    at: u16,
    text: &'t [u8],
    outcome: Result<u16, BasicFault>,
) -> Result<u16, AllocError>
    requires { length lines.old.items ≤ most }
    ensures { IfOk result (λ next. IsNoted at text.now most outcome lines.old.items next lines.new.items) }
{
    let fault = match outcome {
        Ok(next) => return Ok(next),
        Err(fault) => fault,
    };
    let cause = cause_of(alloc, text, &fault)?;
    if lines.len() < most {
        lines.push(FaultyLine { fault, cause, text })?;
    }
    Ok(at)
}
