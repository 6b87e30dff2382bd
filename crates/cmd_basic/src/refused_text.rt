//! What is printed of a text that is not a program: its faulty lines, in the form of compilers.
ghost use Rattle.std.specs.Prelude.{◌≡◌, ◌-◌, ◌++◌, IfOk, List, OnOk, [], codes, option_copied};
ghost use Rattle.std.specs.List.{flat_map};
ghost use Rattle.cbm_text.specs.Causes.{cause_text};
ghost use Rattle.cbm_text.specs.FaultyLines.{AreFaultyIn};
ghost use Rattle.cmd_basic.specs.RefusedText.{faulty_line, indented, more_lines, refused_text};

use crate::refusal_line::push_refusal_line;
use cbm_text::{Cause, FaultyLine, faulty_lines};
use out_messages::{push_count, shown_start};
use script_lines::Status;
use std::alloc::{AllocError, Global};

/// The most faulty lines of a text that are printed.
const MOST_LINES: usize = 20;

/// Returns what is printed of a text that is not a program: its first faulty lines, each with what
/// is wrong and its first characters below, and how many more there are.
pub(crate) fn refused_text(
    alloc: Global,
    name: Option<&str>,
    start: u16,
    text: &[u8],
) -> Result<Vec<u8>, AllocError>
    ensures { IfOk result (λ out. (all : List FaultyLine) × AreFaultyIn start text.now all × (out.items ≡ refused_text (option_copied name.entry) all)) }
{
    let found = faulty_lines(alloc, start, text, MOST_LINES)?;
    let mut out = Vec::new(alloc);
    push_faulty_lines(alloc, &mut out, name, found.lines.as_slice())?;
    push_more_lines(&mut out, found.count)?;
    Ok(out)
}

/// Appends faulty lines.
fn push_faulty_lines(
    alloc: Global,
    out: &mut Vec<u8>,
    name: Option<&str>,
    lines: &[FaultyLine<'_>],
) -> Result<(), AllocError>
    ensures { OnOk result (out.new.items ≡ out.old.items ++ flat_map (faulty_line (option_copied name.entry)) lines.now) }
{
    for line in lines {
        push_faulty_line(alloc, out, name, line)?;
    }
    Ok(())
}

/// Appends a faulty line: its refusal, and its first characters below.
#[tactic(auto, unfolding(crate::specs::RefusedText::faulty_line))]
fn push_faulty_line(
    alloc: Global,
    out: &mut Vec<u8>,
    name: Option<&str>,
    line: &FaultyLine<'_>,
) -> Result<(), AllocError>
    ensures { OnOk result (out.new.items ≡ out.old.items ++ faulty_line (option_copied name.entry) line.now) }
{
    let cause = cause_text(alloc, line.cause)?;
    let status = Status::from(line.fault);
    push_refusal_line(out, name, line.fault.line(), status, cause.as_slice())?;
    let start = shown_start(alloc, line.text)?;
    push_indented(out, start.as_slice())
}

/// Returns what is wrong with a line.
fn cause_text(alloc: Global, cause: Cause) -> Result<Vec<u8>, AllocError>
    ensures { IfOk result (λ text. text.items ≡ cause_text cause) }
{
    let mut text = Vec::new(alloc);
    cause.push_to(&mut text)?;
    Ok(text)
}

/// Appends a line that does not begin at the left margin.
#[tactic(auto, unfolding(crate::specs::RefusedText::indented))]
fn push_indented(out: &mut Vec<u8>, text: &[u8]) -> Result<(), AllocError>
    ensures { OnOk result (out.new.items ≡ out.old.items ++ indented text.now) }
{
    out.extend_from_slice(b"    ")?;
    out.extend_from_slice(text)?;
    out.extend_from_slice(b"\n")
}

/// Appends how many of `count` faulty lines are not printed, if there are any.
#[tactic(auto, unfolding(crate::specs::RefusedText::more_lines))]
fn push_more_lines(out: &mut Vec<u8>, count: usize) -> Result<(), AllocError>
    ensures { OnOk result (out.new.items ≡ out.old.items ++ more_lines count) }
{
    if count <= MOST_LINES {
        return Ok(());
    }
    out.extend_from_slice(b"    and ")?;
    push_count(out, count - MOST_LINES, b"more faulty line")?;
    out.extend_from_slice(b"\n")?;
    Ok(())
}
