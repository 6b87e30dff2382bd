//! Program files as text.

ghost use Rattle.std.specs.Prelude.{◌≡◌, ◌++◌, MatchResult, OnOk};
ghost use Rattle.cbm_text.specs.Listing.{Lists};
ghost use Rattle.cbm_text.specs.Modes.{line_listing};
ghost use Rattle.cbm_text.specs.ListFault.{ListsNot};

use crate::codes::expand;
use crate::fault::ListFault;
use crate::program::{ProgramLine, first_line, is_end};
use itoa::Buffer;
use petscii::to_text;
use std::alloc::{AllocError, Global};

/// The text of a program file: for each line its number, a space, and its bytes with the keyword of
/// each token, in the text form of `to_text`. Between quotes, behind `rem` and behind `data` up to
/// a colon outside quotes tokens are no keywords. Links are ignored, except that $00 $00 ends the
/// program, and so is what follows the program.
///
/// `NoAddress` comes if there are fewer than two bytes, and `Truncated` if the bytes end before the
/// program does.
pub fn list(alloc: Global, file: &[u8]) -> Result<Vec<u8>, ListFault>
    ensures { MatchResult result (λ text. Lists file.now text.items) (ListsNot file.now) }
{
    let [_, _, lines @ ..] = file else {
        return Err(ListFault::NoAddress);
    };
    let mut text = Vec::new(alloc);
    let mut left = lines;
    while !is_end(left) {
        let Some((line, rest)) = first_line(left) else {
            return Err(ListFault::Truncated);
        };
        push_listing(alloc, &mut text, line)?;
        left = rest;
    }
    Ok(text)
}

/// Appends the text of a line.
fn push_listing(alloc: Global, text: &mut Vec<u8>, line: ProgramLine) -> Result<(), AllocError>
    ensures { OnOk result (text.new.items
        ≡ text.old.items ++ line_listing (record { number = line.entry.number; bytes = line.entry.bytes.now })) }
{
    let bytes = expand(alloc, line.bytes)?;
    let spelled = to_text(alloc, &bytes)?;
    let mut number = Buffer::new();
    text.extend_from_slice(number.format(line.number).as_bytes())?;
    text.push(b' ')?;
    text.extend_from_slice(&spelled)?;
    text.push(b'\n')?;
    Ok(())
}
