//! The beginning of the explanation of a refused line of a script: its number, and its first
//! characters.
ghost use Rattle.std.specs.Prelude.{◌≡◌, ◌++◌, codes, decimal, IfOk};
ghost use Rattle.out_messages.specs.ShownStart.{shown_start};
ghost use Rattle.script_hints.specs.LineStart.{line_start, shown_raw_line};

use host_storage::push_shown;
use out_messages::{push_number, shown_start};
use std::alloc::{AllocError, Global};

/// The beginning of the explanation of the line with this number and text.
#[tactic(auto, unfolding(crate::specs::LineStart::line_start))]
pub(crate) fn line_start(alloc: Global, number: usize, text: &[u8]) -> Result<Vec<u8>, AllocError>
    ensures { IfOk result (λ start. start.items ≡ line_start number text.now) }
{
    let shown = shown_start(alloc, text)?;
    let mut start = Vec::new(alloc);
    start.extend_from_slice(b"d64sh: line ")?;
    push_number(&mut start, number)?;
    start.extend_from_slice(b": ")?;
    start.extend_from_slice(shown.as_slice())?;
    start.extend_from_slice(b": ")?;
    Ok(start)
}

/// A line as it is shown.
pub(crate) fn shown_line(alloc: Global, text: &[u8]) -> Result<Vec<u8>, AllocError>
    ensures { IfOk result (λ shown. shown.items ≡ shown_raw_line text.now) }
{
    let mut shown = Vec::new(alloc);
    push_shown(&mut shown, text)?;
    Ok(shown)
}
