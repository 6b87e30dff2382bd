//! The lines of a history.
ghost use Rattle.std.specs.Prelude.{◌≡◌, ◌<◌, ◌-◌, ◌^◌, ◌++◌, codes, if◌then◌else◌, OnOk, IfOk};
ghost use Rattle.script_lines.specs.HistoryText.{record_line, history_text};

use d64_undo::Session;
use itoa::Buffer;
use std::alloc::{AllocError, Global};

/// The lines that show the records of a session, oldest first: for each its number from 1, how many
/// blocks it changed, and whether it is done or undone.
///
/// An `Err` comes only if there is no memory for the text.
pub(crate) fn history_text(alloc: Global, session: &Session) -> Result<Vec<u8>, AllocError>
    ensures { IfOk result (λ text. text.items ≡ history_text session.now) }
{
    let mut text = Vec::new(alloc);
    for number in 0..session.done() + session.undone() {
        push_record(&mut text, session, number)?;
    }
    Ok(text)
}

/// Appends the line of a record.
#[tactic(auto, unfolding(script_lines::specs::HistoryText::record_line))]
fn push_record(text: &mut Vec<u8>, session: &Session, number: usize) -> Result<(), AllocError>
    requires { number < 2 ^ 64 - 1 }
    ensures { OnOk result (text.new.items ≡ text.old.items ++ record_line session.now number) }
{
    let blocks = session.record_len(number).unwrap_or(0);
    text.extend_from_slice(Buffer::new().format(number + 1).as_bytes())?;
    text.extend_from_slice(b" ")?;
    text.extend_from_slice(Buffer::new().format(blocks).as_bytes())?;
    text.extend_from_slice(cursor_mark(number < session.done()))
}

/// The end of a record's line: on which side of the cursor the record is.
fn cursor_mark(done: bool) -> &'static [u8]
    ensures { result.now ≡ (if done then codes " done\n" else codes " undone\n") }
{
    if done { b" done\n" } else { b" undone\n" }
}
