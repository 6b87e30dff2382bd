//! The text of a file of the disk, for people.
ghost use Rattle.std.specs.Prelude.{◌≡◌, ◌++◌, OnOk, IfOk, codes, if◌then◌else◌, ◌==◌};
ghost use Rattle.petscii.specs.Spelling.{spell};
ghost use Rattle.script_lines.specs.FileText.{typed_text};

use petscii::push_spelling;
use std::alloc::{AllocError, Global};

/// The byte that ends a line of a text on the disk.
const CARRIAGE_RETURN: u8 = 13;

/// The lines of a text of the disk in text form. On the disk each ends with a carriage return,
/// except that the last one may have none.
///
/// An `Err` comes only if there is no memory for the text.
pub fn file_text(alloc: Global, content: &[u8]) -> Result<Vec<u8>, AllocError>
    ensures { IfOk result (λ text. text.items ≡ typed_text content.now) }
{
    let mut text = Vec::new(alloc);
    let mut is_open = false;
    for byte in content {
        push_byte(&mut text, *byte)?;
        is_open = *byte != CARRIAGE_RETURN;
    }
    if is_open {
        text.push(b'\n')?;
    }
    Ok(text)
}

/// Appends a byte of a text: a line end for a carriage return, or else its text form.
fn push_byte(text: &mut Vec<u8>, byte: u8) -> Result<(), AllocError>
    ensures { OnOk result (text.new.items ≡ text.old.items ++ (if byte == 13 then codes "\n" else spell byte)) }
{
    if byte == CARRIAGE_RETURN {
        text.push(b'\n')?;
        return Ok(());
    }
    push_spelling(text, &[byte])
}
