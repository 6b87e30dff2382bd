//! The lines on standard error of files that cannot be read, have a wrong length or cannot be
//! written, and what the catalogue prints of a file that is not a dump.
ghost use Rattle.std.specs.Prelude.{◌≡◌, ◌++◌, [], codes, OnOk};
ghost use Rattle.std.specs.Option.{option_map_or};
ghost use Rattle.host_storage.specs.Shown.{shown_name};
ghost use Rattle.out_messages.specs.Guesses.{guess_of as guess_by_all};
ghost use Rattle.out_messages.specs.FaultLines.{line_about, unread_line, unwritten_line, present_line, skipped_line, too_much_line, in_brackets, seeming_text, no_dump_text, wrong_length_text, no_dump_reason, wrong_length_line};

use crate::guess::{guess_of, guess_text};
use crate::number::push_number;
use crate::words::push_count;
use d64_g64::begins_as_g64;
use host_storage::push_shown;
use std::alloc::AllocError;

/// Appends what the program's lines about a file begin with.
fn push_start(out: &mut Vec<u8>, name: &[u8]) -> Result<(), AllocError>
    ensures { OnOk result (out.new.items ≡ out.old.items ++ (codes "d64sh: " ++ (shown_name name.now ++ codes ": "))) }
{
    out.extend_from_slice(b"d64sh: ")?;
    push_shown(out, name)?;
    out.extend_from_slice(b": ")
}

/// Appends a line about a file.
#[tactic(auto, unfolding(crate::specs::FaultLines::line_about))]
fn push_line(out: &mut Vec<u8>, name: &[u8], text: &[u8]) -> Result<(), AllocError>
    ensures { OnOk result (out.new.items ≡ out.old.items ++ line_about name.now text.now) }
{
    push_start(out, name)?;
    out.extend_from_slice(text)?;
    out.extend_from_slice(b"\n")
}

/// Appends the line of a file that cannot be read.
pub fn unread_line(out: &mut Vec<u8>, name: &[u8]) -> Result<(), AllocError>
    ensures { OnOk result (out.new.items ≡ out.old.items ++ unread_line name.now) }
{
    push_line(out, name, b"cannot be read")
}

/// Appends the line of a file that cannot be written.
pub fn unwritten_line(out: &mut Vec<u8>, name: &[u8]) -> Result<(), AllocError>
    ensures { OnOk result (out.new.items ≡ out.old.items ++ unwritten_line name.now) }
{
    push_line(out, name, b"cannot be written")
}

/// Appends the line of a file or folder that exists before anything is written.
pub fn present_line(out: &mut Vec<u8>, name: &[u8]) -> Result<(), AllocError>
    ensures { OnOk result (out.new.items ≡ out.old.items ++ present_line name.now) }
{
    push_line(out, name, b"is there already")
}

/// Appends the line of a folder that is skipped since it exists.
pub fn skipped_line(out: &mut Vec<u8>, name: &[u8]) -> Result<(), AllocError>
    ensures { OnOk result (out.new.items ≡ out.old.items ++ skipped_line name.now) }
{
    push_line(out, name, b"skipped")
}

/// Appends the line of an image whose files have too many bytes to write all of them.
pub fn too_much_line(out: &mut Vec<u8>, name: &[u8]) -> Result<(), AllocError>
    ensures { OnOk result (out.new.items ≡ out.old.items ++ too_much_line name.now) }
{
    push_line(out, name, b"too much")
}

/// Appends what a file seems to be, in brackets, if that is known.
fn push_brackets(out: &mut Vec<u8>, bytes: &[u8]) -> Result<(), AllocError>
    ensures { OnOk result (out.new.items ≡ out.old.items ++ option_map_or in_brackets (guess_by_all bytes.now) []) }
{
    match guess_of(bytes) {
        Some(guess) => {
            out.extend_from_slice(b" (")?;
            out.extend_from_slice(guess_text(guess))?;
            out.extend_from_slice(b")")
        }
        None => Ok(()),
    }
}

/// Appends what a file that is not a dump seems to be, if that is known.
fn push_seeming(out: &mut Vec<u8>, bytes: &[u8]) -> Result<(), AllocError>
    ensures { OnOk result (out.new.items ≡ out.old.items ++ seeming_text bytes.now) }
{
    match guess_of(bytes) {
        Some(guess) => {
            out.extend_from_slice(b"not read: ")?;
            out.extend_from_slice(guess_text(guess))
        }
        None => out.extend_from_slice(b"not a disk image"),
    }
}

/// Appends what people are shown of a file that is not a dump: what it seems to be, and how many
/// bytes it has.
pub fn push_no_dump(out: &mut Vec<u8>, bytes: &[u8]) -> Result<(), AllocError>
    ensures { OnOk result (out.new.items ≡ out.old.items ++ no_dump_text bytes.now) }
{
    push_seeming(out, bytes)?;
    out.extend_from_slice(b" (")?;
    push_count(out, bytes.len(), b"byte")?;
    out.extend_from_slice(b")")
}

/// Appends the number of bytes of a file, which no dump has, and what the file seems to be, if that
/// is known.
fn push_wrong_length(out: &mut Vec<u8>, bytes: &[u8]) -> Result<(), AllocError>
    ensures { OnOk result (out.new.items ≡ out.old.items ++ wrong_length_text bytes.now) }
{
    out.extend_from_slice(b"wrong length ")?;
    push_number(out, bytes.len())?;
    push_brackets(out, bytes)?;
    Ok(())
}

/// Appends why a file is not a dump: it is a bad G64, or no dump has its length.
fn push_no_dump_reason(out: &mut Vec<u8>, bytes: &[u8]) -> Result<(), AllocError>
    ensures { OnOk result (out.new.items ≡ out.old.items ++ no_dump_reason bytes.now) }
{
    if begins_as_g64(bytes) {
        out.extend_from_slice(b"bad G64")
    } else {
        push_wrong_length(out, bytes)
    }
}

/// Appends the line of a file with these bytes, which is not a dump.
#[tactic(auto, unfolding(crate::specs::FaultLines::line_about))]
pub fn wrong_length_line(out: &mut Vec<u8>, name: &[u8], bytes: &[u8]) -> Result<(), AllocError>
    ensures { OnOk result (out.new.items ≡ out.old.items ++ wrong_length_line name.now bytes.now) }
{
    push_start(out, name)?;
    push_no_dump_reason(out, bytes)?;
    out.extend_from_slice(b"\n")
}
