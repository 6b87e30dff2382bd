//! What else there is to say about a line that is typed: which command or name was meant, why
//! nothing was deleted, what is gone, and the file of the host that may be in the way.
ghost use Rattle.std.specs.Prelude.{◌≡◌, ◌++◌, IfOk, OnOk, option_copied};
ghost use Rattle.script_advice.specs.Remark.{IsRemark, files_are, gone_text, is_in_the_way, kept_text, meant_text, missing_text, near_text, not_deleted_text, odd_byte_text, odd_text, place_text, remark_of, restorable_text, similar_text, stored_text, verb_of, why_kept};

use crate::found::Found;
use crate::hint::hint_for;
use crate::line_parts::LineParts;
use crate::near::near_command;
use d64_files::Entry;
use d64_image::Image;
use out_messages::{push_count, push_quoted};
use script_lines::{LineCommand, Status};
use std::alloc::{AllocError, Global};

/// What else there is to say about a line with this text and these arguments that ended with this
/// status and left this image, on a disk that listed this many files before. It is empty if there
/// is nothing to say.
///
/// An `Err` comes only if there is no memory for the text, or for the bytes of the first argument.
pub fn remark(
    alloc: Global,
    text: &[u8],
    parts: &LineParts<'_>,
    status: &Status,
    image: &Image,
    files: usize,
) -> Result<Vec<u8>, AllocError>
    ensures { IfOk result (λ line. IsRemark text.now parts.now status.now image.now files line.items) }
{
    let found = Found::of(alloc, image, parts.first)?;
    let mut line = Vec::new(alloc);
    push_remark(&mut line, text, parts, status, &found, files)?;
    Ok(line)
}

/// Appends what else there is to say about a line whose first argument may mean these files.
fn push_remark(
    line: &mut Vec<u8>,
    text: &[u8],
    parts: &LineParts<'_>,
    status: &Status,
    found: &Found<'_>,
    files: usize,
) -> Result<(), AllocError>
    ensures { OnOk result (line.new.items ≡ line.old.items ++ remark_of text.now parts.now status.now found.now files) }
{
    match (LineCommand::named(parts.command), *status) {
        (_, Status::SyntaxError) if parts.count == 0 => push_odd(line, text),
        (_, Status::UnknownCommand) if hint_for(parts.command).is_none() => {
            push_near(line, near_command(parts.command))
        }
        (Some(LineCommand::Undelete), Status::FileNotFound) => Ok(()),
        (_, Status::FileNotFound) => push_missing(line, found),
        (Some(LineCommand::Delete), Status::FilesScratched { count: 0 }) => {
            push_not_deleted(line, found)
        }
        (Some(LineCommand::Read), Status::Done) if parts.second.is_empty() => {
            push_place(line, &found.file)
        }
        (Some(LineCommand::Format), Status::Done) if files > 0 => push_gone(line, files),
        _ => Ok(()),
    }
}

/// Appends where the first byte comes from that no line has.
fn push_odd(line: &mut Vec<u8>, text: &[u8]) -> Result<(), AllocError>
    ensures { OnOk result (line.new.items ≡ line.old.items ++ odd_text text.now) }
{
    line.extend_from_slice(odd_text(text))
}

/// Where the first byte comes from that no line has; nothing if that is not known of any.
fn odd_text(text: &[u8]) -> &'static [u8]
    ensures { result.now ≡ odd_text text.now }
{
    for byte in text {
        if let Some(what) = odd_byte_text(*byte) {
            return what;
        }
    }
    b""
}

/// Where a byte comes from that no line has, if that is known.
fn odd_byte_text(byte: u8) -> Option<&'static [u8]>
    ensures { option_copied result ≡ odd_byte_text byte }
{
    match byte {
        9 => Some(b"d64sh: the line has a tab\n"),
        27 => Some(
            b"d64sh: an arrow or another editing key was typed; rlwrap d64sh shell lets you edit lines\n",
        ),
        128..=255 => Some(
            b"d64sh: the line has an umlaut or another character that is not ASCII\n",
        ),
        _ => None,
    }
}

/// Appends the command whose name is near.
fn push_near(line: &mut Vec<u8>, near: Option<LineCommand>) -> Result<(), AllocError>
    ensures { OnOk result (line.new.items ≡ line.old.items ++ near_text near) }
{
    match near {
        Some(command) => push_similar(line, command.name().as_bytes()),
        None => Ok(()),
    }
}

/// Appends the name of a command that is near.
#[tactic(auto, unfolding(crate::specs::Remark::similar_text))]
fn push_similar(line: &mut Vec<u8>, name: &[u8]) -> Result<(), AllocError>
    ensures { OnOk result (line.new.items ≡ line.old.items ++ similar_text name.now) }
{
    line.extend_from_slice(b"d64sh: a similar command is ")?;
    line.extend_from_slice(name)?;
    line.extend_from_slice(b"\n")?;
    Ok(())
}

/// Appends the file that has this name in other letters.
#[tactic(auto, unfolding(crate::specs::Remark::meant_text))]
fn push_meant(line: &mut Vec<u8>, respelled: &Option<Entry<'_>>) -> Result<(), AllocError>
    ensures { OnOk result (line.new.items ≡ line.old.items ++ meant_text respelled.now) }
{
    match respelled {
        Some(entry) => {
            line.extend_from_slice(b"d64sh: the disk has ")?;
            push_quoted(line, entry.name())?;
            line.extend_from_slice(b"; capital and small letters are different there\n")
        }
        None => Ok(()),
    }
}

/// Appends that a file of this name was deleted.
#[tactic(auto, unfolding(crate::specs::Remark::restorable_text))]
fn push_restorable(line: &mut Vec<u8>, deleted: &Option<Entry<'_>>) -> Result<(), AllocError>
    ensures { OnOk result (line.new.items ≡ line.old.items ++ restorable_text deleted.now) }
{
    match deleted {
        Some(entry) => {
            line.extend_from_slice(b"d64sh: ")?;
            push_quoted(line, entry.name())?;
            line.extend_from_slice(b" was deleted; undelete may bring it back\n")
        }
        None => Ok(()),
    }
}

/// Appends that a file of this name was deleted, and which one has this name in other letters.
#[tactic(auto, unfolding(crate::specs::Remark::missing_text))]
fn push_missing(line: &mut Vec<u8>, found: &Found<'_>) -> Result<(), AllocError>
    ensures { OnOk result (line.new.items ≡ line.old.items ++ missing_text found.now) }
{
    push_restorable(line, &found.deleted)?;
    push_meant(line, &found.respelled)
}

/// Appends why no file was deleted.
#[tactic(auto, unfolding(crate::specs::Remark::not_deleted_text))]
fn push_not_deleted(line: &mut Vec<u8>, found: &Found<'_>) -> Result<(), AllocError>
    ensures { OnOk result (line.new.items ≡ line.old.items ++ not_deleted_text found.now) }
{
    line.extend_from_slice(b"d64sh: nothing was deleted: ")?;
    push_why_kept(line, &found.file)?;
    push_meant(line, &found.respelled)
}

/// Appends why `delete` keeps a file, or that there is no file.
#[tactic(auto, unfolding(crate::specs::Remark::kept_text))]
fn push_why_kept(line: &mut Vec<u8>, file: &Option<Entry<'_>>) -> Result<(), AllocError>
    ensures { OnOk result (line.new.items ≡ line.old.items ++ kept_text file.now) }
{
    match file {
        Some(entry) => {
            push_quoted(line, entry.name())?;
            line.extend_from_slice(why_kept(entry))
        }
        None => line.extend_from_slice(b"the disk has no file of that name\n"),
    }
}

/// Why `delete` keeps a file.
fn why_kept(entry: &Entry<'_>) -> &'static [u8]
    ensures { result.now ≡ why_kept entry.now.bytes }
{
    if entry.locked() {
        b" is locked\n"
    } else {
        b" was never closed; validate removes it\n"
    }
}

/// Appends the name under which a file was stored, if it may be in the way there.
fn push_place(line: &mut Vec<u8>, file: &Option<Entry<'_>>) -> Result<(), AllocError>
    ensures { OnOk result (line.new.items ≡ line.old.items ++ place_text file.now) }
{
    match file {
        Some(entry) if is_in_the_way(entry.name()) => push_stored(line, entry.name()),
        _ => Ok(()),
    }
}

/// Appends the name under which a file was stored.
#[tactic(auto, unfolding(crate::specs::Remark::stored_text))]
fn push_stored(line: &mut Vec<u8>, name: &[u8]) -> Result<(), AllocError>
    ensures { OnOk result (line.new.items ≡ line.old.items ++ stored_text name.now) }
{
    line.extend_from_slice(b"d64sh: the file was stored as ")?;
    push_quoted(line, name)?;
    line.extend_from_slice(b"; read NAME HOST gives it another name\n")
}

/// Whether a name begins with a full stop or a hyphen: programs of the host take it for a hidden
/// file or an option.
fn is_in_the_way(name: &[u8]) -> bool
    ensures { result ≡ is_in_the_way name.now }
{
    matches!(name, [b'.' | b'-', ..])
}

/// Appends how many files are gone.
#[tactic(auto, unfolding(crate::specs::Remark::gone_text))]
fn push_gone(line: &mut Vec<u8>, files: usize) -> Result<(), AllocError>
    ensures { OnOk result (line.new.items ≡ line.old.items ++ gone_text files) }
{
    line.extend_from_slice(b"d64sh: ")?;
    push_files_are(line, files)?;
    line.extend_from_slice(b" gone; undo brings the disk back\n")
}

/// Appends how many files, and the verb.
fn push_files_are(line: &mut Vec<u8>, files: usize) -> Result<(), AllocError>
    ensures { OnOk result (line.new.items ≡ line.old.items ++ files_are files) }
{
    push_count(line, files, b"file")?;
    line.extend_from_slice(verb_of(files))
}

/// The verb after this many files.
fn verb_of(files: usize) -> &'static [u8]
    ensures { result.now ≡ verb_of files }
{
    if files == 1 { b" is" } else { b" are" }
}
