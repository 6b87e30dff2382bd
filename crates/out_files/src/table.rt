//! The files of an image as a table for people.
ghost use Rattle.std.specs.Prelude.{◌≡◌, ◌≤◌, ◌++◌, decimal, OnOk};
ghost use Rattle.out_messages.specs.Names.{quoted_name};
ghost use Rattle.out_files.specs.FileTable.{spaces, right_in, left_in, head_line, blocks_there, reasons, unknown_text, state_by, kind_text, file_state_text, slot_text, slot_line};

use d64_files::{Kind, name_in};
use d64_image::Image;
use d64_inventory::FileRow;
use host_storage::push_shown;
use itoa::Buffer;
use out_messages::{kind_letters, locked_text, push_flaws, push_label, push_quoted};
use std::alloc::AllocError;

/// The width of the size, in columns.
pub(crate) const SIZE_COLUMNS: usize = 5;

/// The width of the name in quotes, in columns.
pub(crate) const NAME_COLUMNS: usize = 18;

/// Appends `count` spaces.
fn push_spaces(out: &mut Vec<u8>, count: usize) -> Result<(), AllocError>
    requires { count ≤ 18 }
    ensures { OnOk result (out.new.items ≡ out.old.items ++ spaces count) }
{
    out.resize(out.len() + count, b' ')
}

/// Appends a text, right-aligned to this width.
pub(crate) fn push_right(out: &mut Vec<u8>, width: usize, text: &[u8]) -> Result<(), AllocError>
    requires { width ≤ 18 }
    ensures { OnOk result (out.new.items ≡ out.old.items ++ right_in width text.now) }
{
    push_spaces(out, width.saturating_sub(text.len()))?;
    out.extend_from_slice(text)
}

/// Appends a text, left-aligned to this width.
pub(crate) fn push_left(out: &mut Vec<u8>, width: usize, text: &[u8]) -> Result<(), AllocError>
    requires { width ≤ 18 }
    ensures { OnOk result (out.new.items ≡ out.old.items ++ left_in width text.now) }
{
    out.extend_from_slice(text)?;
    push_spaces(out, width.saturating_sub(text.len()))
}

/// Appends the image's line: its name on the host, the disk's name and its id.
#[tactic(auto, unfolding(crate::specs::FileTable::head_line))]
pub(crate) fn push_head_line(
    out: &mut Vec<u8>,
    name: &[u8],
    image: &Image,
) -> Result<(), AllocError>
    ensures { OnOk result (out.new.items ≡ out.old.items ++ head_line name.now image.now) }
{
    push_shown(out, name)?;
    out.extend_from_slice(b" ")?;
    push_label(out, image)?;
    out.extend_from_slice(b"\n")
}

/// Returns how many blocks of a file are there.
fn blocks_there(row: &FileRow) -> usize
    ensures { result ≡ blocks_there row.now }
{
    row.blocks
        .unwrap_or(0)
        .saturating_add(row.side.unwrap_or(0))
}

/// Appends why the file is not whole, or why that is not known.
#[tactic(auto, unfolding(crate::specs::FileTable::reasons))]
fn push_reasons(out: &mut Vec<u8>, row: &FileRow) -> Result<(), AllocError>
    ensures { OnOk result (out.new.items ≡ out.old.items ++ reasons row.now) }
{
    push_flaws(
        out,
        usize::from(row.size),
        blocks_there(row),
        row.why.as_slice(),
    )
}

/// Appends that it is not known whether the file is whole, and why, if there is more to say.
#[tactic(auto, unfolding(crate::specs::FileTable::unknown_text))]
fn push_unknown(out: &mut Vec<u8>, row: &FileRow) -> Result<(), AllocError>
    ensures { OnOk result (out.new.items ≡ out.old.items ++ unknown_text row.now) }
{
    out.extend_from_slice(b"not known")?;
    if row.why.is_empty() {
        return Ok(());
    }
    out.extend_from_slice(b": ")?;
    push_reasons(out, row)
}

/// Appends whether the file is whole, or what is wrong with it.
fn push_wholeness(out: &mut Vec<u8>, row: &FileRow) -> Result<(), AllocError>
    ensures { OnOk result (out.new.items ≡ out.old.items ++ state_by row.now.whole row.now) }
{
    match row.whole {
        Some(true) => out.extend_from_slice(b"whole"),
        Some(false) => push_reasons(out, row),
        None => push_unknown(out, row),
    }
}

/// Returns the letters of a kind.
fn kind_text(kind: Option<Kind>) -> &'static str
    ensures { result.now ≡ kind_text kind }
{
    match kind {
        Some(kind) => kind_letters(kind),
        None => "???",
    }
}

/// Appends what a line says of a file after its name.
#[tactic(auto, unfolding(crate::specs::FileTable::file_state_text))]
fn push_state(out: &mut Vec<u8>, row: &FileRow) -> Result<(), AllocError>
    ensures { OnOk result (out.new.items ≡ out.old.items ++ file_state_text row.now) }
{
    out.extend_from_slice(kind_text(row.kind).as_bytes())?;
    out.extend_from_slice(b"   ")?;
    push_wholeness(out, row)?;
    out.extend_from_slice(locked_text(row.locked))
}

/// Appends the size that the directory has, right-aligned.
pub(crate) fn push_size(out: &mut Vec<u8>, size: u16) -> Result<(), AllocError>
    ensures { OnOk result (out.new.items ≡ out.old.items ++ right_in 5 (decimal size)) }
{
    let mut digits = Buffer::new();
    push_right(out, SIZE_COLUMNS, digits.format(size).as_bytes())
}

/// Appends a name in quotes, left-aligned.
pub(crate) fn push_name(
    scratch: &mut Vec<u8>,
    out: &mut Vec<u8>,
    name: &[u8],
) -> Result<(), AllocError>
    ensures { OnOk result (out.new.items ≡ out.old.items ++ left_in 18 (quoted_name name.now)) }
{
    scratch.clear();
    push_quoted(scratch, name)?;
    push_left(out, NAME_COLUMNS, scratch.as_slice())
}

/// Appends the text of a file: the size that the directory has, the name, the kind, whether it is
/// whole or what is wrong with it, and whether it is locked.
#[tactic(auto, unfolding(crate::specs::FileTable::slot_text))]
pub(crate) fn push_file_text(
    scratch: &mut Vec<u8>,
    out: &mut Vec<u8>,
    row: &FileRow,
) -> Result<(), AllocError>
    ensures { OnOk result (out.new.items ≡ out.old.items ++ slot_text row.now) }
{
    push_size(out, row.size)?;
    out.extend_from_slice(b" ")?;
    push_name(scratch, out, name_in(&row.field))?;
    out.extend_from_slice(b" ")?;
    push_state(out, row)
}

/// Appends the line of a file.
#[tactic(auto, unfolding(crate::specs::FileTable::slot_line))]
pub fn push_file_line(
    scratch: &mut Vec<u8>,
    out: &mut Vec<u8>,
    row: &FileRow,
) -> Result<(), AllocError>
    ensures { OnOk result (out.new.items ≡ out.old.items ++ slot_line row.now) }
{
    push_file_text(scratch, out, row)?;
    out.extend_from_slice(b"\n")
}
