//! The orphans of an image in a table for people.
ghost use Rattle.std.specs.Prelude.{◌≡◌, ◌++◌, OnOk, decimal};
ghost use Rattle.out_files.specs.FileTable.{right_in};
ghost use Rattle.out_files.specs.OrphanTable.{orphan_name, orphan_kind, named_text, orphan_error_text, orphan_byte_count, orphan_state, orphan_text};

use crate::table::{NAME_COLUMNS, SIZE_COLUMNS, push_left, push_right};
use d64_files::name_in;
use d64_image::BlockNo;
use d64_leftovers::{OldSlot, OrphanRow};
use itoa::Buffer;
use out_messages::{kind_letters, push_block, push_count, push_quoted};
use std::alloc::AllocError;

/// Adds how many blocks an orphan has, in its columns.
fn push_block_count(out: &mut Vec<u8>, count: usize) -> Result<(), AllocError>
    ensures { OnOk result (out.new.items ≡ out.old.items ++ right_in 5 (decimal count)) }
{
    let mut digits = Buffer::new();
    push_right(out, SIZE_COLUMNS, digits.format(count).as_bytes())
}

/// Puts the name in an old slot, in quotes, or else the first block into a text, in the place of
/// what that had.
fn put_orphan_name(
    text: &mut Vec<u8>,
    first: BlockNo,
    old: Option<OldSlot>,
) -> Result<(), AllocError>
    ensures { OnOk result (text.new.items ≡ orphan_name first old) }
{
    text.clear();
    match old {
        Some(old) => push_quoted(text, name_in(&old.field)),
        None => push_block(text, first),
    }
}

/// Returns the letters of the kind in an old slot, or else spaces.
fn orphan_kind(old: Option<OldSlot>) -> &'static str
    ensures { result.now ≡ orphan_kind old }
{
    match old {
        Some(old) => kind_letters(old.kind),
        None => "   ",
    }
}

/// That an old slot names it.
fn named_text(old: Option<OldSlot>) -> &'static [u8]
    ensures { result.now ≡ named_text old }
{
    match old {
        Some(_old) => b", named by an old directory",
        None => b"",
    }
}

/// That a block has a read error.
fn error_text(count: usize) -> &'static [u8]
    ensures { result.now ≡ orphan_error_text count }
{
    if count > 0 {
        b", has a read error"
    } else {
        b""
    }
}

/// How many bytes an orphan has.
fn byte_count(row: &OrphanRow) -> usize
    ensures { result ≡ orphan_byte_count row.now }
{
    match row.content {
        Some(content) => content.bytes,
        None => 0,
    }
}

/// Adds where an orphan begins, how many bytes it has, whether an old slot names it, and whether all
/// of it was read.
#[tactic(auto, unfolding(crate::specs::OrphanTable::orphan_state))]
fn push_orphan_state(out: &mut Vec<u8>, row: &OrphanRow) -> Result<(), AllocError>
    ensures { OnOk result (out.new.items ≡ out.old.items ++ orphan_state row.now) }
{
    out.extend_from_slice(b"from ")?;
    push_block(out, row.first)?;
    out.extend_from_slice(b": ")?;
    push_count(out, byte_count(row), b"byte")?;
    out.extend_from_slice(named_text(row.old))?;
    out.extend_from_slice(error_text(row.read_errors))
}

/// Adds the text of an orphan on a line: how many blocks it has, the name, the kind, where it
/// begins, how many bytes it has, whether an old slot names it, and whether a block has a read
/// error.
#[tactic(auto, unfolding(crate::specs::OrphanTable::orphan_text))]
pub(crate) fn push_orphan_text(
    scratch: &mut Vec<u8>,
    out: &mut Vec<u8>,
    row: &OrphanRow,
) -> Result<(), AllocError>
    ensures { OnOk result (out.new.items ≡ out.old.items ++ orphan_text row.now) }
{
    push_block_count(out, row.blocks)?;
    out.extend_from_slice(b" ")?;
    put_orphan_name(scratch, row.first, row.old)?;
    push_left(out, NAME_COLUMNS, scratch.as_slice())?;
    out.extend_from_slice(b" ")?;
    out.extend_from_slice(orphan_kind(row.old).as_bytes())?;
    out.extend_from_slice(b"   ")?;
    push_orphan_state(out, row)
}
