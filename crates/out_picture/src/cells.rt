//! The cells of a picture.
ghost use Rattle.std.specs.Prelude.{◌≡◌, ◌<◌, ◌++◌, length, OnOk};
ghost use Rattle.std.specs.FinSet as set;
ghost use Rattle.d64_map.specs.Map.{free_blocks};
ghost use Rattle.d64_survey.specs.Owners.{owners_of};
ghost use Rattle.out_picture.specs.Cells.{read_text, block_error_text, claim_text, mark_text, cell_text, cell_title, cell_square, block_cell, block_cells, column_x, row_y};

use crate::block_state::{is_marked_free, state_of};
use crate::colour::colour_of;
use crate::shapes::{push_mark, push_square_tag};
use d64_image::BlockNo;
use d64_survey::{Inspection, code_of, drive_status, is_read_error};
use out_markup::push_escaped_within;
use out_messages::{push_block, push_number, push_owners, push_status};
use std::alloc::AllocError;

/// The most bytes that the title of a block has.
const TITLE_BYTES: usize = 80;

/// Returns the x coordinate of a sector's column.
pub(crate) fn column_x(sector: u8) -> usize
    ensures value { result ≡ column_x sector }
    ensures small { result < 6000 }
{
    46 + 22 * usize::from(sector)
}

/// Returns the y coordinate of a track's row.
pub(crate) fn row_y(track: u8) -> usize
    ensures value { result ≡ row_y track }
    ensures small { result < 6000 }
{
    62 + 22 * usize::from(track)
}

/// Appends a read error with this code.
#[tactic(auto, unfolding(crate::specs::Cells::read_text))]
fn push_read(out: &mut Vec<u8>, code: u8) -> Result<(), AllocError>
    ensures { OnOk result (out.new.items ≡ out.old.items ++ read_text code) }
{
    out.extend_from_slice(b"could not be read (code ")?;
    push_number(out, usize::from(code))?;
    push_status(out, drive_status(code))?;
    out.extend_from_slice(b"), ")?;
    Ok(())
}

/// Appends a read error, if the code is one.
#[tactic(auto, unfolding(crate::specs::Cells::block_error_text))]
fn push_error(out: &mut Vec<u8>, code: u8) -> Result<(), AllocError>
    ensures { OnOk result (out.new.items ≡ out.old.items ++ block_error_text code) }
{
    if is_read_error(code) {
        return push_read(out, code);
    }
    Ok(())
}

/// Appends the text before the owners of a block, which has `count` of them.
#[tactic(auto, unfolding(crate::specs::Cells::claim_text))]
fn push_claim(out: &mut Vec<u8>, count: usize) -> Result<(), AllocError>
    ensures { OnOk result (out.new.items ≡ out.old.items ++ claim_text count) }
{
    if count == 1 {
        return out.extend_from_slice(b"belongs to ");
    }
    out.extend_from_slice(b"shared by ")?;
    push_number(out, count)?;
    out.extend_from_slice(b": ")
}

/// Appends how a block with `count` owners is marked; the owners follow.
#[tactic(auto, unfolding(crate::specs::Cells::mark_text))]
fn push_marking(out: &mut Vec<u8>, count: usize, is_free: bool) -> Result<(), AllocError>
    ensures { OnOk result (out.new.items ≡ out.old.items ++ mark_text count is_free) }
{
    match (count, is_free) {
        (0, true) => out.extend_from_slice(b"free"),
        (0, false) => out.extend_from_slice(b"marked used, belongs to no file"),
        (_, true) => {
            out.extend_from_slice(b"marked free, but ")?;
            push_claim(out, count)
        }
        (_, false) => push_claim(out, count),
    }
}

/// Appends a block, its read error, and how it is marked and owned.
#[tactic(auto, unfolding(crate::specs::Cells::cell_text))]
fn push_cell_text(
    out: &mut Vec<u8>,
    inspection: &Inspection,
    block: BlockNo,
) -> Result<(), AllocError>
    ensures { OnOk result (out.new.items ≡ out.old.items ++ cell_text inspection.now block) }
{
    let survey = inspection.survey();
    push_block(out, block)?;
    out.extend_from_slice(b": ")?;
    push_error(out, code_of(inspection.codes(), block))?;
    push_marking(
        out,
        survey.owners(block).count(),
        is_marked_free(inspection.image(), block),
    )?;
    push_owners(out, survey, block)
}

/// Appends the title of a block, which a browser shows under the pointer. `text` is a buffer.
#[tactic(auto, unfolding(crate::specs::Cells::cell_title, out_markup::specs::Markup::element, out_markup::specs::Markup::tag))]
fn push_title(
    out: &mut Vec<u8>,
    inspection: &Inspection,
    block: BlockNo,
    text: &mut Vec<u8>,
) -> Result<(), AllocError>
    ensures { OnOk result (out.new.items ≡ out.old.items ++ cell_title inspection.now block) }
{
    text.clear();
    push_cell_text(text, inspection, block)?;
    out.extend_from_slice(b"<title>")?;
    push_escaped_within(out, TITLE_BYTES, text.as_slice())?;
    out.extend_from_slice(b"</title>")
}

/// Appends the square of a block at a place, with its title.
#[tactic(auto, unfolding(crate::specs::Cells::cell_square, out_markup::specs::Markup::element))]
fn push_square(
    out: &mut Vec<u8>,
    inspection: &Inspection,
    block: BlockNo,
    text: &mut Vec<u8>,
) -> Result<(), AllocError>
    ensures { OnOk result (out.new.items ≡ out.old.items ++ cell_square inspection.now block) }
{
    let colour = colour_of(inspection.survey(), block);
    push_square_tag(out, colour, column_x(block.sector()), row_y(block.track()))?;
    out.extend_from_slice(b">")?;
    push_title(out, inspection, block, text)?;
    out.extend_from_slice(b"</path>")
}

/// Appends the cell of a block.
#[tactic(auto, unfolding(crate::specs::Cells::block_cell))]
fn push_cell(
    out: &mut Vec<u8>,
    inspection: &Inspection,
    block: BlockNo,
    text: &mut Vec<u8>,
) -> Result<(), AllocError>
    ensures { OnOk result (out.new.items ≡ out.old.items ++ block_cell inspection.now block) }
{
    push_square(out, inspection, block, text)?;
    let state = state_of(inspection, block);
    push_mark(out, column_x(block.sector()), row_y(block.track()), state)?;
    out.extend_from_slice(b"\n")
}

/// Appends the cells of all blocks.
#[tactic(auto, unfolding(crate::specs::Cells::block_cells))]
pub(crate) fn push_cells(
    out: &mut Vec<u8>,
    inspection: &Inspection,
    text: &mut Vec<u8>,
) -> Result<(), AllocError>
    ensures { OnOk result (out.new.items ≡ out.old.items ++ block_cells inspection.now) }
{
    for block in inspection.image().blocks() {
        push_cell(out, inspection, block, text)?;
    }
    Ok(())
}
