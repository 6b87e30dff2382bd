//! The legend of a picture: its marks, and its files.
ghost use Rattle.std.specs.Prelude.{◌≡◌, ◌<◌, ◌≤◌, ◌++◌, codes, decimal, length, OnOk};
ghost use Rattle.d64_image.specs.Image.{tracks_of};
ghost use Rattle.d64_survey.specs.Inspection.{entry_count};
ghost use Rattle.out_picture.specs.Legend.{sample, state_sample, state_words, state_row, state_rows, row_x as row_x_of, row_y as row_y_of, legend_name_at, legend_file_row, placed_row, legend_file_rows, more_row, files_head, legend, rows_below as rows_below_of};

use crate::block_state::BlockState;
use crate::colour::{Colour, colour_of_slot};
use crate::shapes::{
    push_mark, push_number_of, push_path, push_square_tag, push_text_at, push_text_of,
};
use d64_files::Entry;
use d64_image::Image;
use d64_survey::Inspection;
use out_markup::push_shortened;
use out_messages::{blocks_there, push_number};
use petscii::push_spelling;
use std::alloc::AllocError;

/// The most files that are shown.
pub(crate) const SHOWN_FILES: usize = 144;

/// The number of rows beside the grid.
const ROWS_BESIDE: usize = 30;

/// The most bytes of a file's name that are shown, in text form.
const NAME_BYTES: usize = 24;

/// The x coordinate of the column beside the grid.
const BESIDE: usize = 532;

/// Returns the colour in which a state is shown.
fn sample(state: BlockState) -> Colour
    ensures { result ≡ sample state }
{
    match state {
        BlockState::Free => Colour::Free,
        BlockState::System => Colour::System,
        BlockState::Unowned => Colour::Unowned,
        BlockState::File | BlockState::Fault | BlockState::Unreadable => Colour::File(0),
    }
}

/// Returns the legend's text for a state.
fn state_words(state: BlockState) -> &'static [u8]
    ensures { result.now ≡ state_words state }
{
    match state {
        BlockState::Free => b"free",
        BlockState::File => b"a file, in its colour",
        BlockState::System => b"map or directory",
        BlockState::Unowned => b"marked used, belongs to no file",
        BlockState::Fault => b"shared, or wrongly marked free",
        BlockState::Unreadable => b"read error",
    }
}

/// Appends a square and the mark of a state on it.
#[tactic(auto, unfolding(out_markup::specs::Markup::empty_element))]
fn push_sample(out: &mut Vec<u8>, y: usize, state: BlockState) -> Result<(), AllocError>
    requires { y < 1000 }
    ensures { OnOk result (out.new.items ≡ out.old.items ++ state_sample y state) }
{
    push_square_tag(out, sample(state), BESIDE, y)?;
    out.extend_from_slice(b"/>")?;
    push_mark(out, BESIDE, y, state)
}

/// Appends the row of a state.
#[tactic(auto, unfolding(crate::specs::Legend::state_row))]
fn push_state_row(out: &mut Vec<u8>, y: usize, state: BlockState) -> Result<(), AllocError>
    requires { y < 1000 }
    ensures { OnOk result (out.new.items ≡ out.old.items ++ state_row y state) }
{
    push_sample(out, y, state)?;
    push_text_at(out, BESIDE + 28, y + 14, state_words(state))?;
    out.extend_from_slice(b"\n")
}

/// Appends a row for each state.
#[tactic(auto, unfolding(crate::specs::Legend::state_rows))]
fn push_state_rows(out: &mut Vec<u8>) -> Result<(), AllocError>
    ensures { OnOk result (out.new.items ≡ out.old.items ++ state_rows) }
{
    push_state_row(out, 84, BlockState::Free)?;
    push_state_row(out, 106, BlockState::File)?;
    push_state_row(out, 128, BlockState::System)?;
    push_state_row(out, 150, BlockState::Unowned)?;
    push_state_row(out, 172, BlockState::Fault)?;
    push_state_row(out, 194, BlockState::Unreadable)
}

/// Returns the x coordinate of the row at a place in the list of files.
#[tactic(auto, unfolding(crate::specs::Legend::row_x))]
fn row_x(place: usize) -> usize
    ensures value { result ≡ row_x_of place }
    ensures small { result < 1000 }
{
    if place < ROWS_BESIDE {
        BESIDE
    } else {
        46 + 243 * ((place - ROWS_BESIDE) % 3)
    }
}

/// Returns the y coordinate of the row at a place, in the picture of a disk with this many tracks.
#[tactic(auto, unfolding(crate::specs::Legend::row_y))]
fn row_y(tracks: u8, place: usize) -> usize
    requires { place ≤ 144 }
    ensures value { result ≡ row_y_of tracks place }
    ensures small { result < 10000 }
{
    if place < ROWS_BESIDE {
        240 + 20 * place
    } else {
        98 + 22 * usize::from(tracks) + 20 * ((place - ROWS_BESIDE) / 3)
    }
}

/// Appends a file's name, as far as it fits.
#[tactic(auto, unfolding(crate::specs::Legend::legend_name_at))]
fn push_name(out: &mut Vec<u8>, x: usize, y: usize, name: &[u8]) -> Result<(), AllocError>
    ensures { OnOk result (out.new.items ≡ out.old.items ++ legend_name_at x y name.now) }
{
    let mut text = Vec::new(*out.allocator());
    push_spelling(&mut text, name)?;
    let mut shown = Vec::new(*out.allocator());
    push_shortened(&mut shown, NAME_BYTES, text.as_slice())?;
    push_text_at(out, x, y, shown.as_slice())
}

/// Appends the row of a file at a place: its colour, its name, and its number of blocks.
#[tactic(auto, unfolding(crate::specs::Legend::legend_file_row))]
fn push_file_row(
    out: &mut Vec<u8>,
    x: usize,
    y: usize,
    entry: &Entry,
    blocks: usize,
) -> Result<(), AllocError>
    requires { (x < 1000) × (y < 10000) }
    ensures { OnOk result (out.new.items ≡ out.old.items ++ legend_file_row x y entry.now.slot entry.now.bytes blocks) }
{
    push_path(
        out,
        colour_of_slot(entry.slot()),
        x + 2,
        y + 2,
        b"h10v10h-10z",
    )?;
    push_name(out, x + 22, y + 11, entry.name())?;
    push_number_of(out, b"end", x + 226, y + 11, blocks)?;
    out.extend_from_slice(b"\n")?;
    Ok(())
}

/// Appends the row of a file at a place in the list.
#[tactic(auto, unfolding(crate::specs::Legend::placed_row))]
fn push_placed_row(
    out: &mut Vec<u8>,
    image: &Image,
    place: usize,
    entry: &Entry,
) -> Result<(), AllocError>
    requires { place ≤ 144 }
    ensures { OnOk result (out.new.items ≡ out.old.items ++ placed_row image.now (place, entry.now)) }
{
    let y = row_y(image.tracks(), place);
    push_file_row(out, row_x(place), y, entry, blocks_there(image, entry))
}

/// Appends the rows of the first of the files.
#[tactic(auto, unfolding(crate::specs::Legend::legend_file_rows))]
fn push_file_rows(out: &mut Vec<u8>, inspection: &Inspection) -> Result<(), AllocError>
    ensures { OnOk result (out.new.items ≡ out.old.items ++ legend_file_rows inspection.now.image) }
{
    let mut place = 0;
    for entry in inspection.survey().slots() {
        if entry.used() && place < SHOWN_FILES {
            push_placed_row(out, inspection.image(), place, &entry)?;
            place += 1;
        }
    }
    Ok(())
}

/// Appends how many of `count` files are not shown, if there are any.
#[tactic(auto, unfolding(crate::specs::Legend::more_row))]
fn push_more_row(out: &mut Vec<u8>, tracks: u8, count: usize) -> Result<(), AllocError>
    ensures { OnOk result (out.new.items ≡ out.old.items ++ more_row tracks count) }
{
    if count <= SHOWN_FILES {
        return Ok(());
    }
    let mut text = Vec::new(*out.allocator());
    text.extend_from_slice(b"and ")?;
    push_number(&mut text, count - SHOWN_FILES)?;
    text.extend_from_slice(b" more")?;
    push_text_at(
        out,
        row_x(SHOWN_FILES) + 22,
        row_y(tracks, SHOWN_FILES) + 11,
        text.as_slice(),
    )?;
    out.extend_from_slice(b"\n")
}

/// Appends the heading of the files.
#[tactic(auto, unfolding(crate::specs::Legend::files_head))]
fn push_files_head(out: &mut Vec<u8>) -> Result<(), AllocError>
    ensures { OnOk result (out.new.items ≡ out.old.items ++ files_head) }
{
    push_text_of(out, b"start", BESIDE, 230, b"file")?;
    push_text_of(out, b"end", BESIDE + 226, 230, b"blocks")?;
    out.extend_from_slice(b"\n")
}

/// Appends the legend.
#[tactic(auto, unfolding(crate::specs::Legend::legend))]
pub(crate) fn push_legend(out: &mut Vec<u8>, inspection: &Inspection) -> Result<(), AllocError>
    ensures { OnOk result (out.new.items ≡ out.old.items ++ legend inspection.now.image) }
{
    push_state_rows(out)?;
    push_files_head(out)?;
    push_file_rows(out, inspection)?;
    push_more_row(out, inspection.image().tracks(), inspection.entries())
}

/// Returns how many rows are below the grid, for `count` files.
#[tactic(auto, unfolding(crate::specs::Legend::rows_below))]
pub(crate) fn rows_below(count: usize) -> usize
    requires { count < 1000 }
    ensures value { result ≡ rows_below_of count }
    ensures small { result < 1000 }
{
    if count <= ROWS_BESIDE {
        0
    } else {
        (count - ROWS_BESIDE + 2) / 3
    }
}
