//! The picture of a disk inside a page: the blocks of a file are one shape, and the page has one
//! style for all of its pictures.
ghost use Rattle.std.specs.Prelude.{◌≡◌, ◌++◌, [], length, codes, OnOk};
ghost use Rattle.std.specs.List.{flat_map, slice_get};
ghost use Rattle.std.specs.FinSet as set;
ghost use Rattle.d64_map.specs.Map.{free_blocks};
ghost use Rattle.d64_files.specs.Directory.{entries};
ghost use Rattle.d64_survey.specs.Owners.{owners_of, way_slots};
ghost use Rattle.out_markup.specs.Markup.{attribute, element, empty_element, tag, escaped_text};
ghost use Rattle.out_picture.specs.Colours.{class_of};
ghost use Rattle.out_picture.specs.Regions.{colour_of_region, is_in};
ghost use Rattle.out_picture.specs.PagePicture.{step_from, step_in, steps_in, region_attributes, region_title, region_shape, dots, plain_regions, file_region, file_regions, regions, alert_at, alert, alerts, page_attributes, page_content, page_picture, page_svg_of};

use crate::block_state::{BlockState, is_marked_free, state_of};
use crate::cells::{column_x, row_y};
use crate::legend::push_legend;
use crate::region::{Region, colour_of_region, first_owner, is_in};
use crate::shapes::{push_colour, push_mark};
use crate::svg::{height, push_background, push_front, push_title, push_view_box};
use d64_files::Entry;
use d64_image::BlockNo;
use d64_survey::Inspection;
use out_markup::{push_attribute, push_escaped};
use out_messages::push_number;
use petscii::push_spelling;
use std::alloc::AllocError;

/// The steps along a square that fills a cell.
const SQUARE: &[u8] = b"h1v1h-1z";

/// The steps of a dot, on a grid that is moved to the middle of the cells.
const DOT: &[u8] = b"h0";

/// Appends steps from the corner of a block's cell.
#[tactic(auto, unfolding(crate::specs::PagePicture::step_from))]
fn push_step(out: &mut Vec<u8>, steps: &[u8], block: BlockNo) -> Result<(), AllocError>
    ensures { OnOk result (out.new.items ≡ out.old.items ++ step_from steps.now block) }
{
    out.extend_from_slice(b"M")?;
    push_number(out, usize::from(block.sector()))?;
    out.extend_from_slice(b" ")?;
    push_number(out, usize::from(block.track()))?;
    out.extend_from_slice(steps)
}

/// Appends the same, if the block is in a region.
#[tactic(auto, unfolding(crate::specs::PagePicture::step_in))]
fn push_step_in(
    out: &mut Vec<u8>,
    inspection: &Inspection,
    region: &Region,
    steps: &[u8],
    block: BlockNo,
) -> Result<(), AllocError>
    ensures { OnOk result (out.new.items ≡ out.old.items ++ step_in inspection.now.image region.now steps.now block) }
{
    let owner = first_owner(inspection.survey(), block);
    let is_free = is_marked_free(inspection.image(), block);
    if is_in(region, owner, is_free) {
        return push_step(out, steps, block);
    }
    Ok(())
}

/// Appends the same for all blocks.
#[tactic(auto, unfolding(crate::specs::PagePicture::steps_in))]
fn push_steps_in(
    out: &mut Vec<u8>,
    inspection: &Inspection,
    region: &Region,
    steps: &[u8],
) -> Result<(), AllocError>
    ensures { OnOk result (out.new.items ≡ out.old.items ++ steps_in inspection.now.image region.now steps.now) }
{
    for block in inspection.image().blocks() {
        push_step_in(out, inspection, region, steps, block)?;
    }
    Ok(())
}

/// Appends the attributes of a region's shape: its colour, and its squares.
#[tactic(auto, unfolding(crate::specs::PagePicture::region_attributes, out_markup::specs::Markup::attribute))]
fn push_region_attributes(
    out: &mut Vec<u8>,
    inspection: &Inspection,
    region: &Region,
) -> Result<(), AllocError>
    ensures { OnOk result (out.new.items ≡ out.old.items ++ region_attributes inspection.now.image region.now) }
{
    push_colour(out, colour_of_region(region))?;
    out.extend_from_slice(b" d=\"")?;
    push_steps_in(out, inspection, region, SQUARE)?;
    out.extend_from_slice(b"\"")
}

/// Appends the title of a region, which a browser shows under the pointer.
#[tactic(auto, unfolding(crate::specs::PagePicture::region_title, out_markup::specs::Markup::element, out_markup::specs::Markup::tag))]
fn push_region_title(out: &mut Vec<u8>, text: &[u8]) -> Result<(), AllocError>
    ensures { OnOk result (out.new.items ≡ out.old.items ++ region_title text.now) }
{
    out.extend_from_slice(b"<title>")?;
    push_escaped(out, text)?;
    out.extend_from_slice(b"</title>")
}

/// Appends the shape of a region, with this title.
#[tactic(auto, unfolding(crate::specs::PagePicture::region_shape, out_markup::specs::Markup::element, out_markup::specs::Markup::tag))]
fn push_region(
    out: &mut Vec<u8>,
    inspection: &Inspection,
    region: &Region,
    text: &[u8],
) -> Result<(), AllocError>
    ensures { OnOk result (out.new.items ≡ out.old.items ++ region_shape inspection.now.image region.now text.now) }
{
    out.extend_from_slice(b"<path")?;
    push_region_attributes(out, inspection, region)?;
    out.extend_from_slice(b">")?;
    push_region_title(out, text)?;
    out.extend_from_slice(b"</path>\n")
}

/// Appends the dots on blocks that are marked used and belong to no file.
#[tactic(auto, unfolding(crate::specs::PagePicture::dots))]
fn push_dots(out: &mut Vec<u8>, inspection: &Inspection) -> Result<(), AllocError>
    ensures { OnOk result (out.new.items ≡ out.old.items ++ dots inspection.now.image) }
{
    out.extend_from_slice(b"<path class=\"dot\" transform=\"translate(.5 .5)\" d=\"")?;
    push_steps_in(out, inspection, &Region::Unowned, DOT)?;
    out.extend_from_slice(b"\"/>\n")
}

/// Appends the regions that belong to no file.
#[tactic(auto, unfolding(crate::specs::PagePicture::plain_regions))]
fn push_plain_regions(out: &mut Vec<u8>, inspection: &Inspection) -> Result<(), AllocError>
    ensures { OnOk result (out.new.items ≡ out.old.items ++ plain_regions inspection.now.image) }
{
    push_region(out, inspection, &Region::Free, b"free")?;
    push_region(
        out,
        inspection,
        &Region::Unowned,
        b"marked used, belongs to no file",
    )?;
    push_dots(out, inspection)?;
    push_region(out, inspection, &Region::System, b"map or directory")
}

/// Appends the region of the file of a slot, if the slot is used. `text` is a buffer.
#[tactic(auto, unfolding(crate::specs::PagePicture::file_region))]
fn push_file_region(
    out: &mut Vec<u8>,
    inspection: &Inspection,
    entry: &Entry,
    text: &mut Vec<u8>,
) -> Result<(), AllocError>
    ensures { OnOk result (out.new.items ≡ out.old.items ++ file_region inspection.now.image entry.now) }
{
    if !entry.used() {
        return Ok(());
    }
    text.clear();
    push_spelling(text, entry.name())?;
    let region = Region::File(entry.slot());
    push_region(out, inspection, &region, text.as_slice())
}

/// Appends the regions of all files.
#[tactic(auto, unfolding(crate::specs::PagePicture::file_regions))]
fn push_file_regions(out: &mut Vec<u8>, inspection: &Inspection) -> Result<(), AllocError>
    ensures { OnOk result (out.new.items ≡ out.old.items ++ file_regions inspection.now.image) }
{
    let mut text = Vec::new(*out.allocator());
    for entry in inspection.survey().slots() {
        push_file_region(out, inspection, &entry, &mut text)?;
    }
    Ok(())
}

/// Appends all regions, on a grid whose cells are one wide.
#[tactic(auto, unfolding(crate::specs::PagePicture::regions))]
fn push_regions(out: &mut Vec<u8>, inspection: &Inspection) -> Result<(), AllocError>
    ensures { OnOk result (out.new.items ≡ out.old.items ++ regions inspection.now.image) }
{
    out.extend_from_slice(b"<g class=\"cells\" transform=\"translate(46 62) scale(22)\">\n")?;
    push_plain_regions(out, inspection)?;
    push_file_regions(out, inspection)?;
    out.extend_from_slice(b"</g>\n")
}

/// Appends the mark of a state, if it means that something is wrong with the block.
fn push_alert_at(out: &mut Vec<u8>, x: usize, y: usize, state: BlockState) -> Result<(), AllocError>
    ensures { OnOk result (out.new.items ≡ out.old.items ++ alert_at x y state) }
{
    match state {
        BlockState::Free | BlockState::File | BlockState::System | BlockState::Unowned => Ok(()),
        BlockState::Fault | BlockState::Unreadable => push_mark(out, x, y, state),
    }
}

/// Appends the mark of a block, if something is wrong with it.
#[tactic(auto, unfolding(crate::specs::PagePicture::alert))]
fn push_alert(out: &mut Vec<u8>, inspection: &Inspection, block: BlockNo) -> Result<(), AllocError>
    ensures { OnOk result (out.new.items ≡ out.old.items ++ alert inspection.now block) }
{
    let state = state_of(inspection, block);
    push_alert_at(out, column_x(block.sector()), row_y(block.track()), state)
}

/// Appends the marks of all blocks.
#[tactic(auto, unfolding(crate::specs::PagePicture::alerts))]
fn push_alerts(out: &mut Vec<u8>, inspection: &Inspection) -> Result<(), AllocError>
    ensures { OnOk result (out.new.items ≡ out.old.items ++ alerts inspection.now) }
{
    for block in inspection.image().blocks() {
        push_alert(out, inspection, block)?;
    }
    Ok(())
}

/// Appends the attributes of the picture, which a screen reader takes for one image.
#[tactic(auto, unfolding(crate::specs::PagePicture::page_attributes))]
fn push_page_attributes(out: &mut Vec<u8>, high: usize) -> Result<(), AllocError>
    ensures { OnOk result (out.new.items ≡ out.old.items ++ page_attributes high) }
{
    push_attribute(out, b"class", b"disk")?;
    push_attribute(out, b"role", b"img")?;
    push_view_box(out, high)
}

/// Appends the whole content of the picture.
#[tactic(auto, unfolding(crate::specs::PagePicture::page_content))]
fn push_page_content(
    out: &mut Vec<u8>,
    name: &[u8],
    inspection: &Inspection,
    high: usize,
) -> Result<(), AllocError>
    ensures { OnOk result (out.new.items ≡ out.old.items ++ page_content name.now inspection.now high) }
{
    out.extend_from_slice(b"\n")?;
    push_title(out, name, inspection)?;
    push_background(out, high)?;
    push_front(out, name, inspection)?;
    push_regions(out, inspection)?;
    push_alerts(out, inspection)?;
    push_legend(out, inspection)
}

/// Appends the map as a picture inside a page, whose style has `push_picture_rules`: a shape for
/// the blocks of each file, with its name as a title, and a mark on each block with which something
/// is wrong.
#[tactic(auto, unfolding(crate::specs::PagePicture::page_svg_of, crate::specs::PagePicture::page_picture, out_markup::specs::Markup::element, out_markup::specs::Markup::tag))]
pub fn page_svg(name: &[u8], inspection: &Inspection, out: &mut Vec<u8>) -> Result<(), AllocError>
    ensures { OnOk result (out.new.items ≡ out.old.items ++ page_svg_of name.now inspection.now) }
{
    let high = height(inspection.image().tracks(), inspection.entries());
    out.extend_from_slice(b"<svg")?;
    push_page_attributes(out, high)?;
    out.extend_from_slice(b">")?;
    push_page_content(out, name, inspection, high)?;
    out.extend_from_slice(b"</svg>\n")
}
