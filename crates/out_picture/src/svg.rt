//! The map of a disk as a picture in SVG 1.1.
ghost use Rattle.std.specs.Prelude.{◌≡◌, ◌<◌, ◌≤◌, ◌++◌, codes, length, OnOk};
ghost use Rattle.std.specs.List.{flat_map, range_with_len};
ghost use Rattle.d64_image.specs.Image.{tracks_of};
ghost use Rattle.d64_survey.specs.Inspection.{entry_count};
ghost use Rattle.out_messages.specs.StateText.{label_text};
ghost use Rattle.out_markup.specs.Markup.{element, tag};
ghost use Rattle.out_picture.specs.Svg.{name_text, picture_summary, height as height_of, description, title, page, page_attributes, label_line, summary_line, heads, column_head, column_heads, row_head, row_heads, view_box, picture_attributes, top, front, picture_content, picture, svg_of};

use crate::cells::{column_x, push_cells, row_y};
use crate::legend::{SHOWN_FILES, push_legend, rows_below};
use crate::shapes::{push_number_of, push_text_at, push_text_of};
use crate::style::push_style;
use d64_image::{Image, TrackNo};
use d64_survey::Inspection;
use host_storage::push_shown;
use out_markup::{push_attribute, push_escaped, push_held, push_number_attribute, push_shortened};
use out_messages::{push_contents, push_label, push_number, push_state};
use std::alloc::AllocError;

/// The width of the picture.
const WIDTH: usize = 790;

/// The number of columns: the most sectors of a track.
const COLUMNS: u8 = 21;

/// The most bytes of the disk's name and id that are shown above the grid.
const LABEL_BYTES: usize = 60;

/// Returns the height of the picture, for this many tracks and files.
#[tactic(auto, unfolding(crate::specs::Svg::height))]
pub(crate) fn height(tracks: u8, count: usize) -> usize
    ensures { result ≡ height_of tracks count }
{
    108 + 22 * usize::from(tracks) + 20 * rows_below(count.min(SHOWN_FILES + 1))
}

/// Appends a name of the host as it is shown, in characters that XML allows.
#[tactic(auto, unfolding(crate::specs::Svg::name_text))]
fn push_name_text(out: &mut Vec<u8>, name: &[u8]) -> Result<(), AllocError>
    ensures { OnOk result (out.new.items ≡ out.old.items ++ name_text name.now) }
{
    let mut text = Vec::new(*out.allocator());
    push_shown(&mut text, name)?;
    push_held(out, text.as_slice())
}

/// Appends the file's name, what is on the disk, and its state.
#[tactic(auto, unfolding(crate::specs::Svg::picture_summary))]
fn push_summary(out: &mut Vec<u8>, name: &[u8], inspection: &Inspection) -> Result<(), AllocError>
    ensures { OnOk result (out.new.items ≡ out.old.items ++ picture_summary name.now inspection.now) }
{
    push_name_text(out, name)?;
    out.extend_from_slice(b": ")?;
    push_contents(out, inspection)?;
    out.extend_from_slice(b": ")?;
    push_state(out, inspection)
}

/// Appends the disk's name and id, and the summary.
#[tactic(auto, unfolding(crate::specs::Svg::description))]
fn push_description(
    out: &mut Vec<u8>,
    name: &[u8],
    inspection: &Inspection,
) -> Result<(), AllocError>
    ensures { OnOk result (out.new.items ≡ out.old.items ++ description name.now inspection.now) }
{
    push_label(out, inspection.image())?;
    out.extend_from_slice(b", ")?;
    push_summary(out, name, inspection)
}

/// Appends the title.
#[tactic(auto, unfolding(crate::specs::Svg::title, out_markup::specs::Markup::element, out_markup::specs::Markup::tag))]
pub(crate) fn push_title(
    out: &mut Vec<u8>,
    name: &[u8],
    inspection: &Inspection,
) -> Result<(), AllocError>
    ensures { OnOk result (out.new.items ≡ out.old.items ++ title name.now inspection.now) }
{
    let mut text = Vec::new(*out.allocator());
    push_description(&mut text, name, inspection)?;
    out.extend_from_slice(b"<title>")?;
    push_escaped(out, text.as_slice())?;
    out.extend_from_slice(b"</title>\n")
}

/// Appends the attributes of the background.
#[tactic(auto, unfolding(crate::specs::Svg::page_attributes))]
fn push_background_attributes(out: &mut Vec<u8>, high: usize) -> Result<(), AllocError>
    ensures { OnOk result (out.new.items ≡ out.old.items ++ page_attributes high) }
{
    push_attribute(out, b"class", b"page")?;
    push_number_attribute(out, b"width", WIDTH)?;
    push_number_attribute(out, b"height", high)
}

/// Appends the background.
#[tactic(auto, unfolding(crate::specs::Svg::page, out_markup::specs::Markup::empty_element, out_markup::specs::Markup::tag))]
pub(crate) fn push_background(out: &mut Vec<u8>, high: usize) -> Result<(), AllocError>
    ensures { OnOk result (out.new.items ≡ out.old.items ++ page high) }
{
    out.extend_from_slice(b"<rect")?;
    push_background_attributes(out, high)?;
    out.extend_from_slice(b"/>\n")
}

/// Appends the disk's name and id, as far as they fit.
#[tactic(auto, unfolding(crate::specs::Svg::label_line))]
fn push_label_line(out: &mut Vec<u8>, image: &Image) -> Result<(), AllocError>
    ensures { OnOk result (out.new.items ≡ out.old.items ++ label_line image.now) }
{
    let mut text = Vec::new(*out.allocator());
    push_label(&mut text, image)?;
    let mut shown = Vec::new(*out.allocator());
    push_shortened(&mut shown, LABEL_BYTES, text.as_slice())?;
    push_text_of(out, b"head", 46, 30, shown.as_slice())
}

/// Appends the summary, below them.
#[tactic(auto, unfolding(crate::specs::Svg::summary_line))]
fn push_summary_line(
    out: &mut Vec<u8>,
    name: &[u8],
    inspection: &Inspection,
) -> Result<(), AllocError>
    ensures { OnOk result (out.new.items ≡ out.old.items ++ summary_line name.now inspection.now) }
{
    let mut text = Vec::new(*out.allocator());
    push_summary(&mut text, name, inspection)?;
    push_text_at(out, 46, 50, text.as_slice())
}

/// Appends the two lines above the grid.
#[tactic(auto, unfolding(crate::specs::Svg::heads))]
fn push_heads(out: &mut Vec<u8>, name: &[u8], inspection: &Inspection) -> Result<(), AllocError>
    ensures { OnOk result (out.new.items ≡ out.old.items ++ heads name.now inspection.now) }
{
    push_label_line(out, inspection.image())?;
    out.extend_from_slice(b"\n")?;
    push_summary_line(out, name, inspection)?;
    out.extend_from_slice(b"\n")
}

/// Appends the number of a sector, above its column.
#[tactic(auto, unfolding(crate::specs::Svg::column_head))]
fn push_column_head(out: &mut Vec<u8>, sector: u8) -> Result<(), AllocError>
    ensures { OnOk result (out.new.items ≡ out.old.items ++ column_head sector) }
{
    push_number_of(
        out,
        b"middle",
        column_x(sector) + 10,
        76,
        usize::from(sector),
    )?;
    out.extend_from_slice(b"\n")
}

/// Appends the numbers of the sectors.
#[tactic(auto, unfolding(crate::specs::Svg::column_heads))]
fn push_column_heads(out: &mut Vec<u8>) -> Result<(), AllocError>
    ensures { OnOk result (out.new.items ≡ out.old.items ++ column_heads) }
{
    for sector in 0..COLUMNS {
        push_column_head(out, sector)?;
    }
    Ok(())
}

/// Appends the number of a track, before its row.
#[tactic(auto, unfolding(crate::specs::Svg::row_head))]
fn push_row_head(out: &mut Vec<u8>, track: TrackNo) -> Result<(), AllocError>
    ensures { OnOk result (out.new.items ≡ out.old.items ++ row_head track) }
{
    let number = track.number();
    push_number_of(out, b"end", 38, row_y(number) + 14, usize::from(number))?;
    out.extend_from_slice(b"\n")
}

/// Appends the numbers of the tracks.
fn push_row_heads(out: &mut Vec<u8>, image: &Image) -> Result<(), AllocError>
    ensures { OnOk result (out.new.items ≡ out.old.items ++ row_heads (tracks_of (length image.now))) }
{
    for track in image.each_track() {
        push_row_head(out, track)?;
    }
    Ok(())
}

/// Appends the part of the page that is seen.
#[tactic(auto, unfolding(crate::specs::Svg::view_box, out_markup::specs::Markup::attribute))]
pub(crate) fn push_view_box(out: &mut Vec<u8>, high: usize) -> Result<(), AllocError>
    ensures { OnOk result (out.new.items ≡ out.old.items ++ view_box high) }
{
    out.extend_from_slice(b" viewBox=\"0 0 790 ")?;
    push_number(out, high)?;
    out.extend_from_slice(b"\"")?;
    Ok(())
}

/// Appends the attributes of the picture.
#[tactic(auto, unfolding(crate::specs::Svg::picture_attributes))]
fn push_attributes(out: &mut Vec<u8>, high: usize) -> Result<(), AllocError>
    ensures { OnOk result (out.new.items ≡ out.old.items ++ picture_attributes high) }
{
    push_attribute(out, b"xmlns", b"http://www.w3.org/2000/svg")?;
    push_attribute(out, b"version", b"1.1")?;
    push_attribute(out, b"class", b"disk")?;
    push_view_box(out, high)?;
    Ok(())
}

/// Appends the title, the style and the background.
#[tactic(auto, unfolding(crate::specs::Svg::top))]
fn push_top(
    out: &mut Vec<u8>,
    name: &[u8],
    inspection: &Inspection,
    high: usize,
) -> Result<(), AllocError>
    ensures { OnOk result (out.new.items ≡ out.old.items ++ top name.now inspection.now high) }
{
    out.extend_from_slice(b"\n")?;
    push_title(out, name, inspection)?;
    push_style(out)?;
    push_background(out, high)
}

/// Appends what is drawn around the cells, before them.
#[tactic(auto, unfolding(crate::specs::Svg::front))]
pub(crate) fn push_front(
    out: &mut Vec<u8>,
    name: &[u8],
    inspection: &Inspection,
) -> Result<(), AllocError>
    ensures { OnOk result (out.new.items ≡ out.old.items ++ front name.now inspection.now) }
{
    push_heads(out, name, inspection)?;
    push_column_heads(out)?;
    push_row_heads(out, inspection.image())
}

/// Appends the whole content of the picture.
#[tactic(auto, unfolding(crate::specs::Svg::picture_content))]
fn push_content(
    out: &mut Vec<u8>,
    name: &[u8],
    inspection: &Inspection,
    high: usize,
) -> Result<(), AllocError>
    ensures { OnOk result (out.new.items ≡ out.old.items ++ picture_content name.now inspection.now high) }
{
    let mut text = Vec::new(*out.allocator());
    push_top(out, name, inspection, high)?;
    push_front(out, name, inspection)?;
    push_cells(out, inspection, &mut text)?;
    push_legend(out, inspection)
}

/// Appends the map as a picture in SVG 1.1: a cell for each block, in the colour of its file, with
/// a mark if something is wrong with it, and a title with its owners; and a legend. No name makes
/// markup in it.
#[tactic(auto, unfolding(crate::specs::Svg::svg_of, crate::specs::Svg::picture, out_markup::specs::Markup::element, out_markup::specs::Markup::tag))]
pub fn map_svg(name: &[u8], inspection: &Inspection, out: &mut Vec<u8>) -> Result<(), AllocError>
    ensures { OnOk result (out.new.items ≡ out.old.items ++ svg_of name.now inspection.now) }
{
    let high = height(inspection.image().tracks(), inspection.entries());
    out.extend_from_slice(b"<svg")?;
    push_attributes(out, high)?;
    out.extend_from_slice(b">")?;
    push_content(out, name, inspection, high)?;
    out.extend_from_slice(b"</svg>\n")
}
