//! The map of a disk as text.
ghost use Rattle.std.specs.Prelude.{◌≡◌, ◌++◌, OnOk};
ghost use Rattle.cmd_map.specs.MapText.{map_head_line, column_lines, padded_number, track_row, track_line, track_lines, legend_line, map_text as map_text_of};

use d64_image::{BlockNo, TrackNo};
use d64_survey::Inspection;
use host_storage::push_shown;
use out_messages::{push_label, push_number, push_state};
use out_picture::state_of;
use std::alloc::AllocError;

/// The most sectors of a track.
const SECTORS: u8 = 21;

/// The numbers of the sectors, above the rows: tens, and then ones.
const COLUMN_LINES: &[u8] = b"      0         1         2\n      012345678901234567890\n";

/// What each character means.
const LEGEND_LINE: &[u8] =
    b"- free   # a file   = map or directory   ? marked used, belongs to no file   ! shared, or wrongly marked free   x read error\n";

/// Appends the line with the file's name, the disk's name, and its state.
#[tactic(auto, unfolding(crate::specs::MapText::map_head_line))]
fn push_head(out: &mut Vec<u8>, name: &[u8], inspection: &Inspection) -> Result<(), AllocError>
    ensures { OnOk result (out.new.items ≡ out.old.items ++ map_head_line name.now inspection.now) }
{
    push_shown(out, name)?;
    out.extend_from_slice(b" ")?;
    push_label(out, inspection.image())?;
    out.extend_from_slice(b": ")?;
    push_state(out, inspection)?;
    out.extend_from_slice(b"\n")
}

/// Appends a track's number, right-aligned to four characters.
#[tactic(auto, unfolding(crate::specs::MapText::padded_number))]
fn push_padded(out: &mut Vec<u8>, track: TrackNo) -> Result<(), AllocError>
    ensures { OnOk result (out.new.items ≡ out.old.items ++ padded_number track) }
{
    let number = track.number();
    out.extend_from_slice(if number < 10 { b"   " } else { b"  " })?;
    push_number(out, usize::from(number))
}

/// Appends the characters of a track's blocks.
fn push_row(out: &mut Vec<u8>, inspection: &Inspection, track: TrackNo) -> Result<(), AllocError>
    ensures { OnOk result (out.new.items ≡ out.old.items ++ track_row inspection.now track) }
{
    let number = track.number();
    for sector in 0..SECTORS {
        match BlockNo::of(number, sector) {
            Some(block) => out.extend_from_slice(state_of(inspection, block).mark())?,
            None => {}
        }
    }
    Ok(())
}

/// Appends the line of a track.
#[tactic(auto, unfolding(crate::specs::MapText::track_line))]
fn push_track(out: &mut Vec<u8>, inspection: &Inspection, track: TrackNo) -> Result<(), AllocError>
    ensures { OnOk result (out.new.items ≡ out.old.items ++ track_line inspection.now track) }
{
    push_padded(out, track)?;
    out.extend_from_slice(b"  ")?;
    push_row(out, inspection, track)?;
    out.extend_from_slice(b"\n")
}

/// Appends the lines of all tracks.
fn push_tracks(out: &mut Vec<u8>, inspection: &Inspection) -> Result<(), AllocError>
    ensures { OnOk result (out.new.items ≡ out.old.items ++ track_lines inspection.now) }
{
    for track in inspection.image().each_track() {
        push_track(out, inspection, track)?;
    }
    Ok(())
}

/// Appends the map as text: a head line, the numbers of the sectors, a line for each track with a
/// character for each of its sectors, and what the characters mean.
#[tactic(auto, unfolding(crate::specs::MapText::map_text))]
pub fn map_text(name: &[u8], inspection: &Inspection, out: &mut Vec<u8>) -> Result<(), AllocError>
    ensures { OnOk result (out.new.items ≡ out.old.items ++ map_text_of name.now inspection.now) }
{
    push_head(out, name, inspection)?;
    out.extend_from_slice(COLUMN_LINES)?;
    push_tracks(out, inspection)?;
    out.extend_from_slice(LEGEND_LINE)
}
