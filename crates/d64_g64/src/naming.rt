//! The blocks that the headers of a track name, of which the drive could read what follows.
ghost use Rattle.std.specs.Prelude.{◌≡◌, ◌++◌, ◌∷◌, [], ◌*◌, ◌<◌, true, length, OnOk};
ghost use Rattle.d64_g64.specs.Codes.{value_at, value_or_zero};
ghost use Rattle.d64_g64.specs.Dump.{id_in};
ghost use Rattle.d64_g64.specs.File.{is_g64, entry_track_bytes};
ghost use Rattle.d64_g64.specs.SoundNames.{is_sound_header, pair_named, names_by, is_read_as_g64, names_on};
ghost use Rattle.d64_g64.specs.Starts.{start_pairs};

use crate::block::read_behind;
use crate::code::{is_value, value_at, value_or_zero};
use crate::dump::read_id;
use crate::file::{begins_as_g64, is_g64};
use crate::header::Id;
use crate::refilling::is_d64_length;
use crate::start::Start;
use crate::track::{Track, TrackLists, count_starts, next_start, read_entry, start_at};
use d64_image::BLOCK_BYTES;
use std::alloc::{AllocError, Global};

/// Whether a start is a header whose code is 1, by the start after it.
fn is_sound_header(start: &Start<'_>, next: usize, id: Option<Id>) -> bool
    requires { next < 8 * length start.now.track }
    ensures { result ≡ is_sound_header id start.now.track (start.now.place, next) }
{
    let mut block = [0; BLOCK_BYTES];
    is_value(value_at(start, 0), 8) && read_behind(start, next, id, &mut block) == 1
}

/// Appends the track and the sector that a header names, if its code is 1.
#[tactic(auto, unfolding(crate::specs::SoundNames::names_by))]
fn add_name(
    names: &mut Vec<(u8, u8)>,
    start: &Start<'_>,
    next: usize,
    id: Option<Id>,
) -> Result<(), AllocError>
    requires { next < 8 * length start.now.track }
    ensures { OnOk result (names.new.items ≡ names.old.items ++ names_by id start.now.track ((start.now.place, next) ∷ [])) }
{
    if !is_sound_header(start, next, id) {
        return Ok(());
    }
    let number = value_or_zero(value_at(start, 3));
    let sector = value_or_zero(value_at(start, 2));
    names.push((number, sector))?;
    Ok(())
}

/// Appends the tracks and the sectors that the headers of a track with code 1 name.
fn add_names(names: &mut Vec<(u8, u8)>, track: &Track<'_>, id: Option<Id>) -> Result<(), AllocError>
    ensures { OnOk result (names.new.items ≡ names.old.items ++ names_by id track.now (start_pairs track.now)) }
{
    for index in 0..count_starts(track) {
        let start = start_at(track, index);
        let next = next_start(track, index);
        add_name(names, &start, next, id)?;
    }
    Ok(())
}

/// Appends those on the track of an entry of a G64.
fn add_entry(
    names: &mut Vec<(u8, u8)>,
    file: &[u8],
    entry: u8,
    lists: &mut TrackLists,
) -> Result<(), AllocError>
    requires { is_g64 file.now ≡ true }
    ensures { OnOk result (names.new.items ≡ names.old.items ++ names_by (id_in file.now) (entry_track_bytes file.now entry) (start_pairs (entry_track_bytes file.now entry))) }
{
    let id = read_id(file, lists)?;
    let track = read_entry(lists, file, entry)?;
    add_names(names, &track, id)
}

/// Whether a file is read as a G64, and not as a D64.
fn is_read_as_g64(file: &[u8]) -> bool
    ensures { result ≡ is_read_as_g64 file.now }
{
    !is_d64_length(file.len()) && begins_as_g64(file) && is_g64(file)
}

/// Replaces a list by the tracks and the sectors that the headers with code 1 on an entry of a G64
/// name, a whole track or a half track. Entries count from 0: entry 0 is track 1, entry 1 track
/// 1.5. The list is empty if the file is no G64.
#[tactic(auto, unfolding(crate::specs::SoundNames::names_on))]
pub fn list_names_on(
    alloc: Global,
    file: &[u8],
    entry: u8,
    names: &mut Vec<(u8, u8)>,
) -> Result<(), AllocError>
    ensures { OnOk result (names.new.items ≡ names_on file.now entry) }
{
    names.clear();
    if !is_read_as_g64(file) {
        return Ok(());
    }
    let mut lists = TrackLists {
        bytes: Vec::new(alloc),
        starts: Vec::new(alloc),
    };
    add_entry(names, file, entry, &mut lists)
}
