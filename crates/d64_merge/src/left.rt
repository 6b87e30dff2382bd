//! The tracks of G64 files that the merged dump doesn't have, and on which there are blocks that
//! it lacks.
ghost use Rattle.std.specs.Prelude.{◌≡◌, ◌∷◌, ◌++◌, [], if◌then◌else◌, map, IfOk, OnOk};
ghost use Rattle.d64_merge.specs.Left.{is_whole_track, is_missing, holds_missing, is_entry_left, left};

use crate::choice::Choice;
use crate::merging::is_outcome;
use crate::outcome::BlockOutcome;
use d64_g64::list_names_on;
use d64_image::BlockNo;
use std::alloc::{AllocError, Global};

/// The entry after the last one that a G64 can have.
const END_OF_ENTRIES: u8 = 255;

/// Whether an entry of a G64 is a whole track of a disk with this many tracks.
fn is_whole_track(tracks: u8, entry: u8) -> bool
    ensures { result ≡ is_whole_track tracks entry }
{
    entry % 2 == 0 && entry / 2 < tracks
}

/// Whether a block was lost, or the merged dump doesn't have it, by its track and sector. A pair
/// that no disk has is missing, too.
fn is_missing(list: &[Choice], track: u8, sector: u8) -> bool
    ensures { result ≡ is_missing list.now (track, sector) }
{
    match BlockNo::of(track, sector) {
        Some(block) => match list.get(block.index()) {
            Some(choice) => is_outcome(BlockOutcome::Lost, choice.outcome),
            None => true,
        },
        None => true,
    }
}

/// Whether an entry of a file holds, with its data, a block that was lost or that the merged dump
/// doesn't have.
fn holds_missing(
    alloc: Global,
    list: &[Choice],
    entry: u8,
    file: &[u8],
    names: &mut Vec<(u8, u8)>,
) -> Result<bool, AllocError>
    ensures { IfOk result (λ holds. holds ≡ holds_missing list.now entry file.now) }
{
    list_names_on(alloc, file, entry, names)?;
    Ok(names.iter().any(|pair| is_missing(list, pair.0, pair.1)))
}

/// Whether an entry is not a track of the merged dump, and one of the files holds such a block
/// there.
fn is_left(
    alloc: Global,
    tracks: u8,
    list: &[Choice],
    files: &[Vec<u8>],
    entry: u8,
    names: &mut Vec<(u8, u8)>,
) -> Result<bool, AllocError>
    ensures { IfOk result (λ is_one. is_one ≡ is_entry_left tracks list.now (map (λ file. file.items) files.now) entry) }
{
    if is_whole_track(tracks, entry) {
        return Ok(false);
    }
    let mut is_one = false;
    for file in files {
        let holds = holds_missing(alloc, list, entry, file, names)?;
        is_one = is_one || holds;
    }
    Ok(is_one)
}

/// Appends an entry to a list if `is_added` is true.
fn push_if(entries: &mut Vec<u8>, entry: u8, is_added: bool) -> Result<(), AllocError>
    ensures { OnOk result (entries.new.items ≡ entries.old.items ++ (if is_added then entry ∷ [] else [])) }
{
    if !is_added {
        return Ok(());
    }
    entries.push(entry)?;
    Ok(())
}

/// Lists the entries of G64 files that are not whole tracks of the merged dump and hold a block
/// that was lost or that the dump doesn't have. The numbers count from 0, ascending: 0 is track 1,
/// 1 is track 1.5. A file that is no G64 has no entries.
#[tactic(auto, unfolding(crate::specs::Left::left))]
pub fn list_left(
    alloc: Global,
    tracks: u8,
    list: &[Choice],
    files: &[Vec<u8>],
) -> Result<Vec<u8>, AllocError>
    ensures { IfOk result (λ entries. entries.items ≡ left tracks list.now (map (λ file. file.items) files.now)) }
{
    let mut entries = Vec::new(alloc);
    let mut names = Vec::new(alloc);
    for entry in 0..END_OF_ENTRIES {
        let is_one = is_left(alloc, tracks, list, files, entry, &mut names)?;
        push_if(&mut entries, entry, is_one)?;
    }
    Ok(entries)
}
