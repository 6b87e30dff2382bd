//! The track that is read, with its starts.
ghost use Rattle.std.specs.Prelude.{◌≡◌, ℕ, ◌*◌, ◌<◌, ◌≤◌, true, length, slice_index, IfOk};
ghost use Rattle.d64_g64.specs.File.{is_g64, entry_track_bytes, track_of};
ghost use Rattle.d64_g64.specs.Starts.{starts_on, next_of};

use crate::file::copy_entry;
use crate::start::{Start, list_starts};
use d64_image::TrackNo;
use std::alloc::AllocError;
use std::marker::Model;

/// A track: its bytes, of which there may be none, and its starts. In clauses it is its bytes.
#[derive(Drop)]
pub(crate) struct Track<'a> {
    bytes: &'a [u8],
    starts: &'a [u32],
}

impl<'a> Model for Track<'a> {
    ghost use Rattle.std.specs.Prelude.{◌≡◌, ℕ, ◌<◌, List, length};
    ghost use Rattle.d64_g64.specs.Starts.{starts_on};

    ghost Value = { List ℕ };

    ghost view = { λ track. track.bytes.now };

    ghost invariant = { λ track. (length track.bytes.now < 65536) × (track.starts.now ≡ starts_on track.bytes.now) };
}

/// The lists of a track, which the next one that is read uses again.
#[derive(Drop)]
pub(crate) struct TrackLists {
    pub(crate) bytes: Vec<u8>,
    pub(crate) starts: Vec<u32>,
}

/// Reads the track of an entry. Entries count from 0: entry 0 is track 1, entry 1 the half track
/// behind it. It has no bytes if the file has no such track.
pub(crate) fn read_entry<'a>(
    lists: &'a mut TrackLists,
    file: &[u8],
    entry: u8,
) -> Result<Track<'a>, AllocError>
    requires { is_g64 file.now ≡ true }
    ensures { IfOk result (λ track. track ≡ entry_track_bytes file.now entry) }
{
    copy_entry(&mut lists.bytes, file, entry)?;
    list_starts(&mut lists.starts, &lists.bytes)?;
    Ok(Track {
        bytes: &lists.bytes,
        starts: &lists.starts,
    })
}

/// Reads a whole track.
#[tactic(auto, unfolding(crate::specs::File::track_of))]
pub(crate) fn read_track<'a>(
    lists: &'a mut TrackLists,
    file: &[u8],
    track: TrackNo,
) -> Result<Track<'a>, AllocError>
    requires { is_g64 file.now ≡ true }
    ensures { IfOk result (λ bytes. bytes ≡ track_of file.now track) }
{
    read_entry(lists, file, 2 * track.number() - 2)
}

/// How many starts a track has.
pub(crate) fn count_starts(track: &Track<'_>) -> usize
    ensures { result ≡ length (starts_on track.now) }
{
    track.starts.len()
}

/// A start of a track.
pub(crate) fn start_at<'a>(track: &Track<'a>, index: usize) -> Start<'a>
    requires { index < length (starts_on track.now) }
    ensures { result ≡ record { track = track.now; place = slice_index (starts_on track.now) index } }
{
    Start {
        track: track.bytes,
        place: track.starts[index] as usize,
    }
}

/// The place of the start of a track after another one. The first one comes after the last one.
pub(crate) fn next_start(track: &Track<'_>, index: usize) -> usize
    requires { index < length (starts_on track.now) }
    ensures value { result ≡ next_of (starts_on track.now) index }
    ensures within { result < 8 * length track.now }
{
    let count = track.starts.len();
    if index + 1 < count {
        start_at(track, index + 1).place
    } else {
        start_at(track, 0).place
    }
}
