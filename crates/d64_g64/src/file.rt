//! G64 files and the places of their tracks.
ghost use Rattle.std.specs.Prelude.{◌≡◌, ℕ, ◌+◌, ◌-◌, ◌*◌, ◌<◌, ◌≤◌, true, length, OnOk, if◌then◌else◌, Some, None};
ghost use Rattle.d64_g64.specs.File.{begins_as_g64, number_of_two, number_of_four, is_g64, place_count, offset_of, has_track, padded, entry_track_bytes};

use std::alloc::AllocError;

/// Whether the file begins with the text of a G64, `GCR-1541`.
#[tactic(auto, unfolding(crate::specs::File::begins_as_g64))]
pub fn begins_as_g64(file: &[u8]) -> bool
    ensures { result ≡ begins_as_g64 file.now }
{
    file.starts_with(b"GCR-1541")
}

/// Whether the file has the header of a G64 and the places of its tracks.
#[tactic(auto, unfolding(crate::specs::File::is_g64))]
pub(crate) fn is_g64(file: &[u8]) -> bool
    ensures { result ≡ is_g64 file.now }
{
    file.len() >= 12 && file[8] == 0 && 12 + 8 * usize::from(file[9]) <= file.len()
}

/// The number of two bytes, the lower first.
fn number_of_two(file: &[u8], place: usize) -> usize
    requires { place + 2 ≤ length file.now }
    ensures value { result ≡ number_of_two file.now place }
    ensures below { result < 65536 }
{
    usize::from(file[place]) + 256 * usize::from(file[place + 1])
}

/// The place of the length of an entry's track, from 0.
#[tactic(auto, unfolding(crate::specs::File::offset_of))]
fn offset_of(file: &[u8], entry: u8) -> usize
    requires { 12 + 4 * entry + 4 ≤ length file.now }
    ensures value { result ≡ offset_of file.now entry }
    ensures below { result < 4294967296 }
{
    let place = 12 + 4 * usize::from(entry);
    number_of_two(file, place) + 65536 * number_of_two(file, place + 2)
}

/// Whether the file has the track of an entry, from 0.
fn has_track(file: &[u8], entry: u8) -> bool
    requires file { is_g64 file.now ≡ true }
    ensures { result ≡ has_track file.now entry }
{
    if entry >= file[9] {
        return false;
    }
    let offset = offset_of(file, entry);
    offset != 0 && offset + 2 <= file.len()
}

/// Copies `count` bytes of a file from a place on. Bytes past the file's end are 0.
fn copy_padded(
    copy: &mut Vec<u8>,
    file: &[u8],
    place: usize,
    count: usize,
) -> Result<(), AllocError>
    requires place { place ≤ length file.now }
    requires count { count < 65536 }
    ensures copied { OnOk result (copy.new.items ≡ padded file.now place count) }
    ensures short { OnOk result (length copy.new.items < 65536) }
{
    copy.clear();
    let there = file.len() - place;
    let end = if there < count {
        file.len()
    } else {
        place + count
    };
    copy.extend_from_slice(&file[place..end])?;
    copy.resize(count, 0)
}

/// Copies the bytes of an entry's track, or no bytes if the file has no such track. Entries count
/// from 0: entry 0 is track 1, entry 1 the half track behind it.
pub(crate) fn copy_entry(copy: &mut Vec<u8>, file: &[u8], entry: u8) -> Result<(), AllocError>
    requires file { is_g64 file.now ≡ true }
    ensures copied { OnOk result (copy.new.items ≡ entry_track_bytes file.now entry) }
    ensures short { OnOk result (length copy.new.items < 65536) }
{
    if !has_track(file, entry) {
        copy.clear();
        return Ok(());
    }
    let offset = offset_of(file, entry);
    copy_padded(copy, file, offset + 2, number_of_two(file, offset))
}
