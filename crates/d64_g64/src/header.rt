//! Headers of blocks.
ghost use Rattle.std.specs.Prelude.{◌≡◌, ℕ};
ghost use Rattle.d64_g64.specs.Codes.{value_or_zero};
ghost use Rattle.d64_g64.specs.Headers.{names_block, is_good_header, has_other_id, track_disk_id};

use crate::code::{are_equal, is_value, value_at, value_or_zero, xor_of};
use crate::start::Start;
use crate::track::{Track, count_starts, start_at};

/// The track whose headers have the disk's id.
pub(crate) const DIRECTORY_TRACK: u8 = 18;

/// The id of a disk, as its headers have it: bytes 5 and 4.
pub(crate) type Id = (u8, u8);

/// Whether a start is a header that names a track and a sector.
#[tactic(auto, unfolding(crate::specs::Headers::names_block))]
pub(crate) fn names(start: &Start<'_>, number: u8, sector: u8) -> bool
    ensures { (next : ℕ) → result ≡ names_block start.now.track number sector (start.now.place, next) }
{
    is_value(value_at(start, 0), 8)
        && is_value(value_at(start, 3), number)
        && is_value(value_at(start, 2), sector)
}

/// Whether a header's bytes have values, and its checksum is right.
#[tactic(auto, unfolding(crate::specs::Headers::is_good_header))]
pub(crate) fn is_good(start: &Start<'_>) -> bool
    ensures { (next : ℕ) → result ≡ is_good_header start.now.track (start.now.place, next) }
{
    let names = xor_of(value_at(start, 2), value_at(start, 3));
    let id = xor_of(value_at(start, 4), value_at(start, 5));
    are_equal(value_at(start, 1), xor_of(names, id))
}

/// Whether the disk has an id, and a header has another one.
pub(crate) fn has_other_id(start: &Start<'_>, id: Option<Id>) -> bool
    ensures { (next : ℕ) → result ≡ has_other_id id start.now.track (start.now.place, next) }
{
    match id {
        Some((high, low)) => {
            !(is_value(value_at(start, 5), high) && is_value(value_at(start, 4), low))
        }
        None => false,
    }
}

/// The disk's id, by its track 18: that of the first good header of 18/0, or None if
/// there is no such header.
pub(crate) fn disk_id(track: &Track<'_>) -> Option<Id>
    ensures { result ≡ track_disk_id track.now }
{
    for index in 0..count_starts(track) {
        let start = start_at(track, index);
        if names(&start, DIRECTORY_TRACK, 0) && is_good(&start) {
            let high = value_or_zero(value_at(&start, 5));
            return Some((high, value_or_zero(value_at(&start, 4))));
        }
    }
    None
}
