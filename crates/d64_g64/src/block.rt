//! Blocks, as the headers of a track name them.
ghost use Rattle.std.specs.Prelude.{◌≡◌, ℕ, ◌*◌, ◌<◌, ◌==◌, ◌&&◌, true, false, length, MatchOption, find};
ghost use Rattle.d64_g64.specs.Starts.{start_pairs};
ghost use Rattle.d64_g64.specs.Headers.{names_block};
ghost use Rattle.d64_g64.specs.Blocks.{names_readable, data_bytes, is_whole_block, data_code, header_code, bytes_behind, block_code_of, block_bytes_of, blank};

use crate::code::{is_value, value_at, value_or_zero};
use crate::header::{Id, has_other_id, is_good, names};
use crate::start::Start;
use crate::track::{Track, count_starts, next_start, start_at};
use d64_image::BLOCK_BYTES;

/// Makes all bytes of a block 0.
fn make_blank(block: &mut [u8; BLOCK_BYTES])
    ensures { block.new ≡ blank }
{
    *block = [0; BLOCK_BYTES];
}

/// Reads a data block: its bytes, 0 for one without a value. Returns whether all have values and
/// the checksum is right.
fn read_data(start: &Start<'_>, block: &mut [u8; BLOCK_BYTES]) -> bool
    ensures bytes { block.new ≡ data_bytes start.now.track start.now.place }
    ensures whole { result ≡ is_whole_block start.now.track start.now.place }
{
    let mut whole = true;
    let mut sum = 0;
    for k in 0..BLOCK_BYTES {
        let found = value_at(start, k + 1);
        let value = value_or_zero(found);
        whole &= found.is_some();
        sum ^= value;
        block[k] = value;
    }
    whole & is_value(value_at(start, 257), sum)
}

/// Reads what follows a header, by the start after it. Returns 1 if it is a whole data block, 5 if
/// it isn't whole, and 4 if it is no data block.
#[tactic(auto, unfolding(crate::specs::Blocks::data_code, crate::specs::Blocks::bytes_behind))]
fn read_next(next: &Start<'_>, block: &mut [u8; BLOCK_BYTES]) -> u8
    ensures code { result ≡ data_code next.now.track next.now.place }
    ensures bytes { block.new ≡ bytes_behind next.now.track next.now.place }
{
    if !is_value(value_at(next, 0), 7) {
        make_blank(block);
        return 4;
    }
    if read_data(next, block) { 1 } else { 5 }
}

/// Reads what follows a header. Returns the header's code.
pub(crate) fn read_behind(
    start: &Start<'_>,
    next: usize,
    id: Option<Id>,
    block: &mut [u8; BLOCK_BYTES],
) -> u8
    requires { next < 8 * length start.now.track }
    ensures code { result ≡ header_code id start.now.track (start.now.place, next) }
    ensures bytes { block.new ≡ bytes_behind start.now.track next }
{
    let behind = Start {
        track: start.track,
        place: next,
    };
    let code = read_next(&behind, block);
    if !is_good(start) {
        return 9;
    }
    if has_other_id(start, id) { 11 } else { code }
}

/// Reads a block behind the first header that names it and has code 1. Returns whether there is
/// one.
fn read_good(
    track: &Track<'_>,
    id: Option<Id>,
    number: u8,
    sector: u8,
    block: &mut [u8; BLOCK_BYTES],
) -> bool
    ensures { MatchOption (find (names_readable id track.now number sector) (start_pairs track.now))
        (result ≡ false)
        (λ pair. (result ≡ true) × (block.new ≡ bytes_behind track.now pair.1)) }
{
    for index in 0..count_starts(track) {
        let start = start_at(track, index);
        if names(&start, number, sector) {
            if read_behind(&start, next_start(track, index), id, block) == 1 {
                return true;
            }
        }
    }
    false
}

/// Reads a block behind the first header that names it, and zeros if there is no such header.
/// Returns the code.
fn read_first(
    track: &Track<'_>,
    id: Option<Id>,
    number: u8,
    sector: u8,
    block: &mut [u8; BLOCK_BYTES],
) -> u8
    ensures { MatchOption (find (names_block track.now number sector) (start_pairs track.now))
        ((result ≡ 2) × (block.new ≡ blank))
        (λ pair. (result ≡ header_code id track.now pair) × (block.new ≡ bytes_behind track.now pair.1)) }
{
    for index in 0..count_starts(track) {
        let start = start_at(track, index);
        if names(&start, number, sector) {
            return read_behind(&start, next_start(track, index), id, block);
        }
    }
    make_blank(block);
    2
}

/// Reads a block of a track. Returns its code.
pub(crate) fn read_block(
    track: &Track<'_>,
    id: Option<Id>,
    number: u8,
    sector: u8,
    block: &mut [u8; BLOCK_BYTES],
) -> u8
    ensures code { result ≡ block_code_of id track.now number sector }
    ensures bytes { block.new ≡ block_bytes_of id track.now number sector }
{
    if count_starts(track) == 0 {
        make_blank(block);
        return 3;
    }
    if read_good(track, id, number, sector, block) {
        1
    } else {
        read_first(track, id, number, sector, block)
    }
}
