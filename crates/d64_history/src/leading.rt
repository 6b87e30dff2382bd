//! Whether the blocks of records differ from those of the images that they lead away from.
ghost use Rattle.std.specs.Prelude.{◌≡◌, ◌<◌, ◌≤◌, [], ◌∷◌, length, slice_index_or, All, IfOk};
ghost use Rattle.d64_image.specs.Patch.{IsPatchOf};
ghost use Rattle.d64_image.specs.PatchList.{blocks_before};
ghost use Rattle.d64_history.specs.ResumeFault.{all_differ, differ_along, lead_both_ways};
ghost use Rattle.d64_history.specs.Resuming.{on_side};

use d64_image::{BLOCK_BYTES, BlockNo, Image, PatchList, Place};
use std::alloc::{AllocError, Global};

/// Whether each block of a record differs from that of an image.
#[tactic(auto, unfolding(crate::specs::ResumeFault::all_differ))]
fn is_difference(image: &Image, blocks: &[(BlockNo, [u8; BLOCK_BYTES])]) -> bool
    ensures { result ≡ all_differ image.now blocks.now }
{
    blocks
        .iter()
        .all(|entry| !image.has_bytes(entry.0, &entry.1))
}

/// How many records lie on one side of a place.
fn side_len(records: &PatchList, place: Place, is_back: bool) -> usize
    requires { place.number ≤ length records.now }
    ensures { result ≡ length (on_side is_back records.now place.number) }
{
    if is_back {
        place.number
    } else {
        records.len() - place.number
    }
}

/// The next record on one side of a place: where it begins, and the place on its other side.
fn next_on_side(records: &PatchList, place: Place, is_back: bool) -> (Place, Place)
    requires within { place.number ≤ length records.now }
    requires place { place.blocks ≡ blocks_before records.now place.number }
    requires more { 0 < length (on_side is_back records.now place.number) }
    ensures record { (result.0.number < length records.now) × (result.0.blocks ≡ blocks_before records.now result.0.number) }
    ensures after { (result.1.number ≤ length records.now) × (result.1.blocks ≡ blocks_before records.now result.1.number) }
    ensures side { on_side is_back records.now place.number ≡ slice_index_or records.now result.0.number [] ∷ on_side is_back records.now result.1.number }
{
    if is_back {
        let record = records.previous(place);
        (record, record)
    } else {
        (place, records.next(place))
    }
}

/// Whether each block of the records on one side of a place, which lead away from an image, differs
/// from the image's right before its record is put back.
fn all_lead(mut image: Image, records: &PatchList, mut place: Place, is_back: bool) -> bool
    requires within { place.number ≤ length records.now }
    requires place { place.blocks ≡ blocks_before records.now place.number }
    requires records { All (IsPatchOf image) records.now }
    ensures { result ≡ differ_along image (on_side is_back records.now place.number) }
{
    for _ in 0..side_len(records, place, is_back) {
        let (record, after) = next_on_side(records, place, is_back);
        if !is_difference(&image, records.at(record)) {
            return false;
        }
        records.put_back(record, &mut image);
        place = after;
    }
    true
}

/// Whether each block of the records differs from the image's right before its record is put back,
/// both ways from the present image.
pub(crate) fn lead_away(
    alloc: Global,
    image: &Image,
    records: &PatchList,
    done: usize,
) -> Result<bool, AllocError>
    requires done { done ≤ length records.now }
    requires records { All (IsPatchOf image.now) records.now }
    ensures { IfOk result (λ outcome. outcome ≡ lead_both_ways image.now done records.now) }
{
    let place = records.place_before(done);
    if !all_lead(image.try_clone(alloc)?, records, place, true) {
        return Ok(false);
    }
    Ok(all_lead(image.try_clone(alloc)?, records, place, false))
}
