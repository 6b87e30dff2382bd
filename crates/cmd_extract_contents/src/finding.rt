//! What there is to write of the file of a slot.
ghost use Rattle.std.specs.Prelude.{◌≡◌, if◌then◌else◌, Some, None, IfOk, option_map, option_map as map_option};
ghost use Rattle.std.specs.Option.{option_and_then};
ghost use Rattle.d64_survey.specs.Way.{way};
ghost use Rattle.d64_inventory.specs.Contents.{content_along, content_of};
ghost use Rattle.cmd_extract_contents.specs.Portions.{Portion, written_as, found_along, part_of, portion};
ghost use Rattle.cmd_extract_contents.specs.RowPortions.{deleted_portion};
ghost use Rattle.cmd_extract_contents.specs.declared.extent.Extent.TheVariants.{Content};

use crate::data::{push_all, push_data};
use crate::extent::Extent;
use d64_files::{BlockList, Entry};
use d64_image::Image;
use d64_leftovers::DeletedRow;
use d64_scratched::is_lost;
use d64_survey::{data_pair, walk};
use std::alloc::AllocError;

/// Replaces a list's contents by the content along the chain from a track and a sector, and returns
/// whether there is one: whether the chain is whole.
fn put_content_from(
    bytes: &mut Vec<u8>,
    image: &Image,
    track: u8,
    sector: u8,
) -> Result<bool, AllocError>
    ensures { IfOk result (λ is_there. (if is_there then Some bytes.new.items else None) ≡ content_along image.now (way image.now (track, sector))) }
{
    bytes.clear();
    let mut blocks = BlockList::empty();
    let end = walk(image, track, sector, &mut blocks);
    if !end.is_whole() {
        return Ok(false);
    }
    push_data(bytes, image, blocks.as_slice())?;
    Ok(true)
}

/// Replaces a list's contents by the content of the file of an entry, and returns whether there is
/// one.
fn put_content(bytes: &mut Vec<u8>, image: &Image, entry: &Entry) -> Result<bool, AllocError>
    ensures { IfOk result (λ is_there. (if is_there then Some bytes.new.items else None) ≡ content_of image.now entry.now.bytes) }
{
    match data_pair(entry) {
        Some((track, sector)) => put_content_from(bytes, image, track, sector),
        None => Ok(false),
    }
}

/// Replaces a list's contents by what is there along the chain from a track and a sector, and
/// returns whether there is anything: whether the chain has a block.
fn put_found_from(
    bytes: &mut Vec<u8>,
    image: &Image,
    track: u8,
    sector: u8,
) -> Result<bool, AllocError>
    ensures { IfOk result (λ is_there. (if is_there then Some bytes.new.items else None) ≡ found_along image.now (way image.now (track, sector))) }
{
    bytes.clear();
    let mut blocks = BlockList::empty();
    let end = walk(image, track, sector, &mut blocks);
    let list = blocks.as_slice();
    if list.is_empty() {
        return Ok(false);
    }
    if end.is_whole() {
        push_data(bytes, image, list)?;
    } else {
        push_all(bytes, image, list)?;
    }
    Ok(true)
}

/// Replaces a list's contents by what is there of the file of an entry, and returns whether there
/// is anything.
fn put_part(bytes: &mut Vec<u8>, image: &Image, entry: &Entry) -> Result<bool, AllocError>
    ensures { IfOk result (λ is_there. (if is_there then Some bytes.new.items else None) ≡ part_of image.now entry.now.bytes) }
{
    if !entry.used() {
        return Ok(false);
    }
    if !entry.has_kind() {
        return Ok(false);
    }
    let (track, sector) = entry.first_pair();
    put_found_from(bytes, image, track, sector)
}

/// Replaces a list's contents by what there is to write of a deleted file, and returns how much of
/// the file that is, or None if there is nothing: its content if it isn't lost, and else, if parts
/// are wanted, what is there of it.
pub(crate) fn put_deleted(
    bytes: &mut Vec<u8>,
    image: &Image,
    row: &DeletedRow,
    with_parts: bool,
) -> Result<Option<Extent>, AllocError>
    ensures { IfOk result (λ extent. option_map (λ extent. record { bytes = bytes.new.items; extent = extent }) extent ≡ deleted_portion with_parts image.now row.now) }
{
    let (track, sector) = row.first;
    if !is_lost(row.losses.as_slice()) {
        return put_content_along(bytes, image, track, sector);
    }
    if !with_parts {
        return Ok(None);
    }
    if put_found_from(bytes, image, track, sector)? {
        Ok(Some(Extent::Part))
    } else {
        Ok(None)
    }
}

/// Replaces a list's contents by the content along the way from a track and a sector, and returns
/// `Content`, or None if there is no content.
pub(crate) fn put_content_along(
    bytes: &mut Vec<u8>,
    image: &Image,
    track: u8,
    sector: u8,
) -> Result<Option<Extent>, AllocError>
    ensures { IfOk result (λ extent. option_map (λ extent. record { bytes = bytes.new.items; extent = extent }) extent ≡ written_as Content (content_along image.now (way image.now (track, sector)))) }
{
    if put_content_from(bytes, image, track, sector)? {
        Ok(Some(Extent::Content))
    } else {
        Ok(None)
    }
}

/// Replaces a list's contents by what there is to write of the file of an entry, and returns how
/// much of the file that is, or None if there is nothing: its content, or, if it has none and parts
/// are wanted, what is there of it.
pub(crate) fn put_portion(
    bytes: &mut Vec<u8>,
    image: &Image,
    entry: &Entry,
    with_parts: bool,
) -> Result<Option<Extent>, AllocError>
    ensures { IfOk result (λ extent. option_map (λ extent. record { bytes = bytes.new.items; extent = extent }) extent ≡ portion with_parts image.now entry.now.bytes) }
{
    if put_content(bytes, image, entry)? {
        return Ok(Some(Extent::Content));
    }
    if !with_parts {
        return Ok(None);
    }
    if put_part(bytes, image, entry)? {
        Ok(Some(Extent::Part))
    } else {
        Ok(None)
    }
}
