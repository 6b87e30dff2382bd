//! Calls that look at the disk. Some of them make bytes or a listing, the others take no memory.

use crate::disk::{block_in, disk};
use crate::end::{Bench, End};
use crate::writers::slot_of_a;
use d64_dos::Refusal;
use d64_files::{
    Entry, Kind, Pattern, ReadFault, Slots, check, dir_last, find, first_empty, owned, slot_blocks,
};
use d64_image::{BlockNo, Image, TrackNo};
use d64_map::{blocks_free, counts_fit, free_count, is_free};
use std::alloc::Global;
use std::test::Fail;

/// A call, or some, that the disk is lent to.
#[derive(Clone, Copy)]
pub enum Look {
    Content,
    Read,
    Listing,
    Image,
    Map,
    Soundness,
    Directory,
    Entries,
}

impl Look {
    pub fn of(call: &str) -> Option<Look> {
        match call {
            "content" => Some(Look::Content),
            "read" => Some(Look::Read),
            "listing" => Some(Look::Listing),
            "Image::bytes,sector,tracks,holds" => Some(Look::Image),
            "is_free,free_count,blocks_free,counts_fit" => Some(Look::Map),
            "check,owned,slot_blocks" => Some(Look::Soundness),
            "find,first_empty,dir_last" => Some(Look::Directory),
            "Slots,Entry" => Some(Look::Entries),
            _ => None,
        }
    }
}

/// Makes a call on an image.
fn look_at(bench: &Bench, call: Look, image: &Image) -> Result<End, Fail> {
    let pattern = Pattern::new(b"A")?;
    let directory = block_in(image, 18, 1)?;
    bench.begin();
    Ok(match call {
        Look::Content => content(bench.alloc(), image)?,
        Look::Read => read(bench.alloc(), image, &pattern),
        Look::Listing => listing(bench.alloc(), image),
        Look::Image => End::returned(is_image(image, directory)),
        Look::Map => End::returned(is_map(image)?),
        Look::Soundness => End::returned(is_sound(image)?),
        Look::Directory => End::returned(is_directory(image, &pattern, directory)?),
        Look::Entries => End::returned(are_entries(image)?),
    })
}

pub fn looked_at(bench: &Bench, call: Look) -> Result<End, Fail> {
    look_at(bench, call, &disk(bench.alloc())?)
}

fn content(alloc: Global, image: &Image) -> Result<End, Fail> {
    Ok(match d64_files::content(alloc, image, slot_of_a(image)?) {
        Ok(bytes) => End::Made(bytes.len()),
        Err(ReadFault::Memory(_)) => End::OutOfMemory,
        Err(_) => End::Refused,
    })
}

fn read(alloc: Global, image: &Image, pattern: &Pattern) -> End {
    match d64_dos::read(alloc, image, pattern) {
        Ok(back) => End::Made(back.bytes.len()),
        Err(Refusal::Memory) => End::OutOfMemory,
        Err(_) => End::Refused,
    }
}

fn listing(alloc: Global, image: &Image) -> End {
    match d64_dos::listing(alloc, image) {
        Ok(_) => End::Accepted,
        Err(Refusal::Memory) => End::OutOfMemory,
        Err(_) => End::Refused,
    }
}

/// Calls `bytes`, `tracks`, `holds` and `sector`.
fn is_image(image: &Image, directory: BlockNo) -> bool {
    image.bytes().len() == 174_848
        && image.tracks() == 35
        && image.holds(directory)
        && image.sector(directory)[2] == 0x82
        && BlockNo::of(36, 0).is_some_and(|beyond| !image.holds(beyond))
}

fn count_on_17(image: &Image) -> u8 {
    match TrackNo::of(17) {
        Some(track) => free_count(image, track),
        None => 0,
    }
}

fn is_map(image: &Image) -> Result<bool, Fail> {
    let first = block_in(image, 17, 0)?;
    Ok(
        !is_free(image, first)
            && count_on_17(image) == 10
            && blocks_free(image) == 653
            && counts_fit(image),
    )
}

fn is_sound(image: &Image) -> Result<bool, Fail> {
    let slot = slot_of_a(image)?;
    match check(image) {
        Ok(checked) => {
            let blocks = slot_blocks(image, slot);
            Ok(owned(image) == Ok(checked) && checked.count() == 12 && blocks.count() == 10)
        }
        Err(_) => Ok(false),
    }
}

fn is_directory(image: &Image, pattern: &Pattern, last: BlockNo) -> Result<bool, Fail> {
    let found = find(image, pattern)?.ok_or("there is no file")?;
    let empty = first_empty(image)?.ok_or("no slot is empty")?;
    Ok((found.place(), empty.place()) == (0, 2) && dir_last(image) == Ok(last))
}

/// Calls the walk, and all functions of an entry.
fn are_entries(image: &Image) -> Result<bool, Fail> {
    let mut walk = Slots::of(image)?;
    let first = walk.next().ok_or("there is no slot")?;
    Ok(is_entry_of_a(&first) && walk.count() == 7)
}

/// Whether an entry is that of the file `A`.
fn is_entry_of_a(entry: &Entry) -> bool {
    entry.slot().place() == 0
        && entry.used()
        && entry.kind() == Kind::Prg
        && entry.closed()
        && !entry.locked()
        && entry.field().len() == 16
        && entry.name() == b"A".as_slice()
        && entry.start() == BlockNo::of(17, 0)
        && entry.first_pair() == (17, 0)
        && entry.side_pair().is_none()
        && entry.blocks() == 10
}
