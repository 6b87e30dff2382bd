//! Calls of the writers of files and of the map.
//!
//! After memory ran out some blocks may be written; with the patch put back the image is the one
//! from before in any case.
ghost use Rattle.std.specs.Prelude.{◌≢◌, ◌<◌, [], length, IfOk};
ghost use Rattle.d64_files.specs.Chain.{LieIn};
ghost use Rattle.d64_files.specs.Directory.{directory, slots};
ghost use Rattle.d64_image.specs.BlockSet.{MembersAreBelow};
ghost use Rattle.d64_image.specs.Patch.{IsPatchOf};

use crate::disk::{block, block_in, changed_blocks, disk, fresh, same};
use crate::end::{Bench, End};
use d64_files::{
    Kind, Name, Pattern, SlotNo, clear_slot, find, grow, put_chain, put_entry, set_name, set_type,
};
use d64_image::{BlockNo, BlockSet, Image, Patch};
use d64_map::put_map;
use std::alloc::AllocError;
use std::test::Fail;

/// A call of a writer.
#[derive(Clone, Copy)]
pub enum Writer {
    Map,
    Entry,
    ClearedSlot,
    Type,
    Name,
    /// A file of five blocks.
    Chain,
    Growth,
}

impl Writer {
    pub fn of(call: &str) -> Option<Writer> {
        match call {
            "put_map" => Some(Writer::Map),
            "put_entry" => Some(Writer::Entry),
            "clear_slot" => Some(Writer::ClearedSlot),
            "set_type" => Some(Writer::Type),
            "set_name" => Some(Writer::Name),
            "put_chain" => Some(Writer::Chain),
            "grow" => Some(Writer::Growth),
            _ => None,
        }
    }
}

/// Returns how a writer ended, by its result, what it was lent, and the image before.
fn end_of(
    outcome: Result<(), AllocError>,
    image: &mut Image,
    patch: &mut Patch,
    before: &Image,
) -> End
    requires { IsPatchOf image.old patch.old }
{
    let changed = changed_blocks(image, before);
    patch.swap(image);
    if !same(image, before) {
        return End::Wrong("the image with the patch put back is not as it was");
    }
    match outcome {
        Ok(()) => End::Changed(changed),
        Err(_) => End::OutOfMemory,
    }
}

/// Returns the slot of the file `A`.
pub fn slot_of_a(image: &Image) -> Result<SlotNo, Fail>
    ensures directory { IfOk result (λ _. directory image.now ≢ []) }
    ensures slot { IfOk result (λ slot. slot < length (slots image.now)) }
{
    match find(image, &Pattern::new(b"A")?) {
        Ok(Some(slot)) => Ok(slot),
        Ok(None) => Err(Fail::new("there is no file")),
        Err(fault) => Err(Fail::new(fault)),
    }
}

/// Returns five blocks of the image.
fn five_blocks(image: &Image) -> Result<[BlockNo; 5], Fail>
    ensures { IfOk result (λ blocks. LieIn image.now blocks) }
{
    Ok([
        block_in(image, 1, 0)?,
        block_in(image, 2, 0)?,
        block_in(image, 3, 0)?,
        block_in(image, 4, 0)?,
        block_in(image, 5, 0)?,
    ])
}

/// Returns no blocks.
fn no_blocks(_image: &Image) -> BlockSet
    ensures { MembersAreBelow (length _image.now) result }
{
    BlockSet::empty()
}

/// Makes the call of a writer with an empty patch.
fn write(
    bench: &Bench,
    writer: Writer,
    image: &mut Image,
    patch: &mut Patch,
) -> Result<Result<(), AllocError>, Fail>
    requires { IsPatchOf image.old patch.old }
    ensures { IfOk result (λ _. IsPatchOf image.new patch.new) }
{
    let slot = slot_of_a(image)?;
    let (name, first) = (Name::new(b"Y")?, block(17, 0)?);
    let (five, new) = (five_blocks(image)?, block_in(image, 18, 4)?);
    let free = no_blocks(image);
    bench.begin();
    Ok(match writer {
        Writer::Map => put_map(image, patch, &free),
        Writer::Entry => put_entry(image, patch, slot, &name, Kind::Seq, first, 1),
        Writer::ClearedSlot => clear_slot(image, patch, slot),
        Writer::Type => set_type(image, patch, slot, Kind::Seq),
        Writer::Name => set_name(image, patch, slot, &name),
        Writer::Chain => put_chain(image, patch, &five, &[1; 1270]),
        Writer::Growth => grow(image, patch, new),
    })
}

pub fn written(bench: &Bench, writer: Writer) -> Result<End, Fail> {
    let mut image = disk(bench.alloc())?;
    let before = image.try_clone(bench.alloc())?;
    let mut patch = fresh(bench.alloc(), &image);
    let outcome = write(bench, writer, &mut image, &mut patch)?;
    Ok(end_of(outcome, &mut image, &mut patch, &before))
}
