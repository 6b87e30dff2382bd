//! Writing a file: its blocks, its entry, and the map.
ghost use Rattle.std.specs.Prelude.{◌≡◌, true, length, is_some, IfOk, OnOk, IfSome, MatchOption};
ghost use Rattle.d64_image.specs.Patch.{StillRestores};
ghost use Rattle.d64_map.specs.Map.{free_blocks};
ghost use Rattle.d64_files.specs.Writing.{entry_bytes};
ghost use Rattle.d64_effects.specs.View.{IsSound};
ghost use Rattle.d64_effects.specs.Write.{with_new_entry, written_disk};
ghost use Rattle.d64_dos.specs.Refusal.{refused_by};
ghost use Rattle.d64_dos.specs.Space.{IsPlace, IsSpace, NoPlace};
ghost use Rattle.d64_dos.specs.WriteRefusal.{has_room, is_writable, write_refusal};

use crate::plan::take_plan;
use crate::refusal::Refusal;
use crate::sound_disk::sound_directory;
use arrayvec::ArrayVec;
use d64_files::{
    ClosedFile, Directory, Kind, Name, blocks_for, grow_after, put_chain, put_entry_at,
};
use d64_image::{BLOCKS, BlockNo, BlockSet, Image, Patch};
use d64_map::laws::plan_takes_free_blocks;
use d64_map::{free_set, pick_dir, put_map};
use std::alloc::AllocError;

/// Where the entry of a new file goes.
#[derive(Clone, Copy)]
enum Place {
    /// In an unused slot: one of the eight of a block of the directory, counted from 0.
    Vacant { block: BlockNo, index: usize },
    /// In the first slot of a block that the directory takes after its last one.
    New { last: BlockNo, block: BlockNo },
}

/// A file that is to be written.
#[derive(Clone, Copy)]
struct NewFile<'f> {
    name: &'f Name,
    kind: Kind,
    bytes: &'f [u8],
}

/// What a new file takes beside the blocks of its data, which are in a list of their own.
#[derive(Drop)]
struct Space {
    /// The place of its entry.
    place: Place,
    /// The blocks that stay free.
    free: BlockSet,
}

/// Whether files of a kind can be written.
pub(crate) fn is_writable(kind: Kind) -> bool
    ensures { result ≡ is_writable kind }
{
    match kind {
        Kind::Seq | Kind::Prg | Kind::Usr => true,
        Kind::Del | Kind::Rel => false,
    }
}

/// The place of one more entry, if need be in a free block that the directory takes. None if there
/// is no such place.
fn find_place(directory: &Directory, free: &BlockSet) -> Option<Place>
    ensures { MatchOption result (NoPlace directory.now free.now) (IsPlace directory.now free.now) }
{
    match directory.first_empty() {
        Some(slot) => {
            let (block, index) = directory.place_of(slot);
            Some(Place::Vacant { block, index })
        }
        None => {
            let last = directory.last();
            let block = pick_dir(free, last)?;
            Some(Place::New { last, block })
        }
    }
}

/// Finds what a file of this many bytes takes: the list is replaced by the blocks of its data, in
/// order. Returns None if the disk has no room for it: then the list has any blocks.
fn find_space(
    directory: &Directory,
    bytes: usize,
    blocks: &mut ArrayVec<BlockNo, BLOCKS>,
) -> Option<Space>
    ensures room { is_some result ≡ has_room directory.now bytes }
    ensures space { IfSome result (IsSpace directory.now bytes blocks.new.items) }
{
    plan_takes_free_blocks();
    let mut free = free_set(directory.image());
    let count = blocks_for(bytes);
    if count > BLOCKS {
        return None;
    }
    let place = find_place(directory, &free)?;
    take_plan(&mut free, count, blocks)?;
    match place {
        Place::Vacant { block: _, index: _ } => {}
        Place::New { last: _, block } => free.remove(block),
    }
    Some(Space { place, free })
}

/// What a file takes, or the first refusal that applies: the blocks of its data are listed as by
/// `find_space`. `is_sound` may be true only if the disk is sound.
#[tactic(auto, unfolding(crate::specs::WriteRefusal::write_refusal))]
fn space_for(
    image: &Image,
    file: &NewFile,
    is_sound: bool,
    blocks: &mut ArrayVec<BlockNo, BLOCKS>,
) -> Result<Space, Refusal>
    requires { is_sound ≡ true → IsSound image.now }
    ensures refused { refused_by result ≡ write_refusal image.now file.now.name.now file.now.kind (length file.now.bytes.now) }
    ensures space { IfOk result (IsSpace image.now (length file.now.bytes.now) blocks.new.items) }
{
    if !is_writable(file.kind) {
        return Err(Refusal::WrongType);
    }
    let directory = sound_directory(image, is_sound)?;
    if directory.is_taken(file.name) {
        return Err(Refusal::Exists);
    }
    match find_space(&directory, file.bytes.len(), blocks) {
        Some(space) => Ok(space),
        None => Err(Refusal::DiskFull),
    }
}

/// Writes the entry of a new file into its place.
fn put_new_entry(
    image: &mut Image,
    patch: &mut Patch,
    place: Place,
    file: &ClosedFile,
) -> Result<(), AllocError>
    requires { IsPlace image.old (free_blocks image.old) place }
    ensures written { OnOk result (image.new ≡ with_new_entry image.old (entry_bytes file.now.name.now file.now.kind file.now.first file.now.blocks)) }
    ensures back { StillRestores image.old patch.old image.new patch.new }
{
    match place {
        Place::Vacant { block, index } => put_entry_at(image, patch, block, index, file),
        Place::New { last, block } => {
            grow_after(image, patch, last, block)?;
            put_entry_at(image, patch, block, 0, file)
        }
    }
}

/// Writes a new file into its blocks and its space: its entry, its data, and the map of the blocks
/// that stay free.
fn put_file(
    image: &mut Image,
    patch: &mut Patch,
    file: &NewFile,
    blocks: &[BlockNo],
    space: &Space,
) -> Result<(), AllocError>
    requires { IsSpace image.old (length file.now.bytes.now) blocks.now space.now }
    ensures written { OnOk result (image.new ≡ written_disk image.old file.now.name.now file.now.kind file.now.bytes.now) }
    ensures back { StillRestores image.old patch.old image.new patch.new }
{
    plan_takes_free_blocks();
    let closed = ClosedFile {
        name: file.name,
        kind: file.kind,
        first: blocks[0],
        blocks: blocks.len() as u16,
    };
    put_new_entry(image, patch, space.place, &closed)?;
    put_chain(image, patch, blocks, file.bytes)?;
    put_map(image, patch, &space.free)
}

/// Writes a file.
///
/// The error is the first refusal that applies, and then nothing is written: `WrongType` for a DEL
/// or a REL file, `Directory` with the first condition of a sound image that fails, `Exists` if a
/// used slot has the name, and `DiskFull` if too few blocks outside track 18 are free, or if no
/// slot is empty and no block of track 18 is free. `Memory` comes only if no other applies: then
/// some blocks may be written, and putting the patch back still gives the image from before.
/// `is_sound` may be true only if the disk is sound.
pub(crate) fn write(
    image: &mut Image,
    patch: &mut Patch,
    name: &Name,
    kind: Kind,
    bytes: &[u8],
    is_sound: bool,
) -> Result<(), Refusal>
    requires { is_sound ≡ true → IsSound image.old }
    ensures refused { refused_by result ≡ write_refusal image.old name.now kind (length bytes.now) }
    ensures written { OnOk result (image.new ≡ written_disk image.old name.now kind bytes.now) }
    ensures back { StillRestores image.old patch.old image.new patch.new }
{
    let file = NewFile { name, kind, bytes };
    let mut blocks = ArrayVec::new();
    match space_for(image, &file, is_sound, &mut blocks) {
        Ok(space) => {
            put_file(image, patch, &file, blocks.as_slice(), &space)?;
            Ok(())
        }
        Err(refusal) => Err(refusal),
    }
}
