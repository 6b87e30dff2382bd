//! The contents of files.
ghost use Rattle.std.specs.Prelude.{◌≡◌, ◌==◌, find, IfOk};
ghost use Rattle.d64_files.specs.Slot.{EntryView, first_pair};
ghost use Rattle.d64_files.specs.Ownership.{chain_at};
ghost use Rattle.d64_files.specs.Reading.{is_del, read_refused_by, file_refusal, file_content, content_refusal, content_at};

use crate::block_list::BlockList;
use crate::chain::chain_from;
use crate::dir_fault::DirFault;
use crate::directory_blocks::Directory;
use crate::entry::{Entry, SlotNo};
use crate::file_data::data_along;
use crate::kind::Kind;
use crate::slots::Slots;
use d64_image::Image;
use std::alloc::{AllocError, Global};
use thiserror::Error;

/// Why a file can't be read.
#[derive(Debug, Drop, Error)]
pub enum ReadFault {
    /// The directory, or the file's chain of blocks, is faulty.
    #[error("the disk can't be read: {0}")]
    Directory(DirFault),
    /// There is no such slot, or it isn't used.
    #[error("there is no such file: list the directory to see which there are")]
    NotFound,
    /// The file was never closed, so that its end isn't known.
    #[error("the file was not closed after it was written")]
    NotClosed,
    /// A DEL entry has no content.
    #[error("a DEL entry has no content to read")]
    WrongType,
    /// There is no memory for the content.
    #[error("out of memory: {0}")]
    Memory(AllocError),
}

impl From<DirFault> for ReadFault {
    ghost use Rattle.std.specs.Prelude.{◌≡◌};
    ghost use Rattle.d64_files.specs.declared.reading.ReadFault.TheVariants.{Directory};

    ghost from_gives = { λ error fault. fault ≡ Directory error };

    fn from(error: DirFault) -> ReadFault {
        ReadFault::Directory(error)
    }
}

impl From<AllocError> for ReadFault {
    ghost use Rattle.std.specs.Prelude.{◌≡◌};
    ghost use Rattle.d64_files.specs.declared.reading.ReadFault.TheVariants.{Memory};

    ghost from_gives = { λ error fault. fault ≡ Memory error };

    fn from(error: AllocError) -> ReadFault {
        ReadFault::Memory(error)
    }
}

/// The entry of a slot among those that are left of a walk, or None if it isn't among them.
pub(crate) fn entry_at<'a>(walk: Slots<'a>, slot: SlotNo) -> Option<Entry<'a>>
    ensures { result ≡ find (λ (entry : EntryView). entry.slot == slot) walk.entry }
{
    for entry in walk {
        if entry.slot().place() == slot.place() {
            return Some(entry);
        }
    }
    None
}

/// Whether a kind is DEL.
fn is_del(kind: Kind) -> bool
    ensures { result ≡ is_del kind }
{
    match kind {
        Kind::Del => true,
        Kind::Seq | Kind::Prg | Kind::Usr | Kind::Rel => false,
    }
}

/// The chain of a file, if the file can be read.
fn readable_chain(image: &Image, entry: &Entry) -> Result<BlockList, ReadFault>
    ensures refused { read_refused_by result ≡ file_refusal image.now entry.now.bytes }
    ensures chain { IfOk result (λ blocks. blocks ≡ chain_at image.now (first_pair entry.now.bytes)) }
{
    if !entry.used() {
        return Err(ReadFault::NotFound);
    }
    if !entry.closed() {
        return Err(ReadFault::NotClosed);
    }
    if is_del(entry.kind()) {
        return Err(ReadFault::WrongType);
    }
    let (track, sector) = entry.first_pair();
    match chain_from(image, track, sector) {
        Some(blocks) => Ok(blocks),
        None => Err(ReadFault::Directory(DirFault::NoChain)),
    }
}

/// Reads the file of an entry: the data of its chain of blocks, without a REL file's side blocks.
///
/// The error is the first of these that applies: `NotFound` if the slot isn't used; `NotClosed`;
/// `WrongType` for a DEL entry; `Directory` if there is no chain from the file's first block
/// (`NoChain`); `Memory` if there is no memory for the content.
pub fn entry_content(alloc: Global, image: &Image, entry: &Entry) -> Result<Vec<u8>, ReadFault>
    ensures refused { read_refused_by result ≡ file_refusal image.now entry.now.bytes }
    ensures bytes { IfOk result (λ bytes. bytes.items ≡ file_content image.now entry.now.bytes) }
{
    let blocks = readable_chain(image, entry)?;
    Ok(data_along(alloc, image, blocks.as_slice())?)
}

/// Reads the file of a slot: the data of its chain of blocks, without a REL file's side blocks.
///
/// The error is the first of these that applies: `Directory` if there is no chain of blocks from
/// track 18, sector 1 (`NoDirectory`), or if the low four bits of a slot's type byte are above 4
/// (`UnknownKind`); `NotFound` if there is no such slot or it isn't used; `NotClosed`; `WrongType`
/// for a DEL entry; `Directory` if there is no chain from the file's first block (`NoChain`);
/// `Memory` if there is no memory for the content.
pub fn content(alloc: Global, image: &Image, slot: SlotNo) -> Result<Vec<u8>, ReadFault>
    ensures refused { read_refused_by result ≡ content_refusal image.now slot }
    ensures bytes { IfOk result (λ bytes. bytes.items ≡ content_at image.now slot) }
{
    let directory = Directory::of(image)?;
    match entry_at(directory.slots(), slot) {
        Some(entry) => entry_content(alloc, image, &entry),
        None => Err(ReadFault::NotFound),
    }
}
