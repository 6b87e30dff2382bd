//! Reading a file by its name.
ghost use Rattle.std.specs.Prelude.{◌≡◌, IfOk};
ghost use Rattle.d64_dos.specs.Reading.{read_refusal, IsReadBack};
ghost use Rattle.d64_dos.specs.Refusal.{refused_by};

use crate::refusal::Refusal;
use d64_files::{Directory, Pattern, entry_content};
use d64_image::Image;
use std::alloc::Global;

/// A file that was read.
#[derive(Drop)]
pub struct ReadBack {
    /// The name, up to the first $A0 of its field: at most 16 bytes of PETSCII.
    pub name: Vec<u8>,
    /// The data of the file's blocks.
    pub bytes: Vec<u8>,
}

/// Reads the first used slot, in the order of the directory, whose name the pattern matches: its
/// name, and the content of its file (1541 User's Guide). A REL file is read without its side
/// blocks.
///
/// The error is the first of these that applies: `Directory` if there is no chain of blocks from
/// track 18, sector 1 (`NoDirectory`), or the low four bits of a slot's type byte are above 4
/// (`UnknownKind`); `NotFound`; `NotClosed`; `WrongType` for a DEL entry; `Directory` if there is
/// no chain from the file's first block (`NoChain`); `Memory` if there is no memory for the name or
/// the content.
pub fn read(alloc: Global, image: &Image, pattern: &Pattern) -> Result<ReadBack, Refusal>
    ensures refused { refused_by result ≡ read_refusal image.now pattern.now }
    ensures back { IfOk result (λ back. IsReadBack image.now pattern.now back.name.items back.bytes.items) }
{
    let directory = Directory::of(image)?;
    let Some(entry) = directory.named(pattern) else {
        return Err(Refusal::NotFound);
    };
    let bytes = entry_content(alloc, image, &entry)?;
    let name = Vec::from_slice(alloc, entry.name())?;
    Ok(ReadBack { name, bytes })
}
