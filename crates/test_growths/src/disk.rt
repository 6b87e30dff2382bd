//! The disk on which calls are made.
ghost use Rattle.std.specs.Prelude.{◌≡◌, ◌<◌, [], length, IfOk};
ghost use Rattle.d64_dos.specs.Change.{change_of};
ghost use Rattle.d64_dos.specs.Command.{IsWithin};
ghost use Rattle.d64_image.specs.Patch.{IsPatchOf};

use d64_dos::{Command, apply};
use d64_files::{Kind, Name};
use d64_image::{BLOCK_BYTES, BlockNo, Image, Patch};
use std::alloc::Global;
use std::test::Fail;

/// The program file `10 print"hello"`.
pub const PROGRAM: &[u8; 17] = b"\x01\x08\x0E\x08\x0A\x00\x99\"HELLO\"\x00\x00\x00";

/// Returns how many blocks of an image differ from those of the image before.
pub fn changed_blocks(image: &Image, before: &Image) -> usize {
    image
        .bytes()
        .chunks(BLOCK_BYTES)
        .zip(before.bytes().chunks(BLOCK_BYTES))
        .filter(|pair| pair.0 != pair.1)
        .count()
}

/// Returns the block of a track and a sector.
pub fn block(track: u8, sector: u8) -> Result<BlockNo, Fail> {
    Ok(BlockNo::of(track, sector).ok_or("no such block")?)
}

/// Returns the block of a track and a sector, which the image has.
pub fn block_in(image: &Image, track: u8, sector: u8) -> Result<BlockNo, Fail>
    ensures { IfOk result (λ block. block < length image.now) }
{
    let block = block(track, sector)?;
    if image.holds(block) {
        Ok(block)
    } else {
        Err(Fail::new("the image has no such block"))
    }
}

/// Returns an error if the image does not have the block that a command names.
pub fn within(image: &Image, command: &Command) -> Result<(), Fail>
    ensures { IfOk result (λ _. IsWithin image.now (change_of command.now)) }
{
    match command {
        Command::BlockWrite { at, block: _ } if !image.holds(*at) => {
            Err(Fail::new("the image has no such block"))
        }
        _ => Ok(()),
    }
}

/// Returns an empty patch for an image.
pub fn fresh(alloc: Global, _image: &Image) -> Patch
    ensures patch { IsPatchOf _image.now result }
    ensures empty { result ≡ [] }
{
    Patch::new(alloc)
}

/// Changes the image by a command, and forgets what was there before.
fn make(alloc: Global, image: &mut Image, command: Result<Command, Fail>) -> Result<(), Fail> {
    let command = command?;
    within(image, &command)?;
    apply(image, &mut Patch::new(alloc), &command)?;
    Ok(())
}

/// Returns the command that makes an empty disk.
pub fn format() -> Result<Command, Fail> {
    Ok(Command::Format {
        name: Name::new(b"D")?,
        id: *b"01",
    })
}

/// Returns the command that writes a file.
pub fn write(alloc: Global, name: &[u8], bytes: &[u8]) -> Result<Command, Fail> {
    let name = Name::new(name)?;
    let bytes = Vec::from_slice(alloc, bytes)?;
    Ok(Command::Write {
        name,
        kind: Kind::Prg,
        bytes,
    })
}

/// Bytes that fill ten blocks of a file.
pub const TEN_BLOCKS: &[u8; 2540] = &[7; 2540];

/// Changes the first block of the directory: the file of the second slot was never closed, and in
/// the eighth slot is what is left of a file `C`, which was deleted.
fn spoil(alloc: Global, image: &mut Image) -> Result<(), Fail> {
    let first = block_in(image, 18, 1)?;
    let mut directory = *image.sector(first);
    directory[0x22] = 0x02;
    directory[0xE3] = 1;
    directory[0xE5] = b'C';
    directory[0xE6..0xF5].fill(0xA0);
    directory[0xFE] = 1;
    Ok(Patch::new(alloc).write(image, first, &directory)?)
}

/// Makes a blank image the disk.
fn fill(alloc: Global, image: &mut Image) -> Result<(), Fail> {
    make(alloc, image, format())?;
    make(alloc, image, write(alloc, b"A", TEN_BLOCKS))?;
    make(alloc, image, write(alloc, b"B", &[7]))?;
    spoil(alloc, image)
}

/// A sound disk with the file `A` of ten blocks from 17/0 on, the file `B` of one, which was never
/// closed, and in the eighth slot what is left of the file `C` of one, which was deleted.
pub fn disk(alloc: Global) -> Result<Image, Fail> {
    let mut image = Image::zeroed(alloc)?;
    fill(alloc, &mut image)?;
    Ok(image)
}

/// Whether two images have the same bytes.
pub fn same(image: &Image, other: &Image) -> bool {
    image.bytes() == other.bytes()
}
