//! Calls of images and patches.

use crate::disk::{block_in, changed_blocks, disk, same};
use crate::end::{Bench, End};
use d64_image::{Image, ImageFault, Patch};
use std::alloc::{AllocError, Global};
use std::test::Fail;

/// A call that makes an image.
#[derive(Clone, Copy)]
pub enum Maker {
    FromBytes,
    Zeroed,
    Zeroed40,
    TryClone,
}

impl Maker {
    pub fn of(call: &str) -> Option<Maker> {
        match call {
            "Image::from_bytes" => Some(Maker::FromBytes),
            "Image::zeroed" => Some(Maker::Zeroed),
            "Image::zeroed40" => Some(Maker::Zeroed40),
            "Image::try_clone" => Some(Maker::TryClone),
            _ => None,
        }
    }

    /// Makes the image, from one that it is lent.
    fn make(self, alloc: Global, lent: &Image) -> Result<Image, ImageFault> {
        match self {
            Maker::FromBytes => Image::from_bytes(alloc, lent.bytes()),
            Maker::Zeroed => of_memory(Image::zeroed(alloc)),
            Maker::Zeroed40 => of_memory(Image::zeroed40(alloc)),
            Maker::TryClone => of_memory(lent.try_clone(alloc)),
        }
    }
}

/// Returns what a call that can only run out of memory made.
fn of_memory(made: Result<Image, AllocError>) -> Result<Image, ImageFault> {
    match made {
        Ok(image) => Ok(image),
        Err(fault) => Err(ImageFault::Memory(fault)),
    }
}

pub fn made(bench: &Bench, maker: Maker) -> Result<End, Fail> {
    let lent = disk(bench.alloc())?;
    bench.begin();
    Ok(match maker.make(bench.alloc(), &lent) {
        Ok(image) => End::Made(image.bytes().len()),
        Err(ImageFault::Memory(_)) => End::OutOfMemory,
        Err(ImageFault::WrongLength(_)) => End::Refused,
    })
}

/// Writes two blocks through a patch.
fn write_two(image: &mut Image, patch: &mut Patch) -> Result<(), Fail> {
    let first = block_in(image, 17, 0)?;
    patch.write(image, first, &[1; 256])?;
    let second = block_in(image, 35, 0)?;
    patch.write(image, second, &[1; 256])?;
    Ok(())
}

/// Returns the disk after two blocks were written, and the patch that keeps them.
fn patched(alloc: Global) -> Result<(Image, Patch), Fail> {
    let mut image = disk(alloc)?;
    let mut patch = Patch::new(alloc);
    write_two(&mut image, &mut patch)?;
    Ok((image, patch))
}

/// Writes a third block through a patch that keeps two. An image and a patch like those before it
/// are beside them.
pub fn patch_write(bench: &Bench) -> Result<End, Fail> {
    let (before, kept) = patched(bench.alloc())?;
    let (mut image, mut patch) = patched(bench.alloc())?;
    let third = block_in(&image, 18, 1)?;
    bench.begin();
    Ok(match patch.write(&mut image, third, &[1; 256]) {
        Ok(()) => End::Changed(changed_blocks(&image, &before)),
        Err(_) => End::out_of_memory(
            same(&image, &before) && patch.blocks() == kept.blocks(),
            "the image or the patch is not as it was",
        ),
    })
}
