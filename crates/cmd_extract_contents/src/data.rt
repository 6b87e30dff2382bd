//! The bytes of a file along its blocks.
ghost use Rattle.std.specs.Prelude.{◌≡◌, ◌++◌, OnOk};
ghost use Rattle.d64_files.specs.Chain.{LieIn};
ghost use Rattle.d64_files.specs.FileData.{data_along};
ghost use Rattle.cmd_extract_contents.specs.Portions.{all_along};

use d64_files::data_of;
use d64_image::{BlockNo, Image};
use std::alloc::AllocError;

/// Appends the data of blocks of the image, one after another.
pub(crate) fn push_data(
    bytes: &mut Vec<u8>,
    image: &Image,
    blocks: &[BlockNo],
) -> Result<(), AllocError>
    requires { LieIn image.now blocks.now }
    ensures { OnOk result (bytes.new.items ≡ bytes.old.items ++ data_along image.now blocks.now) }
{
    for block in blocks {
        bytes.extend_from_slice(data_of(image.sector(*block)))?;
    }
    Ok(())
}

/// Appends the contents of blocks of the image after their links, one after another: bytes 2 to 255
/// of each.
pub(crate) fn push_all(
    bytes: &mut Vec<u8>,
    image: &Image,
    blocks: &[BlockNo],
) -> Result<(), AllocError>
    requires { LieIn image.now blocks.now }
    ensures { OnOk result (bytes.new.items ≡ bytes.old.items ++ all_along image.now blocks.now) }
{
    for block in blocks {
        bytes.extend_from_slice(&image.sector(*block)[2..])?;
    }
    Ok(())
}
