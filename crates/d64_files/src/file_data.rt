//! The data of files in their blocks.
ghost use Rattle.std.specs.Prelude.{◌≡◌, ◌*◌, ◌≤◌, length, IfOk, vec_len};
ghost use Rattle.d64_files.specs.Chain.{LieIn};
ghost use Rattle.d64_files.specs.FileData.{data_of as data_in, data_along as data_in_all};

use d64_image::{BLOCK_BYTES, BlockNo, Image};
use std::alloc::{AllocError, Global};

/// The data of a block of a file: bytes 2 to 255. In the last block of a chain, whose link's track
/// is 0, they end with the last byte used, whose index is byte 1; an index below 2 means no data.
pub fn data_of(sector: &[u8; BLOCK_BYTES]) -> &[u8]
    ensures value { result.now ≡ data_in sector.now }
    ensures len { length result.now ≤ 254 }
{
    if sector[0] != 0 {
        return &sector[2..];
    }
    let last_used = usize::from(sector[1]);
    if last_used < 2 {
        &[]
    } else {
        &sector[2..last_used + 1]
    }
}

/// The data of blocks of the image, one after another.
pub(crate) fn data_along(
    alloc: Global,
    image: &Image,
    blocks: &[BlockNo],
) -> Result<Vec<u8>, AllocError>
    requires { LieIn image.now blocks.now }
    ensures value { IfOk result (λ bytes. bytes.items ≡ data_in_all image.now blocks.now) }
    ensures len { IfOk result (λ bytes. vec_len bytes ≤ 254 * length blocks.now) }
{
    let mut bytes = Vec::new(alloc);
    for block in blocks {
        bytes.extend_from_slice(data_of(image.sector(*block)))?;
    }
    Ok(bytes)
}
