//! Bytes written into a block.
ghost use Rattle.std.specs.Prelude.{◌≡◌, ◌+◌, ◌≤◌, length};
ghost use Rattle.d64_image.specs.declared.image.TheConstants.{BLOCK_BYTES};
ghost use Rattle.d64_files.specs.Writing.{written_at};

use d64_image::BLOCK_BYTES;

/// Writes bytes into a block, from a place on. The other bytes of the block stay.
///
/// The bytes must end within the block.
pub fn write_at(block: &mut [u8; BLOCK_BYTES], start: usize, bytes: &[u8])
    requires { start + length bytes.now ≤ BLOCK_BYTES }
    ensures { block.new ≡ written_at block.old start bytes.now }
{
    block[start..start + bytes.len()].copy_from_slice(bytes);
}
