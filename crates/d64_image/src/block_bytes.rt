//! Equality of two blocks.
ghost use Rattle.std.specs.Prelude.{◌≡◌, ◌+◌, ◌≤◌, length, nat_eq};
ghost use Rattle.std.specs.Cmp.Lexicographic.{pointwise};
ghost use Rattle.std.specs.Simd.Lanes.{chunk};

use crate::image::BLOCK_BYTES;
use std::simd::prelude::*;

/// How many bytes are compared at a time.
const LANES: usize = 32;

/// Whether two blocks have the same 32 bytes from a place on.
#[inline(always)]
fn same_lanes(block: &[u8], other: &[u8], start: usize) -> bool
    requires block { start + 32 ≤ length block.now }
    requires other { start + 32 ≤ length other.now }
    ensures { result ≡ pointwise nat_eq (chunk start 32 block.now) (chunk start 32 other.now) }
{
    let lanes = u8x32::from_slice(&block[start..]);
    lanes
        .simd_ne(u8x32::from_slice(&other[start..]))
        .to_bitmask()
        == 0
}

/// Whether two blocks have the same bytes, 32 of them at a time.
pub(crate) fn same_bytes(block: &[u8; BLOCK_BYTES], other: &[u8; BLOCK_BYTES]) -> bool
    ensures { result ≡ pointwise nat_eq block.now other.now }
{
    for group in 0..BLOCK_BYTES / LANES {
        if !same_lanes(block, other, group * LANES) {
            return false;
        }
    }
    true
}
