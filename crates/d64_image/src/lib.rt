//! Disk images of the Commodore 1541 as tracks and blocks of 256 bytes, sets of blocks, and patches,
//! which keep what blocks had before.
//!
//! A D64 image is the plain copy of a disk of 35 or 40 tracks: its 683 or 768 blocks, track by
//! track (the VICE manual, "The D64 disk image format"). What the blocks mean is the subject of
//! other crates.
#![tactic(auto)]

mod block;
mod block_bytes;
mod block_set;
mod image;
pub mod laws;
mod patch;
mod patch_list;
mod track;

pub use block::{BLOCKS, BLOCKS_OF_35, BlockNo, Blocks};
pub use block_set::BlockSet;
pub use image::{BLOCK_BYTES, Image, ImageFault, blocks_of, known_bytes};
pub use patch::Patch;
pub use patch_list::{PatchList, Place};
pub use track::{TrackNo, Tracks};
