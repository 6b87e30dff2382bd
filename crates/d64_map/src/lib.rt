//! The block allocation map of a 1541 disk, and the order in which free blocks are searched.
//!
//! The map is in track 18, sector 0: for each track a count of its free sectors and a bit for each
//! sector (the 1541 User's Guide, "Block allocation map"; the VICE manual, "The D64 disk image
//! format").
#![tactic(auto)]

mod block_map;
pub mod laws;
mod search;
mod tracks;

pub use block_map::{
    blocks_free, counts_fit, free_count, free_on, free_set, is_free, map_block, none_is_free,
    put_map,
};
pub use search::{pick_dir, pick_first, pick_next};
pub use tracks::DIRECTORY_TRACK;
