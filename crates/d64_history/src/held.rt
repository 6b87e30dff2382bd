//! Histories as they are held.

use d64_image::{Image, PatchList};

/// A history as it is held: only the present image whole, and of each record the blocks in which
/// the images before and after it differ.
#[derive(Drop)]
pub struct HeldHistory {
    /// The present image.
    pub image: Image,
    /// The records that are done lead back from the present image, the last one first, and those
    /// that are undone lead on from it.
    pub records: PatchList,
    /// How many of the records are done.
    pub done: usize,
}
