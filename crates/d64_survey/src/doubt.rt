//! The reasons to doubt an image.

/// A sign that a dump lost blocks that matter, though its image may be sound: a reader may have
/// written something else for what it could not read. The doubts are in the order in which they are
/// listed; the default is the first.
#[derive(Clone, Copy, Debug, Default, PartialEq, Eq)]
pub enum Doubt {
    /// The map's block doesn't have the version byte of a 1541's disk.
    #[default]
    Version,
    /// The bytes of the map's block are all equal, or those of the directory's first block.
    Blank,
    /// A block of tracks 1 to 35 is marked used and has no owner, and the disk isn't one of GEOS.
    Unowned,
    /// A block has the text that copiers write for what they can't read.
    Filler,
}
