//! Which rows of a dump are wanted.

/// Which rows of a dump are wanted.
#[derive(Clone, Copy, PartialEq, Eq)]
pub struct Selection {
    /// Whether those of the files of used slots are wanted.
    pub files: bool,
    /// Whether those of the deleted files of scratched slots are wanted.
    pub deleted: bool,
    /// Whether those of orphans are wanted: chains of blocks that no slot leads to.
    pub orphans: bool,
}
