//! `ListedRow`: the row of a file that is there, of a deleted one, or of an orphan.
ghost use Rattle.std.specs.Prelude.{◌≡◌};
ghost use Rattle.d64_leftovers.specs.Rows.{is_deleted, is_orphan};

use crate::deleted_row::DeletedRow;
use crate::orphan_row::OrphanRow;
use d64_inventory::FileRow;

/// The row of a file, or of what is left of one.
#[derive(Drop)]
pub enum ListedRow {
    /// The row of the file of a used slot.
    File(FileRow),
    /// The row of the deleted file of a scratched slot.
    Deleted(DeletedRow),
    /// The row of a chain of blocks that no slot leads to.
    Orphan(OrphanRow),
}

impl ListedRow {
    /// Whether the file was deleted.
    pub fn is_deleted(&self) -> bool
        ensures { result ≡ is_deleted self.now }
    {
        match self {
            ListedRow::File(_) | ListedRow::Orphan(_) => false,
            ListedRow::Deleted(_) => true,
        }
    }

    /// Whether it is the row of an orphan.
    pub fn is_orphan(&self) -> bool
        ensures { result ≡ is_orphan self.now }
    {
        match self {
            ListedRow::File(_) | ListedRow::Deleted(_) => false,
            ListedRow::Orphan(_) => true,
        }
    }
}
