//! What is left over on a disk beside its files: a row for each deleted file, and for each chain of
//! blocks that no slot leads to, in one list with the rows of files.
#![tactic(auto)]

mod deleted_files;
mod deleted_row;
mod left_blocks;
mod orphan_row;
mod orphans;
mod row;
mod row_laws;
mod row_list;
mod selection;
mod source;

pub use deleted_row::DeletedRow;
pub use orphan_row::{OldSlot, OrphanRow};
pub use row::ListedRow;
pub use row_laws::files_alone_are_the_inventory;
pub use row_list::RowList;
pub use selection::Selection;
