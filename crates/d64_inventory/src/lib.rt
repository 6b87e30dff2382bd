//! The inventory of a disk: a row for each file of its directory, with the digest of its content.
#![tactic(auto)]

mod conditions;
pub mod content_laws;
mod content_table;
mod file_blocks;
mod inventory;
mod listing_amiss;
mod row;
mod rows;

pub use inventory::{Inventory, field_of};
pub use listing_amiss::is_amiss;
pub use row::{Content, FileRow};
pub use rows::Rows;
