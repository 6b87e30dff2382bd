//! The commands on an image, such as write, delete and validate: when each is refused, what it
//! writes into the image, and what it reads and lists.
//!
//! The commands are those that the VICE manual describes for `c1541` and a D64 image, with the
//! meaning that the 1541 User's Guide gives them.
#![tactic(auto)]

mod command;
mod delete;
mod directory;
mod disk_name;
mod format;
pub mod laws;
mod plan;
mod read_back;
mod refusal;
mod rename;
mod row;
mod sound_disk;
mod undelete;
mod validate;
mod write;

pub use command::{Command, Reply, apply, apply_knowing};
pub use directory::listing;
pub use read_back::{ReadBack, read};
pub use refusal::Refusal;
pub use row::{Listing, Row};
