//! `d64sh merge`: the dumps that are read, the file that is made of them, and what is printed of
//! its blocks, as text and as JSON.
//!
//! `merge_files` does all of it, from the request of the arguments to the exit status.
#![tactic(auto)]

mod finishing;
mod job;
mod lines;
mod merge_job;
mod objects;
mod readings;
mod report;
mod setup;

pub use finishing::{finish, say_present};
pub use job::merge_files;
pub use readings::Readings;
pub use setup::MergeSetup;
