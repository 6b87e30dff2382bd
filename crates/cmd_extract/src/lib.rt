//! `d64sh extract`: the folder of an image on the host, its files and the list of them, in which
//! order they are made, and what is printed of them.
//!
//! `extract_files` does all of it, from the request of the arguments to the exit status.
#![tactic(auto)]

mod calls;
mod extract_printing;
mod extracted;
mod files;
mod folders;
mod job;
mod list_state;
mod reporting;
mod setup;
mod task;
pub mod unpack_laws;
mod unpacker;
mod verdicts;

pub use job::extract_files;
pub use setup::ExtractSetup;
pub use unpacker::Unpacker;
