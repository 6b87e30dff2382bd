//! `d64sh files`: what it prints of the files on a disk, in one list or in sections of a table.
//!
//! `print_files` does all of it, from the request of the arguments to the exit status.
#![tactic(auto)]

mod files_printer;
mod job;
mod printing;

pub use job::print_files;
