//! `d64sh catalogue`: a collection of disks as one page of HTML, with a section for each image: its
//! state, its files and, if wanted, its picture.
//!
//! `make_catalogue` does all of it, from the request of the arguments to the exit status.
#![tactic(auto)]

mod catalogue_printer;
mod element;
mod files;
mod head;
mod host_files;
mod job;
mod script;
mod section;
mod style;
mod title;
mod url;

pub use job::make_catalogue;
