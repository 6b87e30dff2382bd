//! `d64sh diff`: what changed from one dump to another, in label, files, blocks and read codes, as
//! text and as JSON.
//!
//! `compare_files` does all of it, from the request of the arguments to the exit status.
#![tactic(auto)]

mod blocks;
mod difference_job;
mod difference_report;
mod drafts;
mod dump_buffer;
mod fault_lines;
mod job;
mod laws;
mod lines;
mod objects;
mod printing;
mod slots;

pub use blocks::{list_changed_blocks, list_changed_codes};
pub use difference_report::DifferenceReport;
pub use job::compare_files;
pub use laws::{equal_dumps_are_silent, images_are_listed};
