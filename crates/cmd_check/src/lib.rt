//! `d64sh check`: what it prints of a file as text, as JSON and as CSV, and when something is
//! wrong.
//!
//! `check_disks` does all of it, from the request of the arguments to the exit status.
#![tactic(auto)]

mod check_printer;
mod csv_line;
mod doubt;
mod file_lines;
mod finding;
mod image_text;
mod job;
mod json_line;
mod owner;
mod row;

pub use job::check_disks;
