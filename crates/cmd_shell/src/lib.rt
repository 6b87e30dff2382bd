//! `d64sh shell`: a script, from the input or the arguments, on the image of a file, on a blank
//! one, or on a session that was kept; and the run of a script, line by line, from the bytes of a
//! reader to those of a writer, and where it ends.
#![tactic(auto)]

mod blank_disk;
mod faults;
pub mod laws;
mod run_options;
mod runner;
mod shell_job;

pub use blank_disk::BlankDisk;
pub use run_options::{RunOptions, home_of};
pub use runner::{Outcome, ScriptRunner, ShellFault, run};
pub use shell_job::{ShellJob, exit_status, refusals_of};
