//! The console of the program: the input and the two outputs that it borrows, what is outside of
//! the program, the faults that stop it, with their lines on standard error, why a file of the host
//! cannot be read or written, and the exit statuses; and the streams of the process, with the line
//! that shows progress at a terminal, output whose reader has gone, and files that may not grow.
//!
//! It reads the arguments, too: the job that they ask for, or a fault whose text can be shown.
//!
//! `d64sh` alone uses those streams. They are in a library so that they can be proved before it,
//! which comes after all other crates.
#![tactic(auto)]

mod console;
mod exit_status;
mod no_job;
mod program_fault;
mod progress;
mod reason;
mod requested;
mod stream_fault;
mod unread_output;
mod within_limit;

pub use console::{Console, Outputs};
pub use exit_status::{ALL_ACCEPTED, NOT_RUN, SOME_REFUSED};
pub use no_job::report_no_job;
pub use program_fault::ProgramFault;
pub use progress::{ProgressLine, WatchedHost, WipingWriter};
pub use reason::{Reason, push_known_reason, reason_of, reason_unwritten};
pub use requested::{asks_for_program, asks_for_report, requested_job};
pub use stream_fault::StreamFault;
pub use unread_output::{MarkingWriter, QuietWriter};
pub use within_limit::WithinLimit;
