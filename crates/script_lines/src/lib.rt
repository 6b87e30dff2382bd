//! The lines of a script: the commands and the arguments of each, what each asks for, the status of
//! whatever can refuse it, and the texts that it prints.
//!
//! It needs no session: a line is read, and what it asks for is defined over a history.
#![tactic(auto)]

pub mod arguments;
pub mod file_text;
pub mod host_file;
mod line;
mod line_command;
pub mod listing_text;
mod response;
mod status;
mod status_from;

pub use line::Line;
pub use line_command::LineCommand;
pub use response::{Output, Response};
pub use status::Status;
