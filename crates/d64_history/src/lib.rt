//! The history of a disk image: the list of whole images with a cursor, the records that hold it,
//! and the session file that keeps it.
//!
//! It knows no command: what makes the next image, and when, is for those that call it.
#![tactic(auto)]

mod file_parts;
mod from_reader;
mod held;
mod keeping;
pub mod laws;
mod leading;
mod read_note;
mod resume_fault;
mod resuming;

pub use from_reader::{SessionReadFault, resume_from};
pub use held::HeldHistory;
pub use keeping::session_file;
pub use read_note::ReadNote;
pub use resume_fault::ResumeFault;
pub use resuming::{Resuming, resume};
