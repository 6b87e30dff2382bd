//! Sessions with undo and redo over disk images: the commands that make the history of an image,
//! the requests to a session, and whole runs of them.
//!
//! A session promises that every request has an outcome, that every refusal leaves the image and
//! its history unchanged, and that undo and redo restore exactly the image from before: the
//! contract of `run_all` says so for whole runs.
#![tactic(auto)]

pub mod laws;
mod request;
mod resuming;
mod session;

pub use d64_history::{ReadNote, ResumeFault, SessionReadFault};
pub use request::{Request, RequestOutcome, run_all};
pub use resuming::{resume, resume_from};
pub use session::{NothingToRedo, NothingToUndo, Session};
