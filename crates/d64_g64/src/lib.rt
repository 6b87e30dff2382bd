//! The dump that a G64 is read as, which has the bits of each track as the drive's head saw them (the
//! VICE manual, "The G64 GCR-encoded disk image format"), and which files are dumps.
//!
//! A track is a circle of bits. After a sync, ten ones or more, the drive begins to read bytes of
//! ten bits each. It finds headers, which name blocks, and the data blocks that follow them.
#![tactic(auto)]

mod block;
mod circle;
mod code;
mod dump;
mod fault;
mod file;
mod header;
pub mod laws;
mod naming;
mod refilling;
mod start;
mod track;

pub use dump::read_g64;
pub use fault::G64Fault;
pub use file::begins_as_g64;
pub use naming::list_names_on;
pub use refilling::{is_dump, refill_from_g64};
