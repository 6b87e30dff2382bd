//! What `extract` writes of each file of an image: its content, or the part that is there, how many
//! bytes of all files together, and the ending of the file's name.
//!
//! A crate apart from `cmd_extract` for the gate's time: it needs no library of output, and so it
//! is proved, and its wrong bodies are tried, beside those libraries and not after them.
#![tactic(auto)]

mod data;
mod ending;
mod extent;
pub mod extract_laws;
mod extraction;
mod finding;

pub use ending::ending_by;
pub use extent::Extent;
pub use extraction::ContentExtraction;
