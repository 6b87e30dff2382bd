//! Why bytes make no dump.
use std::alloc::AllocError;
use thiserror::Error;

/// Why the bytes of a file that begins as a G64 make no dump.
#[derive(Clone, Debug, PartialEq, Eq, Drop, Error)]
pub enum G64Fault {
    /// The header or the places of the tracks are cut off, or the version isn't 0.
    #[error("the header of the G64 is cut off, or its version isn't 0")]
    Bad,
    #[error("out of memory")]
    Memory(AllocError),
}
