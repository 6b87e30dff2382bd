//! Why a case cannot be read or played.

use std::alloc::{AllocError, AllocFailed, Global};
use std::io;
use thiserror::Error;

/// Why a case cannot be read or played: what is wrong with a line.
#[derive(Debug, Drop, Error)]
pub enum CaseFault {
    #[error("unknown word: {0}")]
    UnknownWord(String),
    /// The text after the first word of the line is not one that this word takes.
    #[error("cannot be read: {0}")]
    Unreadable(String),
    #[error("no bytes: {0}")]
    NotBytes(String),
    #[error("no number: {0}")]
    NotNumber(String),
    #[error("no such file: {0}")]
    MissingFile(String),
    #[error("no such block")]
    NoBlock,
    #[error("no image: {0} bytes")]
    NoImage(usize),
    #[error("out of memory")]
    Memory,
}

impl CaseFault {
    /// Returns the fault of a line in which this text cannot be read.
    pub fn unreadable(alloc: Global, text: &str) -> CaseFault {
        match String::from_str(alloc, text) {
            Ok(text) => CaseFault::Unreadable(text),
            Err(_) => CaseFault::Memory,
        }
    }
}

impl From<AllocError> for CaseFault {
    fn from(_error: AllocError) -> CaseFault {
        CaseFault::Memory
    }
}

impl<T: Drop> From<AllocFailed<T>> for CaseFault {
    fn from(_error: AllocFailed<T>) -> CaseFault {
        CaseFault::Memory
    }
}
