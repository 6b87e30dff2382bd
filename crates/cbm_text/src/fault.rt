//! Why a text is no program, and why bytes are no program.

ghost use Rattle.std.specs.Prelude.{◌≡◌, alloc_error};
ghost use Rattle.cbm_text.specs.declared.fault.BasicFault.TheVariants.{Memory};
ghost use Rattle.cbm_text.specs.declared.fault.ListFault.TheVariants as list_faults;
ghost use Rattle.cbm_text.specs.BasicText.{basic_fault_number, basic_fault_line};
ghost use Rattle.cbm_text.specs.ListFault.{list_fault_number, list_fault_text};

use petscii::TextFault;
use std::alloc::{AllocError, AllocFailed};
use thiserror::Error;

/// The first fault of a BASIC text: the fault of its first faulty line that comes first here. Lines
/// are counted from 1, including skipped ones.
#[derive(Clone, Copy, Debug, PartialEq, Eq, Error)]
pub enum BasicFault {
    /// The line begins with no number.
    #[error("line {line}: a line has to begin with its number")]
    NoNumber { line: usize },
    /// The line's number is above 65535.
    #[error("line {line}: a line's number is at most 65535")]
    NumberTooLarge { line: usize },
    /// What follows the number stands for no bytes. The fault's place counts from there.
    #[error("line {line}: behind the number {fault}")]
    Text { line: usize, fault: TextFault },
    /// A byte of $80 or more, other than $FF, is at a place at which keywords are read.
    #[error("line {line}: outside quotes a byte of $80 or more would be read as a keyword")]
    TokenByte { line: usize },
    /// The line has a byte $00, which ends a line in the file.
    #[error("line {line}: a line cannot hold a byte $00")]
    ZeroByte { line: usize },
    /// The line has more than 250 crunched bytes, or what follows it would be above 65535.
    #[error("line {line}: the line is too long, or the program ends above address 65535")]
    TooLong { line: usize },
    /// There is no memory for the program.
    #[error("out of memory")]
    Memory(AllocError),
}

impl BasicFault {
    /// The fault's number: 1 to 7 in the order of the variants.
    pub fn number(&self) -> u8
        ensures { result ≡ basic_fault_number self.now }
    {
        match self {
            BasicFault::NoNumber { .. } => 1,
            BasicFault::NumberTooLarge { .. } => 2,
            BasicFault::Text { .. } => 3,
            BasicFault::TokenByte { .. } => 4,
            BasicFault::ZeroByte { .. } => 5,
            BasicFault::TooLong { .. } => 6,
            BasicFault::Memory(_) => 7,
        }
    }

    /// The number of the faulty text line, from 1, or None if memory is out.
    pub fn line(&self) -> Option<usize>
        ensures { result ≡ basic_fault_line self.now }
    {
        match self {
            BasicFault::NoNumber { line }
            | BasicFault::NumberTooLarge { line }
            | BasicFault::Text { line, .. }
            | BasicFault::TokenByte { line }
            | BasicFault::ZeroByte { line }
            | BasicFault::TooLong { line } => Some(*line),
            BasicFault::Memory(_) => None,
        }
    }
}

/// Why bytes can't be listed as a program.
#[derive(Clone, Copy, Debug, PartialEq, Eq, Error)]
#[error("{}", self.text())]
pub enum ListFault {
    /// There are fewer than the two bytes of a load address.
    NoAddress,
    /// The bytes end before a whole link, number, line or end mark.
    Truncated,
    /// There is no memory for the text.
    Memory(AllocError),
}

impl ListFault {
    /// The fault's number: 1 to 3 in the order of the variants.
    pub fn number(&self) -> u8
        ensures { result ≡ list_fault_number self.now }
    {
        match self {
            ListFault::NoAddress => 1,
            ListFault::Truncated => 2,
            ListFault::Memory(_) => 3,
        }
    }

    /// The fault in plain words.
    pub fn text(&self) -> &'static str
        ensures { result.now ≡ list_fault_text self.now }
    {
        match self {
            ListFault::NoAddress => "a program begins with a load address of two bytes",
            ListFault::Truncated => "the program is cut short",
            ListFault::Memory(_) => "out of memory",
        }
    }
}

impl From<AllocError> for BasicFault {
    ghost from_gives = { λ error fault. fault ≡ Memory error };

    fn from(error: AllocError) -> BasicFault {
        BasicFault::Memory(error)
    }
}

impl From<AllocError> for ListFault {
    ghost from_gives = { λ error fault. fault ≡ list_faults.Memory error };

    fn from(error: AllocError) -> ListFault {
        ListFault::Memory(error)
    }
}
