//! Buffers that are used for one line after another.
ghost use Rattle.std.specs.Prelude.{◌≡◌, []};

use crate::csv_row::CsvRow;
use std::alloc::Global;

/// Buffers for the parts of a line, which are used for one line after another: a short part asks
/// for no memory.
#[derive(Drop)]
pub struct Scratch {
    /// A text for a line.
    pub text: Vec<u8>,
    /// A row of CSV.
    pub row: CsvRow,
}

impl Scratch {
    /// Returns buffers that have no memory yet.
    pub fn new(alloc: Global) -> Scratch
        ensures text { result.text.items ≡ [] }
        ensures row { result.row ≡ [] }
    {
        Scratch {
            text: Vec::new(alloc),
            row: CsvRow::new(alloc),
        }
    }
}
