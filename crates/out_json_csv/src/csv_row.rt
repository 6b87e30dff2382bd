//! A row of CSV, a field at a time.
ghost use Rattle.std.specs.Prelude.{◌≡◌, [], ◌∷◌, ◌++◌, OnOk, OnErr, IfOk};
ghost use Rattle.csv.specs.Writing.{row_text, default_writer};

use csv::{ByteRecord, Writer};
use std::alloc::{AllocError, Global};
use std::marker::Model;

/// A row of CSV, as the list of its fields.
#[derive(Drop)]
pub struct CsvRow {
    /// The fields; no further one is begun.
    fields: ByteRecord,
}

impl Model for CsvRow {
    ghost use Rattle.std.specs.Prelude.{◌≡◌, ℕ, List, []};
    ghost use Rattle.csv.specs.Records.{fields_of, partial_of};

    ghost Value = { List (List ℕ) };

    ghost view = { λ row. fields_of row.fields };

    ghost invariant = { λ row. partial_of row.fields ≡ [] };
}

impl CsvRow {
    /// Returns a row with no fields, which has no memory yet.
    pub(crate) fn new(alloc: Global) -> CsvRow
        ensures { result ≡ [] }
    {
        CsvRow {
            fields: ByteRecord::new(alloc),
        }
    }

    /// Removes all fields.
    pub fn clear(&mut self)
        ensures { self.new ≡ [] }
    {
        self.fields.clear();
    }

    /// Appends a field. If it is out of memory, no field is left.
    pub fn push_field(&mut self, field: &[u8]) -> Result<(), AllocError>
        ensures pushed { OnOk result (self.new ≡ self.old ++ field.now ∷ []) }
        ensures emptied { OnErr result (self.new ≡ []) }
    {
        let fields = &mut self.fields;
        match fields.push_field(field) {
            Ok(()) => Ok(()),
            Err(error) => {
                fields.clear();
                Err(error)
            }
        }
    }

    /// Appends the row to a text.
    pub(crate) fn write(&self, out: Vec<u8>) -> Result<Vec<u8>, AllocError>
        ensures { IfOk result (λ text. text.items ≡ out.items ++ row_text default_writer self.now) }
    {
        let mut writer = Writer::from_writer(out);
        match writer.write_byte_record(&self.fields) {
            Ok(()) => {}
            Err(_) => return Err(AllocError),
        }
        match writer.into_inner() {
            Ok(text) => Ok(text),
            Err(_) => Err(AllocError),
        }
    }
}

/// Appends a row, whose last field is an error, to a text.
pub fn end_row(row: &mut CsvRow, error: &[u8], out: Vec<u8>) -> Result<Vec<u8>, AllocError>
    ensures { IfOk result (λ text. text.items ≡ out.items ++ row_text default_writer (row.old ++ error.now ∷ [])) }
{
    row.push_field(error)?;
    row.write(out)
}
