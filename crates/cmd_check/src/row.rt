//! Rows of CSV: the header, and the rows of files that cannot be read or have a wrong length.
ghost use Rattle.std.specs.Prelude.{◌≡◌, [], ◌∷◌, ◌++◌, codes, OnOk, IfOk};
ghost use Rattle.cmd_check.specs.CheckRows.{in_digest, field_if, header_row, failed_row};
ghost use Rattle.out_json_csv.specs.FailedDumps.{no_dump_error};

use out_json_csv::{CsvRow, Scratch, UNREAD, end_row, no_dump_error};
use std::alloc::AllocError;

/// The columns of each row, without the digest, the doubts and the error.
const COLUMNS: [&[u8]; 14] = [
    b"image",
    b"tracks",
    b"codes",
    b"name",
    b"id",
    b"dos",
    b"entries",
    b"whole",
    b"free",
    b"unowned",
    b"sound",
    b"amiss",
    b"faults",
    b"read_errors",
];

/// Empty fields for the columns between the name and the digest.
const EMPTY: [&[u8]; 13] = [b""; 13];

/// Appends a text in the column of the digest to a row, if there is such a column.
fn push_in_digest(row: &mut CsvRow, has_digest: bool, text: &[u8]) -> Result<(), AllocError>
    ensures { OnOk result (row.new ≡ row.old ++ field_if (in_digest has_digest text.now)) }
{
    if has_digest {
        return row.push_field(text);
    }
    Ok(())
}

/// Appends the header row to a text.
pub(crate) fn csv_header(
    scratch: &mut Scratch,
    has_digest: bool,
    out: Vec<u8>,
) -> Result<Vec<u8>, AllocError>
    ensures { IfOk result (λ text. text.items ≡ out.items ++ header_row has_digest) }
{
    scratch.row.clear();
    scratch.row.push_fields(&COLUMNS)?;
    push_in_digest(&mut scratch.row, has_digest, b"sha256")?;
    scratch.row.push_field(b"doubts")?;
    end_row(&mut scratch.row, b"error", out)
}

/// Appends a row with only a name and an error.
fn push_failed(
    scratch: &mut Scratch,
    name: &[u8],
    has_digest: bool,
    error: &[u8],
    out: Vec<u8>,
) -> Result<Vec<u8>, AllocError>
    ensures { IfOk result (λ text. text.items ≡ out.items ++ failed_row name.now has_digest error.now) }
{
    scratch.row.clear();
    scratch.row.push_host_name(&mut scratch.text, name)?;
    scratch.row.push_fields(&EMPTY)?;
    push_in_digest(&mut scratch.row, has_digest, b"")?;
    scratch.row.push_field(b"")?;
    end_row(&mut scratch.row, error, out)
}

/// Appends the row of a file that cannot be read to a text.
pub(crate) fn unread_csv(
    scratch: &mut Scratch,
    name: &[u8],
    has_digest: bool,
    out: Vec<u8>,
) -> Result<Vec<u8>, AllocError>
    ensures { IfOk result (λ text. text.items ≡ out.items ++ failed_row name.now has_digest (codes "cannot be read")) }
{
    push_failed(scratch, name, has_digest, UNREAD.as_bytes(), out)
}

/// Appends the row of a file with these bytes, which is not a dump, to a text.
pub(crate) fn no_dump_csv(
    scratch: &mut Scratch,
    name: &[u8],
    has_digest: bool,
    bytes: &[u8],
    out: Vec<u8>,
) -> Result<Vec<u8>, AllocError>
    ensures { IfOk result (λ text. text.items ≡ out.items ++ failed_row name.now has_digest (no_dump_error bytes.now)) }
{
    push_failed(
        scratch,
        name,
        has_digest,
        no_dump_error(bytes).as_bytes(),
        out,
    )
}
