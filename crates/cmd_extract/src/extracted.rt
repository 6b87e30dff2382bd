//! What is printed of a file that is written to the host: what `files` prints, and the path of the
//! host file.
ghost use Rattle.std.specs.Prelude.{◌≡◌, [], ◌∷◌, ◌++◌, option_map, OnOk, IfOk};
ghost use Rattle.out_json_csv.specs.Values.{PrintsMembers, line_of};
ghost use Rattle.cmd_extract.specs.Extracted.{path_member, path_field, path_text, extracted_object, extracted_row, extracted_line, extracted_header, unextracted_row};

use d64_leftovers::ListedRow;
use d64_survey::Survey;
use host_storage::push_shown;
use json::Writer;
use out_files::{
    begin_header, begin_name_alone, begin_row, push_leftover_fields, push_leftovers, push_row_text,
    put_leftover_members, put_row_members,
};
use out_json_csv::{CsvRow, Scratch, end_row, into_line, put_host_name, put_null};
use program_arguments::Leftovers;
use std::alloc::AllocError;

/// Prints the path of a host file, or null if no file was written.
fn put_path(
    scratch: &mut Vec<u8>,
    writer: &mut Writer,
    path: Option<&[u8]>,
) -> Result<(), AllocError>
    ensures { PrintsMembers result writer.old writer.new (path_member (option_map (λ p. p.now) path.entry) ∷ []) }
{
    match path {
        Some(path) => put_host_name(scratch, writer, "file", path),
        None => put_null(writer, "file"),
    }
}

/// Appends the line of a file to a text: an object of JSON with the name of its image, the members
/// of the file, and the path of the host file.
pub(crate) fn extracted_json(
    leftovers: Leftovers,
    scratch: &mut Scratch,
    name: &[u8],
    row: &ListedRow,
    path: Option<&[u8]>,
    out: Vec<u8>,
) -> Result<Vec<u8>, AllocError>
    ensures { IfOk result (λ text. text.items ≡ out.items ++ line_of (extracted_object leftovers name.now row.now (option_map (λ p. p.now) path.entry))) }
{
    let start = out.len();
    let mut writer = Writer::new(out);
    writer.begin_object()?;
    put_row_members(&mut scratch.text, &mut writer, name, row)?;
    put_path(&mut scratch.text, &mut writer, path)?;
    put_leftover_members(leftovers, &mut writer, row)?;
    writer.end_object()?;
    let text = into_line(writer, start)?;
    Ok(text)
}

/// Appends the path of a host file to a row, or an empty field.
fn push_path_field(
    scratch: &mut Vec<u8>,
    row: &mut CsvRow,
    path: Option<&[u8]>,
) -> Result<(), AllocError>
    ensures { OnOk result (row.new ≡ row.old ++ path_field (option_map (λ p. p.now) path.entry) ∷ []) }
{
    match path {
        Some(path) => row.push_host_name(scratch, path),
        None => row.push_field(b""),
    }
}

/// Appends the row of a file to a text, with the path of the host file.
pub(crate) fn extracted_csv(
    leftovers: Leftovers,
    scratch: &mut Scratch,
    name: &[u8],
    row: &ListedRow,
    path: Option<&[u8]>,
    out: Vec<u8>,
) -> Result<Vec<u8>, AllocError>
    ensures { IfOk result (λ text. text.items ≡ out.items ++ extracted_row leftovers name.now row.now (option_map (λ p. p.now) path.entry)) }
{
    begin_row(scratch, name, row)?;
    push_path_field(&mut scratch.text, &mut scratch.row, path)?;
    push_leftover_fields(leftovers, &mut scratch.row, row)?;
    end_row(&mut scratch.row, b"", out)
}

/// Appends the path of the host file.
fn push_path(out: &mut Vec<u8>, path: Option<&[u8]>) -> Result<(), AllocError>
    ensures { OnOk result (out.new.items ≡ out.old.items ++ path_text (option_map (λ p. p.now) path.entry)) }
{
    match path {
        Some(path) => {
            out.extend_from_slice(b" -> ")?;
            push_shown(out, path)
        }
        None => out.extend_from_slice(b", not written"),
    }
}

/// Appends the line of a file for people, with the path of the host file.
#[tactic(auto, unfolding(crate::specs::Extracted::extracted_line))]
pub(crate) fn push_extracted_line(
    scratch: &mut Vec<u8>,
    out: &mut Vec<u8>,
    survey: &Survey,
    row: &ListedRow,
    path: Option<&[u8]>,
) -> Result<(), AllocError>
    ensures { OnOk result (out.new.items ≡ out.old.items ++ extracted_line survey.now row.now (option_map (λ p. p.now) path.entry)) }
{
    push_row_text(scratch, out, survey, row)?;
    push_path(out, path)?;
    out.extend_from_slice(b"\n")
}

/// Appends the header row to a text.
pub(crate) fn extracted_header(
    leftovers: Leftovers,
    scratch: &mut Scratch,
    out: Vec<u8>,
) -> Result<Vec<u8>, AllocError>
    ensures { IfOk result (λ text. text.items ≡ out.items ++ extracted_header leftovers) }
{
    begin_header(scratch)?;
    scratch.row.push_field(b"file")?;
    push_leftovers(leftovers, &mut scratch.row, b"deleted", b"orphan")?;
    end_row(&mut scratch.row, b"error", out)
}

/// Appends the row of an image that is not extracted, for this error, to a text.
pub(crate) fn unextracted_csv(
    leftovers: Leftovers,
    scratch: &mut Scratch,
    name: &[u8],
    error: &[u8],
    out: Vec<u8>,
) -> Result<Vec<u8>, AllocError>
    ensures { IfOk result (λ text. text.items ≡ out.items ++ unextracted_row leftovers name.now error.now) }
{
    begin_name_alone(scratch, name)?;
    scratch.row.push_field(b"")?;
    push_leftovers(leftovers, &mut scratch.row, b"", b"")?;
    end_row(&mut scratch.row, error, out)
}
