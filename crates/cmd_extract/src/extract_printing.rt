//! Printing the files that are written to the host, in one of the three formats.
ghost use Rattle.std.specs.Prelude.{◌≡◌, ◌++◌, option_map, IfOk};
ghost use Rattle.cmd_extract.specs.Extracts.{printed_file, printed_error, printed_length, extract_heading};

use crate::extracted::{
    extracted_csv, extracted_header, extracted_json, push_extracted_line, unextracted_csv,
};
use d64_leftovers::ListedRow;
use d64_survey::Survey;
use out_files::Form;
use out_json_csv::{Scratch, failed_json, no_dump_error, no_dump_json};
use program_arguments::Format;
use std::alloc::AllocError;

/// Appends what is printed before the first result.
pub(crate) fn print_extract_heading(
    form: Form,
    scratch: &mut Scratch,
    out: Vec<u8>,
) -> Result<Vec<u8>, AllocError>
    ensures { IfOk result (λ text. text.items ≡ out.items ++ extract_heading form) }
{
    match form.format {
        Format::Text | Format::Json => Ok(out),
        Format::Csv => extracted_header(form.leftovers, scratch, out),
    }
}

/// Appends what is printed of a file of the image with this name, and the path of the host file;
/// None if no file was written.
pub(crate) fn print_file(
    form: Form,
    scratch: &mut Scratch,
    name: &[u8],
    survey: &Survey,
    row: &ListedRow,
    path: Option<&[u8]>,
    out: Vec<u8>,
) -> Result<Vec<u8>, AllocError>
    ensures { IfOk result (λ text. text.items ≡ out.items ++ printed_file form name.now survey.now row.now (option_map (λ p. p.now) path.entry)) }
{
    match form.format {
        Format::Text => {
            let mut text = out;
            push_extracted_line(&mut scratch.text, &mut text, survey, row, path)?;
            Ok(text)
        }
        Format::Json => extracted_json(form.leftovers, scratch, name, row, path, out),
        Format::Csv => extracted_csv(form.leftovers, scratch, name, row, path, out),
    }
}

/// Appends what is printed of an image that is not extracted, for this error.
pub(crate) fn print_error(
    form: Form,
    scratch: &mut Scratch,
    name: &[u8],
    error: &str,
    out: Vec<u8>,
) -> Result<Vec<u8>, AllocError>
    ensures { IfOk result (λ text. text.items ≡ out.items ++ printed_error form name.now error.now) }
{
    match form.format {
        Format::Text => Ok(out),
        Format::Json => failed_json(scratch, name, error, out),
        Format::Csv => unextracted_csv(form.leftovers, scratch, name, error.as_bytes(), out),
    }
}

/// Appends what is printed of a file with these bytes, which is not a dump.
pub(crate) fn print_length(
    form: Form,
    scratch: &mut Scratch,
    name: &[u8],
    bytes: &[u8],
    out: Vec<u8>,
) -> Result<Vec<u8>, AllocError>
    ensures { IfOk result (λ text. text.items ≡ out.items ++ printed_length form name.now bytes.now) }
{
    match form.format {
        Format::Text => Ok(out),
        Format::Json => no_dump_json(scratch, name, bytes, out),
        Format::Csv => unextracted_csv(
            form.leftovers,
            scratch,
            name,
            no_dump_error(bytes).as_bytes(),
            out,
        ),
    }
}
