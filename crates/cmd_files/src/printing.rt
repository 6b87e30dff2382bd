//! Printing the files of an image, in one of the three formats.
ghost use Rattle.std.specs.Prelude.{◌≡◌, ◌++◌, IfOk, OnOk};
ghost use Rattle.cmd_files.specs.Files.{printed_row, printed_rows, under_heading, is_section_wanted, section_rows, section_heading, section_of, all_rows, printed_of};

use d64_leftovers::{ListedRow, RowList, Selection};
use d64_survey::{Inspection, Survey};
use out_files::{Form, print_after, print_before, push_row_line, row_csv, row_json};
use out_json_csv::Scratch;
use program_arguments::{Format, Leftovers};
use std::alloc::AllocError;

/// The rows of files alone.
const FILES_ALONE: Selection = Selection {
    files: true,
    deleted: false,
    orphans: false,
};

/// The rows of deleted files alone.
const DELETED_ALONE: Selection = Selection {
    files: false,
    deleted: true,
    orphans: false,
};

/// The rows of orphans alone.
const ORPHANS_ALONE: Selection = Selection {
    files: false,
    deleted: false,
    orphans: true,
};

/// A section of a table, which has a heading of its own.
#[derive(Clone, Copy)]
enum Section {
    Deleted,
    Orphans,
}

impl Section {
    /// Whether it is wanted.
    fn is_wanted(self, leftovers: Leftovers) -> bool
        ensures { result ≡ is_section_wanted self leftovers }
    {
        match self {
            Section::Deleted => leftovers.deleted,
            Section::Orphans => leftovers.orphans,
        }
    }

    /// Its rows.
    fn rows(self) -> Selection
        ensures { result ≡ section_rows self }
    {
        match self {
            Section::Deleted => DELETED_ALONE,
            Section::Orphans => ORPHANS_ALONE,
        }
    }

    /// Its heading, with a line feed.
    fn heading(self) -> &'static [u8]
        ensures { result.now ≡ section_heading self }
    {
        match self {
            Section::Deleted => b"deleted\n",
            Section::Orphans => b"in no directory\n",
        }
    }
}

/// Appends what is printed of a row.
fn print_row(
    form: Form,
    scratch: &mut Scratch,
    name: &[u8],
    survey: &Survey,
    row: &ListedRow,
    out: Vec<u8>,
) -> Result<Vec<u8>, AllocError>
    ensures { IfOk result (λ text. text.items ≡ out.items ++ printed_row form name.now survey.now row.now) }
{
    match form.format {
        Format::Text => {
            let mut text = out;
            push_row_line(&mut scratch.text, &mut text, survey, row)?;
            Ok(text)
        }
        Format::Json => row_json(form.leftovers, scratch, name, row, out),
        Format::Csv => row_csv(form.leftovers, scratch, name, row, out),
    }
}

/// Appends what is printed of the rows of a dump that are wanted, in their order.
#[tactic(auto, unfolding(crate::specs::Files::printed_rows))]
fn print_rows(
    form: Form,
    wanted: Selection,
    scratch: &mut Scratch,
    name: &[u8],
    all: &Inspection,
    out: Vec<u8>,
) -> Result<Vec<u8>, AllocError>
    ensures { IfOk result (λ text. text.items ≡ out.items ++ printed_rows form wanted name.now all.now) }
{
    let mut text = out;
    for row in RowList::of(all, wanted) {
        text = print_row(form, scratch, name, all.survey(), &row, text)?;
    }
    Ok(text)
}

/// Appends what is printed of rows in a table, under a heading, if they are wanted.
fn print_section(
    form: Form,
    section: Section,
    scratch: &mut Scratch,
    name: &[u8],
    all: &Inspection,
    out: Vec<u8>,
) -> Result<Vec<u8>, AllocError>
    ensures { IfOk result (λ text. text.items ≡ out.items ++ section_of form section name.now all.now) }
{
    if !section.is_wanted(form.leftovers) {
        return Ok(out);
    }
    let lines = Vec::new(*scratch.text.allocator());
    let lines = print_rows(form, section.rows(), scratch, name, all, lines)?;
    let mut text = out;
    push_under_heading(&mut text, section.heading(), &lines)?;
    Ok(text)
}

/// Appends lines under a heading, if there are any.
fn push_under_heading(out: &mut Vec<u8>, heading: &[u8], lines: &[u8]) -> Result<(), AllocError>
    ensures { OnOk result (out.new.items ≡ out.old.items ++ under_heading heading.now lines.now) }
{
    if lines.is_empty() {
        return Ok(());
    }
    out.extend_from_slice(heading)?;
    out.extend_from_slice(lines)
}

/// Appends what is printed of the rows of a dump: as text, files and then what is left over under
/// headings; else all in one list, in the order of the slots.
fn print_all_rows(
    form: Form,
    scratch: &mut Scratch,
    name: &[u8],
    all: &Inspection,
    out: Vec<u8>,
) -> Result<Vec<u8>, AllocError>
    ensures { IfOk result (λ text. text.items ≡ out.items ++ all_rows form.format form name.now all.now) }
{
    match form.format {
        Format::Text => {
            let files = print_rows(form, FILES_ALONE, scratch, name, all, out)?;
            let files = print_section(form, Section::Deleted, scratch, name, all, files)?;
            print_section(form, Section::Orphans, scratch, name, all, files)
        }
        Format::Json | Format::Csv => { print_rows(form, form.wanted(), scratch, name, all, out) }
    }
}

/// Appends what is printed of a dump.
#[tactic(auto, unfolding(crate::specs::Files::printed_of))]
pub(crate) fn print_dump(
    form: Form,
    scratch: &mut Scratch,
    name: &[u8],
    all: &Inspection,
    out: Vec<u8>,
) -> Result<Vec<u8>, AllocError>
    ensures { IfOk result (λ text. text.items ≡ out.items ++ printed_of form name.now all.now) }
{
    let mut head = out;
    print_before(form.format, name, all.image(), &mut head)?;
    let mut text = print_all_rows(form, scratch, name, all, head)?;
    print_after(form.format, all, &mut text)?;
    Ok(text)
}
