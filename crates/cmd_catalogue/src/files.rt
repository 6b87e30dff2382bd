//! The table of the files on a disk.
ghost use Rattle.std.specs.Prelude.{◌≡◌, ◌≤◌, [], ◌++◌, length, codes, option_map, OnOk};
ghost use Rattle.d64_survey.specs.Flaws.{wholeness_by};
ghost use Rattle.d64_survey.specs.Owners.{way_slots};
ghost use Rattle.cmd_catalogue.specs.Files.{slot_reasons, slot_unknown_text, wholeness_text, slot_state_words, state_class, state_cell, size_cell, name_cell, kind_cell, file_cells, flawed_row, used_row, file_row, file_rows, linked_rows, dump_rows, table_head, table};
ghost use Rattle.d64_files.specs.Directory.{entries};
ghost use Rattle.out_markup.specs.Markup.{element};
ghost use Rattle.cmd_catalogue.specs.Links.{file_url, first_naming, naming_after};
ghost use Rattle.cmd_catalogue.specs.Namings.{naming_of};

use crate::element::{push_linked_text_in, push_text_in};
use crate::host_files::HostFiles;
use d64_files::Entry;
use d64_image::Image;
use d64_survey::{Flaw, Inspection, wholeness};
use out_messages::{blocks_there, letters_of, locked_text, push_flaws, push_number};
use petscii::push_spelling;
use std::alloc::AllocError;

/// The headers of the columns.
const TABLE_HEAD: &[u8] =
    b"<thead><tr><th scope=\"col\">Blocks</th><th scope=\"col\">Name</th><th scope=\"col\">Kind</th><th scope=\"col\">State</th></tr></thead>\n";

/// Appends why the file of a slot is not whole, or why that is not known.
#[tactic(auto, unfolding(crate::specs::Files::slot_reasons))]
fn push_reasons(
    out: &mut Vec<u8>,
    image: &Image,
    entry: &Entry,
    flaws: &[Flaw],
) -> Result<(), AllocError>
    requires { length flaws.now ≤ 7 }
    ensures { OnOk result (out.new.items ≡ out.old.items ++ slot_reasons image.now entry.now.bytes flaws.now) }
{
    push_flaws(
        out,
        usize::from(entry.blocks()),
        blocks_there(image, entry),
        flaws,
    )
}

/// Appends that it is not known whether the file is whole, and why, if there is more to say.
#[tactic(auto, unfolding(crate::specs::Files::slot_unknown_text))]
fn push_unknown(
    out: &mut Vec<u8>,
    image: &Image,
    entry: &Entry,
    flaws: &[Flaw],
) -> Result<(), AllocError>
    requires { length flaws.now ≤ 7 }
    ensures { OnOk result (out.new.items ≡ out.old.items ++ slot_unknown_text image.now entry.now.bytes flaws.now) }
{
    out.extend_from_slice(b"not known")?;
    if flaws.is_empty() {
        return Ok(());
    }
    out.extend_from_slice(b": ")?;
    push_reasons(out, image, entry, flaws)
}

/// Appends whether the file is whole, or what is wrong with it.
fn push_wholeness(
    out: &mut Vec<u8>,
    image: &Image,
    entry: &Entry,
    flaws: &[Flaw],
) -> Result<(), AllocError>
    requires { length flaws.now ≤ 7 }
    ensures { OnOk result (out.new.items ≡ out.old.items ++ wholeness_text (wholeness_by entry.now.bytes flaws.now) image.now entry.now.bytes flaws.now) }
{
    match wholeness(entry, flaws) {
        Some(true) => out.extend_from_slice(b"whole"),
        Some(false) => push_reasons(out, image, entry, flaws),
        None => push_unknown(out, image, entry, flaws),
    }
}

/// Appends the state of the file of a slot with these flaws.
#[tactic(auto, unfolding(crate::specs::Files::slot_state_words))]
fn push_state_words(
    out: &mut Vec<u8>,
    image: &Image,
    entry: &Entry,
    flaws: &[Flaw],
) -> Result<(), AllocError>
    requires { length flaws.now ≤ 7 }
    ensures { OnOk result (out.new.items ≡ out.old.items ++ slot_state_words image.now entry.now.bytes flaws.now) }
{
    push_wholeness(out, image, entry, flaws)?;
    out.extend_from_slice(locked_text(entry.locked()))
}

/// Returns the attribute that gives a state its look.
fn state_class(wholeness: Option<bool>) -> &'static [u8]
    ensures { result.now ≡ state_class wholeness }
{
    match wholeness {
        Some(true) => b" class=\"whole\"",
        Some(false) => b" class=\"broken\"",
        None => b" class=\"unknown\"",
    }
}

/// Appends the cell of the state.
#[tactic(auto, unfolding(crate::specs::Files::state_cell))]
fn push_state_cell(
    out: &mut Vec<u8>,
    image: &Image,
    entry: &Entry,
    flaws: &[Flaw],
    text: &mut Vec<u8>,
) -> Result<(), AllocError>
    requires { length flaws.now ≤ 7 }
    ensures { OnOk result (out.new.items ≡ out.old.items ++ state_cell image.now entry.now.bytes flaws.now) }
{
    text.clear();
    push_state_words(text, image, entry, flaws)?;
    push_text_in(
        out,
        b"td",
        state_class(wholeness(entry, flaws)),
        text.as_slice(),
    )
}

/// Appends the size that the directory gives.
#[tactic(auto, unfolding(crate::specs::Files::size_cell))]
fn push_size_cell(out: &mut Vec<u8>, entry: &Entry, text: &mut Vec<u8>) -> Result<(), AllocError>
    ensures { OnOk result (out.new.items ≡ out.old.items ++ size_cell entry.now.bytes) }
{
    text.clear();
    push_number(text, usize::from(entry.blocks()))?;
    push_text_in(out, b"td", b"", text.as_slice())
}

/// Appends the name, with a link to a URL, if there is one.
#[tactic(auto, unfolding(crate::specs::Files::name_cell))]
fn push_name_cell(
    out: &mut Vec<u8>,
    link: Option<&[u8]>,
    entry: &Entry,
    text: &mut Vec<u8>,
) -> Result<(), AllocError>
    ensures { OnOk result (out.new.items ≡ out.old.items ++ name_cell (option_map (λ link. link.now) link.entry) entry.now.bytes) }
{
    text.clear();
    push_spelling(text, entry.name())?;
    push_linked_text_in(out, b"th", b" scope=\"row\"", link, text.as_slice())
}

/// Appends the letters of the kind.
#[tactic(auto, unfolding(crate::specs::Files::kind_cell))]
fn push_kind_cell(out: &mut Vec<u8>, entry: &Entry) -> Result<(), AllocError>
    ensures { OnOk result (out.new.items ≡ out.old.items ++ kind_cell entry.now.bytes) }
{
    push_text_in(out, b"td", b"", letters_of(entry))
}

/// Appends all cells of a file.
#[tactic(auto, unfolding(crate::specs::Files::file_cells))]
fn push_file_cells(
    out: &mut Vec<u8>,
    link: Option<&[u8]>,
    image: &Image,
    entry: &Entry,
    flaws: &[Flaw],
    text: &mut Vec<u8>,
) -> Result<(), AllocError>
    requires { length flaws.now ≤ 7 }
    ensures { OnOk result (out.new.items ≡ out.old.items ++ file_cells (option_map (λ link. link.now) link.entry) image.now entry.now.bytes flaws.now) }
{
    push_size_cell(out, entry, text)?;
    push_name_cell(out, link, entry, text)?;
    push_kind_cell(out, entry)?;
    push_state_cell(out, image, entry, flaws, text)
}

/// Appends the row of a file.
#[tactic(auto, unfolding(crate::specs::Files::flawed_row, out_markup::specs::Markup::element, out_markup::specs::Markup::tag))]
fn push_flawed_row(
    out: &mut Vec<u8>,
    link: Option<&[u8]>,
    image: &Image,
    entry: &Entry,
    flaws: &[Flaw],
    text: &mut Vec<u8>,
) -> Result<(), AllocError>
    requires { length flaws.now ≤ 7 }
    ensures { OnOk result (out.new.items ≡ out.old.items ++ flawed_row (option_map (λ link. link.now) link.entry) image.now entry.now.bytes flaws.now) }
{
    out.extend_from_slice(b"<tr>")?;
    push_file_cells(out, link, image, entry, flaws, text)?;
    out.extend_from_slice(b"</tr>\n")
}

/// Appends the row of the file of a slot, with a link to a URL, if there is one.
#[tactic(auto, unfolding(crate::specs::Files::used_row))]
fn push_used_row(
    out: &mut Vec<u8>,
    link: Option<&[u8]>,
    all: &Inspection,
    entry: &Entry,
    text: &mut Vec<u8>,
) -> Result<(), AllocError>
    ensures { OnOk result (out.new.items ≡ out.old.items ++ used_row (option_map (λ link. link.now) link.entry) all.now entry.now.bytes) }
{
    let flaws = all.why(entry);
    push_flawed_row(out, link, all.image(), entry, flaws.as_slice(), text)
}

/// Appends the row of a slot, if it is used.
#[tactic(auto, unfolding(crate::specs::Files::file_row))]
fn push_file_row(
    out: &mut Vec<u8>,
    all: &Inspection,
    entry: &Entry,
    text: &mut Vec<u8>,
) -> Result<(), AllocError>
    ensures { OnOk result (out.new.items ≡ out.old.items ++ file_row all.now entry.now.bytes) }
{
    if !entry.used() {
        return Ok(());
    }
    push_used_row(out, None, all, entry, text)
}

/// Appends the rows of all files.
#[tactic(auto, unfolding(crate::specs::Files::file_rows))]
fn push_file_rows(out: &mut Vec<u8>, all: &Inspection, text: &mut Vec<u8>) -> Result<(), AllocError>
    ensures { OnOk result (out.new.items ≡ out.old.items ++ file_rows all.now (way_slots all.now.image)) }
{
    for entry in all.survey().slots() {
        push_file_row(out, all, &entry, text)?;
    }
    Ok(())
}

/// Appends the row of the next entry's file, with a link to its host file in a folder, if that is
/// written.
fn push_linked_row(
    out: &mut Vec<u8>,
    all: &Inspection,
    entry: &Entry,
    folder: &str,
    files: &mut HostFiles,
    text: &mut Vec<u8>,
) -> Result<(), AllocError>
    ensures row { OnOk result (out.new.items ≡ out.old.items ++ used_row (file_url folder.now all.now (naming_of files.old) entry.now) all.now entry.now.bytes) }
    ensures naming { OnOk result (naming_of files.new ≡ naming_after all.now (naming_of files.old) entry.now) }
{
    let link = if files.find_next(all, entry, folder)? {
        Some(files.url.as_slice())
    } else {
        None
    };
    push_used_row(out, link, all, entry, text)
}

/// Appends the rows of all files, with links to their host files in a folder.
fn push_linked_rows(
    out: &mut Vec<u8>,
    all: &Inspection,
    folder: &str,
    files: &mut HostFiles,
    text: &mut Vec<u8>,
) -> Result<(), AllocError>
    ensures { OnOk result (out.new.items ≡ out.old.items ++ linked_rows folder.now all.now first_naming (entries all.now.image (way_slots all.now.image))) }
{
    files.begin();
    for entry in all.survey().slots() {
        if entry.used() {
            push_linked_row(out, all, &entry, folder, files, text)?;
        }
    }
    Ok(())
}

/// Appends the rows of all files, with links to their host files in a folder, if there is one.
#[tactic(auto, unfolding(crate::specs::Files::dump_rows))]
fn push_dump_rows(
    out: &mut Vec<u8>,
    all: &Inspection,
    folder: Option<&str>,
    files: &mut HostFiles,
    text: &mut Vec<u8>,
) -> Result<(), AllocError>
    ensures { OnOk result (out.new.items ≡ out.old.items ++ dump_rows (option_map (λ folder. folder.now) folder.entry) all.now) }
{
    match folder {
        Some(folder) => push_linked_rows(out, all, folder, files, text),
        None => push_file_rows(out, all, text),
    }
}

/// Appends the body of the table.
#[tactic(auto, unfolding(out_markup::specs::Markup::element, out_markup::specs::Markup::tag))]
fn push_table_body(
    out: &mut Vec<u8>,
    all: &Inspection,
    folder: Option<&str>,
    files: &mut HostFiles,
    text: &mut Vec<u8>,
) -> Result<(), AllocError>
    ensures { OnOk result (out.new.items ≡ out.old.items ++ element (codes "tbody") [] (codes "\n" ++ dump_rows (option_map (λ folder. folder.now) folder.entry) all.now)) }
{
    out.extend_from_slice(b"<tbody>\n")?;
    push_dump_rows(out, all, folder, files, text)?;
    out.extend_from_slice(b"</tbody>")
}

/// Appends the headers of the columns.
#[tactic(auto, unfolding(crate::specs::Files::table_head))]
fn push_table_head(out: &mut Vec<u8>) -> Result<(), AllocError>
    ensures { OnOk result (out.new.items ≡ out.old.items ++ table_head) }
{
    out.extend_from_slice(TABLE_HEAD)
}

/// Appends the table of the files, with links to their host files in a folder, if there is one.
#[tactic(auto, unfolding(crate::specs::Files::table, out_markup::specs::Markup::element, out_markup::specs::Markup::tag))]
pub(crate) fn push_table(
    out: &mut Vec<u8>,
    all: &Inspection,
    folder: Option<&str>,
    files: &mut HostFiles,
    text: &mut Vec<u8>,
) -> Result<(), AllocError>
    ensures { OnOk result (out.new.items ≡ out.old.items ++ table (option_map (λ folder. folder.now) folder.entry) all.now) }
{
    out.extend_from_slice(b"<table>\n")?;
    push_table_head(out)?;
    push_table_body(out, all, folder, files, text)?;
    out.extend_from_slice(b"</table>\n")
}
