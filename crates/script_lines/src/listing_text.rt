//! The lines of a directory.
ghost use Rattle.std.specs.Prelude.{◌≡◌, ◌++◌, ◌-◌, codes, if◌then◌else◌, [], OnOk, IfOk};
ghost use Rattle.std.specs.Fmt.{decimal};
ghost use Rattle.petscii.specs.Spelling.{spelling};
ghost use Rattle.d64_dos.specs.Listing.{shown_row, shown_listing};
ghost use Rattle.script_lines.specs.ListingText.{padded_text, listed_kind_text, header_line, row_line, listing_text};

use d64_dos::{Listing, Row};
use d64_files::Kind;
use itoa::Buffer;
use petscii::to_text;
use std::alloc::{AllocError, Global};

/// How many places the disk's name takes.
const DISK_NAME_PLACES: u8 = 16;

/// How many places a file's size takes.
const SIZE_PLACES: u8 = 5;

/// How many places a file's name takes with its quotes.
const FILE_NAME_PLACES: u8 = 18;

/// The lines that show a directory (1541 User's Guide, "Viewing the directory"): the disk's name
/// with its id and its DOS version, a line for each file, and the number of free blocks. Names are
/// in text form and are filled with spaces; what follows a longer one is further to the right.
///
/// An `Err` comes only if there is no memory for the text.
#[tactic(auto, unfolding(crate::specs::ListingText::listing_text, crate::specs::ListingText::free_line))]
pub fn listing_text(alloc: Global, listing: &Listing) -> Result<Vec<u8>, AllocError>
    ensures { IfOk result (λ text. text.items ≡ listing_text (shown_listing listing.now)) }
{
    let mut text = Vec::new(alloc);
    push_header(alloc, &mut text, listing)?;
    for row in listing.rows.as_slice() {
        push_row(alloc, &mut text, row)?;
    }
    push_number(&mut text, listing.free)?;
    text.extend_from_slice(b" blocks free.\n")?;
    Ok(text)
}

/// Appends the line of the disk's name.
#[tactic(auto, unfolding(crate::specs::ListingText::header_line))]
fn push_header(alloc: Global, text: &mut Vec<u8>, listing: &Listing) -> Result<(), AllocError>
    ensures { OnOk result (text.new.items ≡ text.old.items ++ header_line (shown_listing listing.now)) }
{
    text.extend_from_slice(b"0 \"")?;
    push_disk_name(alloc, text, listing.name.as_slice())?;
    text.extend_from_slice(b"\" ")?;
    push_text_form(alloc, text, listing.id.as_slice())?;
    text.extend_from_slice(b" ")?;
    push_text_form(alloc, text, listing.dos.as_slice())?;
    text.extend_from_slice(b"\n")
}

/// Appends the text form of the disk's name, filled up to its places.
fn push_disk_name(alloc: Global, text: &mut Vec<u8>, name: &[u8]) -> Result<(), AllocError>
    ensures { OnOk result (text.new.items ≡ text.old.items ++ padded_text 16 (spelling name.now)) }
{
    let name = to_text(alloc, name)?;
    push_padded(text, name.as_slice(), DISK_NAME_PLACES)
}

/// Appends the text form of bytes.
fn push_text_form(alloc: Global, text: &mut Vec<u8>, bytes: &[u8]) -> Result<(), AllocError>
    ensures { OnOk result (text.new.items ≡ text.old.items ++ spelling bytes.now) }
{
    let form = to_text(alloc, bytes)?;
    text.extend_from_slice(form.as_slice())
}

/// Appends the line of a file.
#[tactic(auto, unfolding(crate::specs::ListingText::row_line))]
fn push_row(alloc: Global, text: &mut Vec<u8>, row: &Row) -> Result<(), AllocError>
    ensures { OnOk result (text.new.items ≡ text.old.items ++ row_line (shown_row row.now)) }
{
    push_size(text, row.blocks)?;
    text.extend_from_slice(b" ")?;
    push_file_name(alloc, text, row.name.as_slice())?;
    text.extend_from_slice(closed_mark(row.closed))?;
    text.extend_from_slice(kind_text(row.kind))?;
    text.extend_from_slice(lock_mark(row.locked))?;
    text.extend_from_slice(b"\n")
}

/// Appends a file's name in text form, between quotes, filled up to its places.
fn push_file_name(alloc: Global, text: &mut Vec<u8>, name: &[u8]) -> Result<(), AllocError>
    ensures { OnOk result (text.new.items ≡ text.old.items ++ padded_text 18 (codes "\"" ++ spelling name.now ++ codes "\"")) }
{
    let quoted = quoted(alloc, name)?;
    push_padded(text, quoted.as_slice(), FILE_NAME_PLACES)
}

/// The text form of a name, between quotes.
fn quoted(alloc: Global, name: &[u8]) -> Result<Vec<u8>, AllocError>
    ensures { IfOk result (λ text. text.items ≡ codes "\"" ++ spelling name.now ++ codes "\"") }
{
    let mut text = Vec::from_slice(alloc, b"\"")?;
    push_text_form(alloc, &mut text, name)?;
    text.extend_from_slice(b"\"")?;
    Ok(text)
}

/// The mark before a file's kind: a space, or `*` if the file is not closed.
fn closed_mark(closed: bool) -> &'static [u8]
    ensures { result.now ≡ (if closed then codes " " else codes "*") }
{
    if closed { b" " } else { b"*" }
}

/// The three letters of a file's kind.
fn kind_text(kind: Kind) -> &'static [u8]
    ensures { result.now ≡ listed_kind_text kind }
{
    match kind {
        Kind::Del => b"del",
        Kind::Seq => b"seq",
        Kind::Prg => b"prg",
        Kind::Usr => b"usr",
        Kind::Rel => b"rel",
    }
}

/// The mark after a file's kind: `<` if the file is locked.
fn lock_mark(locked: bool) -> &'static [u8]
    ensures { result.now ≡ (if locked then codes "<" else []) }
{
    if locked { b"<" } else { b"" }
}

/// Appends a file's size, at the left of its places.
fn push_size(text: &mut Vec<u8>, blocks: u16) -> Result<(), AllocError>
    ensures { OnOk result (text.new.items ≡ text.old.items ++ padded_text 5 (decimal blocks)) }
{
    let mut buffer = Buffer::new();
    push_padded(text, buffer.format(blocks).as_bytes(), SIZE_PLACES)
}

/// Appends a number in decimal.
fn push_number(text: &mut Vec<u8>, number: u32) -> Result<(), AllocError>
    ensures { OnOk result (text.new.items ≡ text.old.items ++ decimal number) }
{
    let mut buffer = Buffer::new();
    text.extend_from_slice(buffer.format(number).as_bytes())
}

/// Appends bytes, and spaces up to a number of places.
fn push_padded(text: &mut Vec<u8>, bytes: &[u8], places: u8) -> Result<(), AllocError>
    ensures { OnOk result (text.new.items ≡ text.old.items ++ padded_text places bytes.now) }
{
    text.extend_from_slice(bytes)?;
    let spaces = usize::from(places).saturating_sub(bytes.len());
    text.resize(text.len() + spaces, b' ')
}
