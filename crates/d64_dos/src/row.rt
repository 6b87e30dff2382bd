//! The rows of a directory, and the listing that they make up.
ghost use Rattle.std.specs.Prelude.{◌≡◌, IfOk, map};
ghost use Rattle.d64_dos.specs.Listing.{listed_row_of, rows_of, shown_row};

use d64_files::{Entry, Kind, Slots};
use std::alloc::{AllocError, Global};

/// What a directory lists of a file.
#[derive(Drop)]
pub struct Row {
    /// The size in blocks of 254 bytes of data, as the entry has it.
    pub blocks: u16,
    /// The name, up to the first $A0 of its field: at most 16 bytes of PETSCII.
    pub name: Vec<u8>,
    /// Whether the file was closed; a directory shows a `*` if it wasn't.
    pub closed: bool,
    /// The kind of the file.
    pub kind: Kind,
    /// Whether the file is locked, so that it isn't deleted; a directory shows a `<` then.
    pub locked: bool,
}

/// What a directory lists (1541 User's Guide).
#[derive(Drop)]
pub struct Listing {
    /// The disk's name, up to the first $A0 of its field: at most 16 bytes of PETSCII.
    pub name: Vec<u8>,
    /// The disk's id.
    pub id: [u8; 2],
    /// The DOS version and the format, `2A` for a disk of the 1541.
    pub dos: [u8; 2],
    /// The used slots, in the order of the directory.
    pub rows: Vec<Row>,
    /// The number of free blocks, by the map's counts for all tracks but 18.
    pub free: u32,
}

/// The row of an entry.
fn row_of(alloc: Global, entry: &Entry) -> Result<Row, AllocError>
    ensures { IfOk result (λ row. shown_row row ≡ listed_row_of entry.now.bytes) }
{
    Ok(Row {
        blocks: entry.blocks(),
        name: Vec::from_slice(alloc, entry.name())?,
        closed: entry.closed(),
        kind: entry.kind(),
        locked: entry.locked(),
    })
}

/// The rows of the used slots among those that are left of a walk.
pub(crate) fn rows_of(alloc: Global, walk: Slots<'_>) -> Result<Vec<Row>, AllocError>
    ensures { IfOk result (λ rows. map shown_row rows.items ≡ rows_of walk.entry) }
{
    let mut rows = Vec::new(alloc);
    for entry in walk {
        if entry.used() {
            rows.push(row_of(alloc, &entry)?)?;
        }
    }
    Ok(rows)
}
