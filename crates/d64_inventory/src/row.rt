//! The row of a used slot: all that the inventory has of a file.

use arrayvec::ArrayVec;
use d64_files::Kind;
use d64_survey::{FLAWS, Flaw};
use std::marker::Model;

/// The content of a file: how many bytes it has, and their SHA-256 digest.
#[derive(Clone, Copy, Debug, PartialEq, Eq)]
pub struct Content {
    pub bytes: usize,
    pub digest: [u8; 32],
}

/// The row of a used slot of the directory's way and its file.
#[derive(Drop)]
pub struct FileRow {
    /// The number of the slot, from 0 along the directory's way.
    pub slot: usize,
    /// The field of the name: 16 bytes, of which the first shifted space ($A0) ends the name.
    pub field: [u8; 16],
    /// None if the low four bits of the type byte are above 4.
    pub kind: Option<Kind>,
    pub type_byte: u8,
    pub closed: bool,
    pub locked: bool,
    /// The size that the directory shows, in blocks.
    pub size: u16,
    /// The track and the sector of the first block, as the slot has them.
    pub first: (u8, u8),
    /// The length of a record in bytes, as the slot has it; None if the kind isn't REL.
    pub record: Option<u8>,
    /// How many blocks the data way has, if there is one.
    pub blocks: Option<usize>,
    /// How many blocks the side way has, if there is one.
    pub side: Option<usize>,
    /// None if the file has no content: its data way is broken, or there is no data way.
    pub content: Option<Content>,
    /// None if it isn't known.
    pub whole: Option<bool>,
    pub why: ArrayVec<Flaw, FLAWS>,
    /// The numbers of the conditions, from 3 to 6, of the faults that name the slot.
    pub conditions: ArrayVec<u8, 4>,
    /// How many blocks of the file have a read error.
    pub read_errors: usize,
}

impl Model for FileRow {
    ghost use Rattle.d64_inventory.specs.Rows.{FileRowView};

    ghost Value = { FileRowView };

    ghost view = { λ row. record {
      slot = row.slot;
      field = row.field;
      kind = row.kind;
      type_byte = row.type_byte;
      closed = row.closed;
      locked = row.locked;
      size = row.size;
      first = row.first;
      record_length = row.«record»;
      blocks = row.blocks;
      side = row.side;
      content = row.content;
      whole = row.whole;
      why = row.why.items;
      conditions = row.conditions.items;
      read_errors = row.read_errors;
    } };
}
