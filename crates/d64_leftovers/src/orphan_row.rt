//! The row of an orphan, a chain of blocks that no slot leads to.

use d64_files::Kind;
use d64_image::BlockNo;
use d64_inventory::Content;
use std::marker::Model;

/// What a slot of an old directory says of an orphan. The slot has the track and the sector of the
/// orphan's first block.
#[derive(Clone, Copy, PartialEq, Eq)]
pub struct OldSlot {
    /// The field of the name.
    pub field: [u8; 16],
    pub kind: Kind,
    pub type_byte: u8,
    pub closed: bool,
    pub locked: bool,
    /// The size that the slot shows, in blocks.
    pub size: u16,
}

/// The row of a chain of blocks that no slot leads to.
#[derive(Drop)]
pub struct OrphanRow {
    /// Its first block.
    pub first: BlockNo,
    /// What the first slot of an old directory that names it says, if one does.
    pub old: Option<OldSlot>,
    /// How many blocks it has.
    pub blocks: usize,
    /// The content along it; never None.
    pub content: Option<Content>,
    /// How many of its blocks have a read error.
    pub read_errors: usize,
}

impl Model for OrphanRow {
    ghost use Rattle.d64_leftovers.specs.Orphans.{OrphanRowView};

    ghost Value = { OrphanRowView };

    ghost view = { λ row. record {
      first = row.first;
      old = row.old;
      blocks = row.blocks;
      content = row.content;
      read_errors = row.read_errors;
    } };
}
