//! `DeletedRow`: the row of a scratched slot, with what the dump still has of a deleted file.

use arrayvec::ArrayVec;
use d64_image::BlockNo;
use d64_inventory::Content;
use d64_scratched::{LOSSES, Loss};
use std::marker::Model;

/// The row of a scratched slot of the directory's way, and of the file that was deleted there.
#[derive(Drop)]
pub struct DeletedRow {
    /// The number of the slot, from 0 along the directory's way.
    pub slot: usize,
    /// The field of the name: 16 bytes, of which the first shifted space ($A0) ends the name.
    pub field: [u8; 16],
    /// The size that the slot still shows, in blocks.
    pub size: u16,
    /// The track and the sector of the first block, as the slot has them.
    pub first: (u8, u8),
    /// How many blocks the way from there has.
    pub blocks: usize,
    /// How many bytes the content along the way has, and their digest. None if the way isn't a
    /// whole chain.
    pub content: Option<Content>,
    /// Why the file isn't whole; empty if it is.
    pub losses: ArrayVec<Loss, LOSSES>,
    /// The first block of the way that has an owner, if one has.
    pub reused: Option<BlockNo>,
    /// How many blocks of the way have a read error.
    pub read_errors: usize,
}

impl Model for DeletedRow {
    ghost use Rattle.d64_leftovers.specs.Deleted.{DeletedRowView};

    ghost Value = { DeletedRowView };

    ghost view = { λ row. record {
      slot = row.slot;
      field = row.field;
      size = row.size;
      first = row.first;
      blocks = row.blocks;
      content = row.content;
      losses = row.losses.items;
      reused = row.reused;
      read_errors = row.read_errors;
    } };
}
