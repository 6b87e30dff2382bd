//! The rows of a dump, one at a time.
ghost use Rattle.std.specs.Prelude.{◌≡◌, ◌∷◌, [], MatchOption};
ghost use Rattle.std.specs.Iterator.{YieldsFirst, item_count};
ghost use Rattle.d64_inventory.specs.Rows.{FileRowView, rows, rows_from};

use crate::inventory::Inventory;
use crate::row::FileRow;
use d64_files::SlotNo;
use d64_survey::Inspection;
use std::marker::Model;

/// A row, and the place of the slot after its own.
#[derive(Drop)]
struct Found {
    row: FileRow,
    next: usize,
}

/// The rows of a dump that are left of a walk along its slots: one for each used slot, in order. It
/// allocates nothing.
#[derive(Drop)]
pub struct Rows<'a> {
    inventory: Inventory<'a>,
    /// The place of the next slot, from 0.
    place: usize,
}

impl<'a> Model for Rows<'a> {
    ghost use Rattle.std.specs.Prelude.{List};
    ghost use Rattle.d64_inventory.specs.Rows.{FileRowView, rows_from};

    ghost Value = { List FileRowView };

    ghost view = { λ walk. rows_from walk.inventory walk.place };
}

/// The first row from a place on, or None if no slot is used from there on.
fn first_from(inventory: &mut Inventory, place: usize) -> Option<Found>
    ensures found { MatchOption result (rows_from inventory.old place ≡ []) (λ found. rows_from inventory.old place ≡ found.row ∷ rows_from inventory.old found.next) }
    ensures same { inventory.new ≡ inventory.old }
{
    for at in place..inventory.slot_count() {
        match inventory.row(SlotNo::at(at)) {
            Some(row) => return Some(Found { row, next: at + 1 }),
            None => {}
        }
    }
    None
}

impl<'a> Rows<'a> {
    /// The rows of a dump that was inspected.
    pub fn of(inspection: &'a Inspection<'a>) -> Rows<'a>
        ensures { result ≡ rows inspection.now }
    {
        Rows {
            inventory: Inventory::of(inspection),
            place: 0,
        }
    }
}

impl<'a> Iterator for Rows<'a> {
    type Item = FileRow;

    ghost next_gives = { YieldsFirst (λ left. left) };

    ghost remaining = { item_count (λ left. left) };

    fn next(&mut self) -> Option<FileRow> {
        match first_from(&mut self.inventory, self.place) {
            Some(found) => {
                self.place = found.next;
                Some(found.row)
            }
            None => None,
        }
    }
}
