//! The rows of a dump that are wanted, one at a time.
ghost use Rattle.std.specs.Prelude.{◌≡◌, ◌∷◌, ◌++◌, [], MatchOption};
ghost use Rattle.std.specs.Iterator.{YieldsFirst, item_count};
ghost use Rattle.d64_leftovers.specs.Rows.{wanted_rows};
ghost use Rattle.d64_leftovers.specs.Sources.{wanted_rows_from, orphans_from};

use crate::row::ListedRow;
use crate::selection::Selection;
use crate::source::Source;
use d64_files::SlotNo;
use d64_survey::Inspection;
use std::marker::Model;

/// A row, and the place after its own.
#[derive(Drop)]
struct Found {
    row: ListedRow,
    next: usize,
}

/// A row, and what is left after it: the places of the next slot and of the next block.
#[derive(Drop)]
struct Step {
    row: ListedRow,
    slot: usize,
    left: usize,
}

/// The rows of a dump that are left of a walk along its slots, in the order of the slots, and then
/// along the blocks that are left over. It takes no memory.
#[derive(Drop)]
pub struct RowList<'a> {
    source: Source<'a>,
    /// The place of the next slot, from 0.
    slot: usize,
    /// The place of the next block among those that are left over, from 0.
    left: usize,
}

impl<'a> Model for RowList<'a> {
    ghost use Rattle.std.specs.Prelude.{◌++◌, List};
    ghost use Rattle.d64_leftovers.specs.Sources.{wanted_rows_from, orphans_from};
    ghost use Rattle.d64_leftovers.specs.declared.row.ListedRow.{ListedRow};

    ghost Value = { List ListedRow };

    ghost view = { λ list. wanted_rows_from list.source list.slot ++ orphans_from list.source list.left };
}

/// The first row of a slot from a place on, or None if no slot from there on has one.
fn first_from(source: &mut Source, place: usize) -> Option<Found>
    ensures found { MatchOption result (wanted_rows_from source.old place ≡ []) (λ found. wanted_rows_from source.old place ≡ found.row ∷ wanted_rows_from source.old found.next) }
    ensures same { source.new ≡ source.old }
{
    for at in place..source.slot_count() {
        match source.row(SlotNo::at(at)) {
            Some(row) => return Some(Found { row, next: at + 1 }),
            None => {}
        }
    }
    None
}

/// The first row of an orphan whose head is a block from a place on, or None if there is none.
fn orphan_from(source: &mut Source, place: usize) -> Option<Found>
    ensures found { MatchOption result (orphans_from source.old place ≡ []) (λ found. orphans_from source.old place ≡ found.row ∷ orphans_from source.old found.next) }
    ensures same { source.new ≡ source.old }
{
    for at in place..source.left_count() {
        match source.orphan(at) {
            Some(row) => return Some(Found { row, next: at + 1 }),
            None => {}
        }
    }
    None
}

/// Returns the first row of an orphan that is left, with the place after the last slot, or None if
/// no orphan is left.
fn orphan_step(source: &mut Source, left: usize) -> Option<Step>
    ensures found { MatchOption result (orphans_from source.old left ≡ []) (λ step. orphans_from source.old left ≡ step.row ∷ (wanted_rows_from source.old step.slot ++ orphans_from source.old step.left)) }
    ensures same { source.new ≡ source.old }
{
    let slot = source.slot_count();
    match orphan_from(source, left) {
        Some(found) => Some(Step {
            row: found.row,
            slot,
            left: found.next,
        }),
        None => None,
    }
}

/// The first row of those that are left.
fn first_step(source: &mut Source, slot: usize, left: usize) -> Option<Step>
    ensures found { MatchOption result (wanted_rows_from source.old slot ++ orphans_from source.old left ≡ []) (λ step. wanted_rows_from source.old slot ++ orphans_from source.old left ≡ step.row ∷ (wanted_rows_from source.old step.slot ++ orphans_from source.old step.left)) }
    ensures same { source.new ≡ source.old }
{
    match first_from(source, slot) {
        Some(found) => Some(Step {
            row: found.row,
            slot: found.next,
            left,
        }),
        None => orphan_step(source, left),
    }
}

impl<'a> RowList<'a> {
    /// Returns the wanted rows of a dump that was inspected.
    pub fn of(inspection: &'a Inspection<'a>, wanted: Selection) -> RowList<'a>
        ensures { result ≡ wanted_rows wanted inspection.now }
    {
        RowList {
            source: Source::of(inspection, wanted),
            slot: 0,
            left: 0,
        }
    }
}

impl<'a> Iterator for RowList<'a> {
    type Item = ListedRow;

    ghost next_gives = { YieldsFirst (λ left. left) };

    ghost remaining = { item_count (λ left. left) };

    fn next(&mut self) -> Option<ListedRow> {
        match first_step(&mut self.source, self.slot, self.left) {
            Some(step) => {
                self.slot = step.slot;
                self.left = step.left;
                Some(step.row)
            }
            None => None,
        }
    }
}
