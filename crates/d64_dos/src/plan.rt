//! The blocks that a new file takes.
ghost use Rattle.std.specs.Prelude.{◌≡◌, ◌≤◌, find, option_map, OnSome};
ghost use Rattle.std.specs.FinSet as set;
ghost use Rattle.d64_image.specs.declared.block.TheConstants.{BLOCKS};
ghost use Rattle.d64_map.specs.Plan.{plan};
ghost use Rattle.d64_effects.specs.Write.{blocks_without};
ghost use Rattle.d64_dos.specs.Planning.{order_after};

use arrayvec::ArrayVec;
use d64_image::{BLOCKS, BlockNo, BlockSet};
use d64_map::{pick_first, pick_next};

/// The free block that a file takes after the one that it took last, or as its first one; None if
/// no block outside track 18 is free.
fn pick_after(free: &BlockSet, last: Option<BlockNo>) -> Option<BlockNo>
    ensures { result ≡ find (set.contains free.now) (order_after last) }
{
    match last {
        Some(last) => pick_next(free, last),
        None => pick_first(free),
    }
}

/// Takes the blocks of a file of `count` blocks from the free ones, and replaces the list by them,
/// in the file's order. Returns None if too few blocks outside track 18 are free: then some of them
/// may be taken, and the list has any blocks.
pub(crate) fn take_plan(
    free: &mut BlockSet,
    count: usize,
    blocks: &mut ArrayVec<BlockNo, BLOCKS>,
) -> Option<()>
    requires { count ≤ BLOCKS }
    ensures plan { option_map (λ _. blocks.new.items) result ≡ plan free.old count }
    ensures left { OnSome result (free.new ≡ blocks_without free.old blocks.new.items) }
{
    blocks.clear();
    let mut last = None;
    for _ in 0..count {
        let next = pick_after(free, last)?;
        free.remove(next);
        blocks.push(next);
        last = Some(next);
    }
    Some(())
}
