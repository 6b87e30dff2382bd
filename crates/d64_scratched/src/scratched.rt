//! The scratched slots of an image, and why the file of one isn't whole.
ghost use Rattle.std.specs.Prelude.{◌≡◌, ◌<◌, ◌≤◌, ◌+◌, ◌*◌, ◌++◌, length, option_map};
ghost use Rattle.std.specs.List.{list_any};
ghost use Rattle.d64_image.specs.declared.block.TheConstants.{BLOCKS};
ghost use Rattle.d64_survey.specs.Owners.{is_owned, is_unowned};
ghost use Rattle.d64_scratched.specs.Scratched.{is_scratched, is_claimed_below, is_scratched_missized, where_lost, losses_by, losses};

use crate::loss::Loss;
use crate::lowest::LowestSlots;
use arrayvec::ArrayVec;
use d64_files::{BlockList, Entry, MOST_SLOTS};
use d64_image::{BlockNo, BlockSet};
use d64_map::free_set;
use d64_survey::{Survey, WayEnd, any_unreadable, walk};
use std::marker::Model;

/// How many reasons there are.
pub const LOSSES: usize = 6;

/// Whether a slot is scratched: its type byte is 0, and the track of its first block isn't.
pub fn is_scratched(entry: &Entry) -> bool
    ensures { result ≡ is_scratched entry.now.bytes }
{
    let (track, _sector) = entry.first_pair();
    !entry.used() && track != 0
}

/// What is needed of an image to find why the file of a scratched slot isn't whole. It allocates
/// nothing.
///
/// In clauses it is the image itself.
#[derive(Drop)]
pub struct ScratchedSlots<'s, 'a> {
    survey: &'s Survey<'a>,
    free: BlockSet,
    lowest: LowestSlots,
}

impl<'s, 'a> Model for ScratchedSlots<'s, 'a> {
    ghost use Rattle.std.specs.Prelude.{◌≡◌, ◌≤◌, ◌*◌, ℕ, List, length};
    ghost use Rattle.d64_image.specs.declared.block.TheConstants.{BLOCKS};
    ghost use Rattle.d64_map.specs.Map.{free_blocks};
    ghost use Rattle.d64_survey.specs.Owners.{way_slots};
    ghost use Rattle.d64_scratched.specs.Claims.{RecordsClaims};

    ghost Value = { List (List ℕ) };

    ghost view = { λ slots. slots.survey.now };

    ghost invariant = { λ slots. (slots.free ≡ free_blocks slots.survey.now)
        × RecordsClaims slots.survey.now slots.lowest
        × (length (way_slots slots.survey.now) ≤ 8 * BLOCKS) };
}

/// Appends a reason if it applies.
fn loss_if(list: &mut ArrayVec<Loss, LOSSES>, loss: Loss, holds: bool)
    requires { length list.old.items < 6 }
    ensures list { list.new.items ≡ list.old.items ++ where_lost holds loss }
    ensures few { length list.new.items ≤ length list.old.items + 1 }
{
    if holds {
        list.push(loss);
    }
}

/// Whether a way is a whole chain, but not as long as the size in the slot.
fn is_missized(entry: &Entry, end: WayEnd, way: &[BlockNo]) -> bool
    ensures { result ≡ is_scratched_missized entry.now.bytes (way.now, end) }
{
    end.is_whole() && way.len() != usize::from(entry.blocks())
}

impl<'s, 'a> ScratchedSlots<'s, 'a> {
    /// Collects what is needed of the image of a survey. It walks the way of each scratched slot
    /// once.
    pub fn of(survey: &'s Survey<'a>) -> ScratchedSlots<'s, 'a>
        ensures { result ≡ survey.now }
    {
        ScratchedSlots {
            survey,
            free: free_set(survey.image()),
            lowest: LowestSlots::of(survey),
        }
    }

    /// Why the file of a scratched slot of the image isn't whole, in order, by the dump's read
    /// codes, if it has any. It walks the way once more.
    pub fn losses(&self, codes: Option<&[u8]>, entry: &Entry) -> ArrayVec<Loss, LOSSES>
        ensures { result.items ≡ losses self.now (option_map (λ codes. codes.now) codes.entry) entry.now.slot entry.now.bytes }
    {
        let mut way = BlockList::empty();
        let (track, sector) = entry.first_pair();
        let end = walk(self.survey.image(), track, sector, &mut way);
        self.losses_along(codes, entry, end, way.as_slice())
    }

    /// The same, by the way of the slot.
    fn losses_along(
        &self,
        codes: Option<&[u8]>,
        entry: &Entry,
        end: WayEnd,
        way: &[BlockNo],
    ) -> ArrayVec<Loss, LOSSES>
        ensures { result.items ≡ losses_by self.now (option_map (λ codes. codes.now) codes.entry) entry.now.slot entry.now.bytes (way.now, end) }
    {
        let is_reused = self.any_reused(way);
        let is_marked = self.any_marked(way);
        let is_missized = is_missized(entry, end, way);
        let is_claimed = self.any_claimed(way, entry.slot().place());
        let is_unreadable = any_unreadable(codes, way);
        let mut losses = ArrayVec::new();
        loss_if(&mut losses, Loss::Chain, !end.is_whole());
        loss_if(&mut losses, Loss::Reused, is_reused);
        loss_if(&mut losses, Loss::Marked, is_marked);
        loss_if(&mut losses, Loss::Size, is_missized);
        loss_if(&mut losses, Loss::Claimed, is_claimed);
        loss_if(&mut losses, Loss::Unreadable, is_unreadable);
        losses
    }

    /// Whether one of the blocks has an owner.
    fn any_reused(&self, blocks: &[BlockNo]) -> bool
        ensures { result ≡ list_any (is_owned self.now) blocks.now }
    {
        blocks.iter().any(|block| self.survey.is_owned(*block))
    }

    /// Whether a block has no owner, and isn't marked free.
    fn is_marked(&self, block: BlockNo) -> bool
        ensures { result ≡ is_unowned self.now block }
    {
        !self.survey.is_owned(block) && !self.free.has(block)
    }

    /// Whether one of the blocks has no owner, and isn't marked free.
    fn any_marked(&self, blocks: &[BlockNo]) -> bool
        ensures { result ≡ list_any (is_unowned self.now) blocks.now }
    {
        blocks.iter().any(|block| self.is_marked(*block))
    }

    /// Whether a block is in the way of a scratched slot with a lower number.
    fn is_claimed(&self, block: BlockNo, slot: usize) -> bool
        ensures { result ≡ is_claimed_below self.now slot block }
    {
        if slot < MOST_SLOTS {
            self.lowest.is_below(block, slot)
        } else {
            self.lowest.is_below(block, MOST_SLOTS)
        }
    }

    /// Whether one of the blocks is in the way of a scratched slot with a lower number.
    fn any_claimed(&self, blocks: &[BlockNo], slot: usize) -> bool
        ensures { result ≡ list_any (is_claimed_below self.now slot) blocks.now }
    {
        blocks.iter().any(|block| self.is_claimed(*block, slot))
    }
}
