//! The blocks in which two dumps differ.
ghost use Rattle.std.specs.Prelude.{◌≡◌, ◌++◌, ◌∷◌, [], if◌then◌else◌, length, min, option_map, OnOk};
ghost use Rattle.d64_image.specs.Image.{differences};
ghost use Rattle.cmd_diff.specs.Changes.{differing_blocks, has_other_code, other_codes, changed_codes};

use d64_image::{BlockNo, Image};
use d64_survey::{Inspection, code_of, is_read_error};
use std::alloc::AllocError;

/// Appends a block to a list if it is to be kept.
fn keep_if(blocks: &mut Vec<BlockNo>, block: BlockNo, is_kept: bool) -> Result<(), AllocError>
    ensures { OnOk result (blocks.new.items ≡ blocks.old.items ++ (if is_kept then block ∷ [] else [])) }
{
    if !is_kept {
        return Ok(());
    }
    blocks.push(block)?;
    Ok(())
}

/// Replaces a list by the blocks of an image whose bytes another one does not have, ascending.
fn list_differences(
    image: &Image,
    other: &Image,
    blocks: &mut Vec<BlockNo>,
) -> Result<(), AllocError>
    ensures { OnOk result (blocks.new.items ≡ differences image.now other.now) }
{
    blocks.clear();
    for block in image.blocks() {
        let differs = !other.has_bytes(block, image.sector(block));
        keep_if(blocks, block, differs)?;
    }
    Ok(())
}

/// Replaces a list by the blocks whose bytes differ, and those that only the larger one of two
/// images has, ascending.
pub fn list_changed_blocks(
    old: &Image,
    new: &Image,
    blocks: &mut Vec<BlockNo>,
) -> Result<(), AllocError>
    ensures { OnOk result (blocks.new.items ≡ differing_blocks old.now new.now) }
{
    if old.tracks() < new.tracks() {
        list_differences(new, old, blocks)
    } else {
        list_differences(old, new, blocks)
    }
}

/// Returns the image with fewer blocks.
fn smaller_of<'a>(old: &'a Image, new: &'a Image) -> &'a Image
    ensures { length result.now ≡ min (length old.now) (length new.now) }
{
    if old.tracks() < new.tracks() {
        old
    } else {
        new
    }
}

/// Whether a block's read codes differ, and are not both good.
fn has_other_code(old: Option<&[u8]>, new: Option<&[u8]>, block: BlockNo) -> bool
    ensures { result ≡ has_other_code (option_map (λ codes. codes.now) old.entry) (option_map (λ codes. codes.now) new.entry) block }
{
    let old_code = code_of(old, block);
    let new_code = code_of(new, block);
    old_code != new_code && (is_read_error(old_code) || is_read_error(new_code))
}

/// Appends the blocks that both dumps have whose read codes differ and are not both good,
/// ascending, to a list.
#[tactic(auto, unfolding(crate::specs::Changes::other_codes))]
fn list_other_codes(
    old: &Inspection,
    new: &Inspection,
    blocks: &mut Vec<BlockNo>,
) -> Result<(), AllocError>
    ensures { OnOk result (blocks.new.items ≡ blocks.old.items ++ other_codes old.now new.now) }
{
    let smaller = smaller_of(old.image(), new.image());
    for block in smaller.blocks() {
        let differs = has_other_code(old.codes(), new.codes(), block);
        keep_if(blocks, block, differs)?;
    }
    Ok(())
}

/// Replaces a list by the blocks that both dumps have whose read codes differ and are not both
/// good, ascending. There are none if one of the dumps has no codes.
#[tactic(auto, unfolding(crate::specs::Changes::changed_codes))]
pub fn list_changed_codes(
    old: &Inspection,
    new: &Inspection,
    blocks: &mut Vec<BlockNo>,
) -> Result<(), AllocError>
    ensures { OnOk result (blocks.new.items ≡ changed_codes old.now new.now) }
{
    blocks.clear();
    match (old.codes(), new.codes()) {
        (Some(_), Some(_)) => list_other_codes(old, new, blocks),
        (None, _) | (_, None) => Ok(()),
    }
}
