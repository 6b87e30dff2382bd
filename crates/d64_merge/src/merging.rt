//! The dump that a merge makes.
ghost use Rattle.std.specs.Prelude.{◌≡◌, ◌≤◌, ◌++◌, length, option_map, IfOk, OnOk};
ghost use Rattle.std.specs.List.{list_any};
ghost use Rattle.d64_image.specs.Image.{bytes_of, sector_at};
ghost use Rattle.d64_survey.specs.Dump.{dump_bytes};
ghost use Rattle.d64_merge.specs.Choices.{has_codes};
ghost use Rattle.d64_merge.specs.Merged.{has_40_tracks, merged_tracks, merged_block_count, choices, is_outcome, outcome_count, taken_bytes, merged_image, merged_codes, keeps_codes, dump_by, dump_of_choices};

use crate::choice::{Choice, choose, has_codes};
use crate::outcome::{BlockOutcome, Preference, dump_at};
use d64_image::{BLOCKS, BLOCKS_OF_35, BlockNo, Image};
use d64_survey::Dump;
use std::alloc::{AllocError, Global};

/// Whether a dump has 40 tracks.
fn has_40_tracks(dump: &Dump) -> bool
    ensures { result ≡ has_40_tracks dump.now }
{
    dump.image().tracks() == 40
}

/// Whether one of the dumps has 40 tracks.
fn any_has_40_tracks(dumps: &[Dump]) -> bool
    ensures { result ≡ list_any has_40_tracks dumps.now }
{
    dumps.iter().any(|dump| has_40_tracks(dump))
}

/// Returns how many tracks the merged dump has: 40 if one of the dumps has 40, else 35.
pub fn merged_tracks(dumps: &[Dump]) -> u8
    ensures { result ≡ merged_tracks dumps.now }
{
    if any_has_40_tracks(dumps) { 40 } else { 35 }
}

/// Returns how many blocks the merged dump has.
fn block_count(dumps: &[Dump]) -> usize
    ensures { result ≡ merged_block_count dumps.now }
{
    if merged_tracks(dumps) == 40 {
        BLOCKS
    } else {
        BLOCKS_OF_35
    }
}

/// Lists what becomes of each block of the merged dump, in their order.
#[tactic(auto, unfolding(crate::specs::Merged::choices))]
pub fn choices(
    alloc: Global,
    preference: Preference,
    dumps: &[Dump],
) -> Result<Vec<Choice>, AllocError>
    ensures { IfOk result (λ list. list.items ≡ choices preference dumps.now) }
{
    let mut list = Vec::new(alloc);
    for index in 0..block_count(dumps) {
        match BlockNo::at(index) {
            Some(block) => list.push(choose(preference, dumps, block))?,
            None => {}
        }
    }
    Ok(list)
}

/// Whether two outcomes are the same.
pub fn is_outcome(one: BlockOutcome, other: BlockOutcome) -> bool
    ensures { result ≡ is_outcome one other }
{
    one == other
}

/// Returns how many blocks have this outcome.
pub fn count_of(outcome: BlockOutcome, list: &[Choice]) -> usize
    ensures count { result ≡ outcome_count outcome list.now }
    ensures few { result ≤ length list.now }
{
    list.iter()
        .filter(|choice| is_outcome(outcome, choice.outcome))
        .count()
}

/// Returns the bytes of a block of an image, or no bytes if the image doesn't have it.
fn sector_in(image: &Image, block: BlockNo) -> &[u8]
    ensures { result.now ≡ sector_at image.now block }
{
    if image.holds(block) {
        image.sector(block)
    } else {
        &[]
    }
}

/// Returns the bytes of the copy that is taken of a block, or no bytes if no copy is taken.
fn taken_bytes<'d>(dumps: &'d [Dump], choice: &Choice) -> &'d [u8]
    ensures { result.now ≡ taken_bytes dumps.now choice.now }
{
    match dump_at(dumps, choice.source) {
        Some(dump) => sector_in(dump.image(), choice.block),
        None => &[],
    }
}

/// Appends the bytes of the blocks.
fn push_blocks(bytes: &mut Vec<u8>, dumps: &[Dump], list: &[Choice]) -> Result<(), AllocError>
    ensures { OnOk result (bytes.new.items ≡ bytes.old.items ++ bytes_of (merged_image dumps.now list.now)) }
{
    for choice in list {
        bytes.extend_from_slice(taken_bytes(dumps, choice))?;
    }
    Ok(())
}

/// Appends the read codes of the blocks.
fn push_codes(bytes: &mut Vec<u8>, list: &[Choice]) -> Result<(), AllocError>
    ensures { OnOk result (bytes.new.items ≡ bytes.old.items ++ merged_codes list.now) }
{
    for choice in list {
        bytes.push(choice.code)?;
    }
    Ok(())
}

/// Whether one of the dumps has read codes.
fn any_has_codes(dumps: &[Dump]) -> bool
    ensures { result ≡ list_any has_codes dumps.now }
{
    dumps.iter().any(|dump| has_codes(dump))
}

/// Whether the merged dump has read codes: if one of the dumps has them, unless `plain` is true.
pub fn keeps_codes(plain: bool, dumps: &[Dump]) -> bool
    ensures { result ≡ keeps_codes plain dumps.now }
{
    !plain && any_has_codes(dumps)
}

/// Appends the bytes of the dump that choices make.
#[tactic(auto, unfolding(crate::specs::Merged::dump_by))]
fn push_dump(
    bytes: &mut Vec<u8>,
    with_codes: bool,
    dumps: &[Dump],
    list: &[Choice],
) -> Result<(), AllocError>
    ensures { OnOk result (bytes.new.items ≡ bytes.old.items ++ dump_bytes (dump_by with_codes dumps.now list.now)) }
{
    push_blocks(bytes, dumps, list)?;
    if with_codes {
        return push_codes(bytes, list);
    }
    Ok(())
}

/// Returns the bytes of the dump that choices make, with read codes or without, or None if there is
/// a conflict.
#[tactic(auto, unfolding(crate::specs::Merged::dump_of_choices))]
pub fn merged_bytes(
    alloc: Global,
    with_codes: bool,
    dumps: &[Dump],
    list: &[Choice],
) -> Result<Option<Vec<u8>>, AllocError>
    ensures { IfOk result (λ bytes. option_map (λ bytes. bytes.items) bytes ≡ option_map dump_bytes (dump_of_choices with_codes dumps.now list.now)) }
{
    if count_of(BlockOutcome::Conflict, list) != 0 {
        return Ok(None);
    }
    let mut bytes = Vec::new(alloc);
    push_dump(&mut bytes, with_codes, dumps, list)?;
    Ok(Some(bytes))
}
