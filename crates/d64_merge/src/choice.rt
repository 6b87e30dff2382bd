//! What a merge makes of each block.
ghost use Rattle.std.specs.Prelude.{◌≡◌, position, option_map};
ghost use Rattle.d64_merge.specs.Copies.{has_block, has_bad_checksum, wins};
ghost use Rattle.d64_merge.specs.Choices.{source, has_codes, code_source, code_in, merged_code, choice};

use crate::copy::{has_bad_checksum, has_block, wins};
use crate::outcome::{BlockOutcome, Preference, dump_at, first_good, outcome_of};
use d64_image::BlockNo;
use d64_survey::{Dump, code_of};

/// What a merge makes of a block.
#[derive(Clone, Copy, PartialEq, Eq)]
pub struct Choice {
    /// The block.
    pub block: BlockNo,
    /// What becomes of it.
    pub outcome: BlockOutcome,
    /// The place, from 0, of the dump whose bytes are taken, or None in a conflict.
    pub source: Option<usize>,
    /// The read code that it gets; 0, not known, if the copy that is taken has no code.
    pub code: u8,
}

/// Returns the place of the first dump whose copy of a block is equal to more than half of the good
/// copies.
fn first_winner(dumps: &[Dump], block: BlockNo) -> Option<usize>
    ensures { result ≡ position (wins block dumps.now) dumps.now }
{
    dumps.iter().position(|dump| wins(dumps, dump, block))
}

/// Returns the place of the first dump that had a bad checksum at a block.
fn first_bad_checksum(dumps: &[Dump], block: BlockNo) -> Option<usize>
    ensures { result ≡ position (has_bad_checksum block) dumps.now }
{
    dumps.iter().position(|dump| has_bad_checksum(dump, block))
}

/// Returns the place of the first dump that has a block.
fn first_there(dumps: &[Dump], block: BlockNo) -> Option<usize>
    ensures { result ≡ position (has_block block) dumps.now }
{
    dumps.iter().position(|dump| has_block(dump, block))
}

/// Whether a dump has read codes.
pub(crate) fn has_codes(dump: &Dump) -> bool
    ensures { result ≡ has_codes dump.now }
{
    dump.codes().is_some()
}

/// Returns the place of the first dump that has read codes.
fn first_with_codes(dumps: &[Dump]) -> Option<usize>
    ensures { result ≡ position has_codes dumps.now }
{
    dumps.iter().position(|dump| has_codes(dump))
}

/// Returns the place of the dump whose copy of a block is taken, or None in a conflict.
#[tactic(auto, unfolding(crate::specs::Choices::source))]
fn source_of(outcome: BlockOutcome, dumps: &[Dump], block: BlockNo) -> Option<usize>
    ensures { result ≡ source outcome block dumps.now }
{
    match outcome {
        BlockOutcome::Same | BlockOutcome::Taken | BlockOutcome::First => first_good(dumps, block),
        BlockOutcome::Majority => first_winner(dumps, block),
        BlockOutcome::Lost => match first_bad_checksum(dumps, block) {
            Some(place) => Some(place),
            None => first_there(dumps, block),
        },
        BlockOutcome::Conflict => None,
    }
}

/// Returns the place of the dump whose read code a block gets.
#[tactic(auto, unfolding(crate::specs::Choices::code_source))]
fn code_source(outcome: BlockOutcome, dumps: &[Dump], block: BlockNo) -> Option<usize>
    ensures { result ≡ code_source outcome block dumps.now }
{
    match outcome {
        BlockOutcome::Same => first_with_codes(dumps),
        BlockOutcome::Taken
        | BlockOutcome::Lost
        | BlockOutcome::Majority
        | BlockOutcome::First
        | BlockOutcome::Conflict => source_of(outcome, dumps, block),
    }
}

/// Returns the read code of a block in a dump, or 0 if there is no dump.
fn code_in(dump: Option<&Dump>, block: BlockNo) -> u8
    ensures { result ≡ code_in block (option_map (λ dump. dump.now) dump.entry) }
{
    match dump {
        Some(dump) => code_of(dump.codes(), block),
        None => 0,
    }
}

/// Returns the read code that a block gets.
fn merged_code(outcome: BlockOutcome, dumps: &[Dump], block: BlockNo) -> u8
    ensures { result ≡ merged_code outcome block dumps.now }
{
    code_in(dump_at(dumps, code_source(outcome, dumps, block)), block)
}

/// Returns what a merge makes of a block.
#[tactic(auto, unfolding(crate::specs::Choices::choice))]
pub fn choose(preference: Preference, dumps: &[Dump], block: BlockNo) -> Choice
    ensures { result ≡ choice preference dumps.now block }
{
    let outcome = outcome_of(preference, dumps, block);
    Choice {
        block,
        outcome,
        source: source_of(outcome, dumps, block),
        code: merged_code(outcome, dumps, block),
    }
}
