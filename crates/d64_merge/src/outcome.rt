//! What becomes of a block.
ghost use Rattle.std.specs.Prelude.{◌≡◌, option_map};
ghost use Rattle.std.specs.List.{list_any};
ghost use Rattle.d64_merge.specs.Copies.{wins};
ghost use Rattle.d64_merge.specs.Choices.{dump_at, first_good, are_equal, outcome_apart, outcome};

use crate::copy::{good_count, is_good, votes, wins};
use d64_image::BlockNo;
use d64_survey::Dump;

/// What is to be done with a block whose good copies differ.
#[derive(Clone, Copy, PartialEq, Eq)]
pub struct Preference {
    /// Whether a copy is taken that is equal to more than half of the good ones.
    pub majority: bool,
    /// Whether otherwise the first good copy is taken.
    pub first: bool,
}

/// What becomes of a block.
#[derive(Clone, Copy, PartialEq, Eq)]
pub enum BlockOutcome {
    /// Each dump has a good copy, and all are equal.
    Same,
    /// Some dumps have a good copy, and these are equal.
    Taken,
    /// No copy is good.
    Lost,
    /// Good copies differ, and more than half of them are equal.
    Majority,
    /// Good copies differ, and the first one is taken.
    First,
    /// Good copies differ, and no copy is taken.
    Conflict,
}

/// Returns the dump at a place, or None if there is no place.
pub fn dump_at(dumps: &[Dump], place: Option<usize>) -> Option<&Dump>
    ensures { option_map (λ dump. dump.now) result ≡ dump_at dumps.now place }
{
    match place {
        Some(place) => dumps.get(place),
        None => None,
    }
}

/// Returns the place of the first dump that has a good copy of a block.
pub(crate) fn first_good(dumps: &[Dump], block: BlockNo) -> Option<usize>
    ensures { result ≡ first_good block dumps.now }
{
    dumps.iter().position(|dump| is_good(dump, block))
}

/// Whether all good copies of a block are equal.
fn are_equal(dumps: &[Dump], block: BlockNo) -> bool
    ensures { result ≡ are_equal block dumps.now }
{
    match dump_at(dumps, first_good(dumps, block)) {
        Some(first) => votes(dumps, first, block) == good_count(dumps, block),
        None => true,
    }
}

/// Whether more than half of the good copies of a block are equal.
fn has_majority(dumps: &[Dump], block: BlockNo) -> bool
    ensures { result ≡ list_any (wins block dumps.now) dumps.now }
{
    dumps.iter().any(|dump| wins(dumps, dump, block))
}

/// Returns what becomes of a block whose good copies differ.
fn outcome_apart(preference: Preference, dumps: &[Dump], block: BlockNo) -> BlockOutcome
    ensures { result ≡ outcome_apart preference block dumps.now }
{
    if preference.majority && has_majority(dumps, block) {
        BlockOutcome::Majority
    } else if preference.first {
        BlockOutcome::First
    } else {
        BlockOutcome::Conflict
    }
}

/// Returns what becomes of a block.
#[tactic(auto, unfolding(crate::specs::Choices::outcome))]
pub(crate) fn outcome_of(preference: Preference, dumps: &[Dump], block: BlockNo) -> BlockOutcome
    ensures { result ≡ outcome preference block dumps.now }
{
    let good = good_count(dumps, block);
    if good == 0 {
        BlockOutcome::Lost
    } else if !are_equal(dumps, block) {
        outcome_apart(preference, dumps, block)
    } else if good == dumps.len() {
        BlockOutcome::Same
    } else {
        BlockOutcome::Taken
    }
}
