//! How many slots two directories have.
ghost use Rattle.std.specs.Prelude.{◌≡◌, ◌≤◌, length};
ghost use Rattle.d64_survey.specs.Owners.{way_slots};
ghost use Rattle.cmd_diff.specs.Changes.{slot_count};

use d64_files::SLOTS_PER_BLOCK;
use d64_survey::{Inspection, Survey};

/// Returns how many slots the chain of the directory has.
fn slots_of(survey: &Survey) -> usize
    ensures { result ≡ length (way_slots survey.now) }
{
    SLOTS_PER_BLOCK * survey.directory().len()
}

/// Returns how many slots the longer one of two directories has.
pub(crate) fn slot_count(old: &Inspection, new: &Inspection) -> usize
    ensures { result ≡ slot_count old.now new.now }
{
    slots_of(old.survey()).max(slots_of(new.survey()))
}
