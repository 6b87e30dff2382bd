//! The conditions of a sound image that fail for a slot.
ghost use Rattle.std.specs.Prelude.{◌≡◌, ◌+◌, ◌<◌, ◌≤◌, ℕ, [], ◌∷◌, ◌++◌, Some, length, if◌then◌else◌};
ghost use Rattle.std.specs.List.{list_any};
ghost use Rattle.std.specs.FinSet as set;
ghost use Rattle.d64_map.specs.Map.{free_blocks};
ghost use Rattle.d64_survey.specs.SlotBlocks.{slot_blocks};
ghost use Rattle.d64_survey.specs.Flaws.{any_shared, is_broken};
ghost use Rattle.d64_survey.specs.Inspection.{slot_cell};
ghost use Rattle.d64_inventory.specs.Conditions.{conditions as conditions_of};
ghost use Rattle.d64_inventory.specs.Rows.{is_of_file};

use crate::file_blocks::FileBlocks;
use arrayvec::ArrayVec;
use d64_files::Entry;
use d64_survey::Survey;

/// How many conditions can fail for a slot: those with the numbers 3 to 6.
pub(crate) const SLOT_CONDITIONS: usize = 4;

/// Appends the number of a condition if that fails.
fn number_if(list: &mut ArrayVec<u8, SLOT_CONDITIONS>, number: u8, fails: bool)
    requires { length list.old.items < 4 }
    ensures list { list.new.items ≡ list.old.items ++ (if fails then number ∷ [] else []) }
    ensures few { length list.new.items ≤ length list.old.items + 1 }
{
    if fails {
        list.push(number);
    }
}

/// The numbers of the faults that name a slot, by the blocks of its file.
pub(crate) fn conditions(
    survey: &Survey,
    entry: &Entry,
    file: &FileBlocks,
) -> ArrayVec<u8, SLOT_CONDITIONS>
    requires slot { slot_cell survey.now entry.now.slot ≡ Some entry.now.bytes }
    requires blocks { (block : ℕ) → set.contains file.now.members block ≡ is_of_file survey.now entry.now.bytes block }
    requires broken { file.now.is_broken ≡ is_broken survey.now entry.now.bytes }
    requires shared { file.now.is_shared ≡ any_shared survey.now (slot_blocks survey.now entry.now.bytes) }
    requires free { file.now.is_marked_free ≡ list_any (set.contains (free_blocks survey.now)) (slot_blocks survey.now entry.now.bytes) }
    ensures { result.items ≡ conditions_of survey.now entry.now.slot }
{
    file.members.known_members();
    let mut list = ArrayVec::new();
    number_if(&mut list, 3, !entry.has_kind());
    number_if(&mut list, 4, file.is_broken);
    number_if(&mut list, 5, file.is_shared);
    number_if(&mut list, 6, file.is_marked_free);
    list
}
