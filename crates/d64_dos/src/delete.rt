//! Deleting files: their slots become unused, and their blocks free.
ghost use Rattle.std.specs.Prelude.{◌≡◌, ◌<◌, true, ℕ, List, length, All, IfOk, OnOk};
ghost use Rattle.std.specs.List.{list_any, flat_map};
ghost use Rattle.std.specs.FinSet as set;
ghost use Rattle.d64_image.specs.Patch.{StillRestores};
ghost use Rattle.d64_map.specs.Map.{free_blocks};
ghost use Rattle.d64_files.specs.Directory.{slots, slot_owns, AllHold};
ghost use Rattle.d64_files.specs.Pattern.{matches as is_match};
ghost use Rattle.d64_effects.specs.Clear.{with_cleared, with_freed};
ghost use Rattle.d64_effects.specs.View.{IsSound};
ghost use Rattle.d64_effects.specs.Delete.{is_scratched_slot, scratched_slots, scratched_count, scratched_disk};
ghost use Rattle.d64_dos.specs.FileRefusals.{unsound_refusal};
ghost use Rattle.d64_dos.specs.Refusal.{refused_by};

use crate::refusal::Refusal;
use crate::sound_disk::sound_directory;
use arrayvec::ArrayVec;
use d64_effects::laws::clearing_keeps_the_directory;
use d64_files::{Directory, Entry, MOST_SLOTS, Pattern, SlotNo, clear_slot, matches, slot_blocks};
use d64_image::{BlockNo, BlockSet, Image, Patch};
use d64_map::{free_set, put_map};
use std::alloc::AllocError;

/// The files that patterns delete.
#[derive(Drop)]
struct Scratched {
    /// The places of their slots, in the directory's order.
    places: ArrayVec<usize, MOST_SLOTS>,
    /// The blocks that are free without them.
    free: BlockSet,
}

/// Whether one of the patterns matches a name.
fn is_named_by(patterns: &[Pattern], name: &[u8]) -> bool
    ensures { result ≡ list_any (λ (pattern : List ℕ). is_match pattern name.now) patterns.now }
{
    patterns.iter().any(|pattern| matches(pattern, name))
}

/// Whether patterns delete the file of an entry: it is closed and not locked, and at least one of
/// them matches its name.
fn is_scratched(patterns: &[Pattern], entry: &Entry) -> bool
    ensures { result ≡ is_scratched_slot patterns.now entry.now.bytes }
{
    entry.used() && entry.closed() && !entry.locked() && is_named_by(patterns, entry.name())
}

/// Adds the members of another set to the free blocks.
fn free_all(free: &mut BlockSet, given: &BlockSet)
    ensures { (blocks : List ℕ) → given.now ≡ set.from_list blocks → free.new ≡ with_freed free.old blocks }
{
    given.known_members();
    for block in BlockNo::all() {
        if given.has(block) {
            free.add(block);
        }
    }
}

/// Finds the files that patterns delete.
///
/// The disk must be sound.
fn find_scratched(directory: &Directory, patterns: &[Pattern]) -> Scratched
    requires { AllHold directory.now 1 6 }
    ensures places { result.places.items ≡ scratched_slots directory.now patterns.now }
    ensures free { result.free ≡ with_freed (free_blocks directory.now) (flat_map (slot_owns directory.now) (scratched_slots directory.now patterns.now)) }
{
    let image = directory.image();
    let mut places = ArrayVec::new();
    let mut free = free_set(image);
    for entry in directory.slots() {
        if is_scratched(patterns, &entry) {
            places.push(entry.slot().place());
            free_all(&mut free, &slot_blocks(image, entry.slot()));
        }
    }
    Scratched { places, free }
}

/// Makes the slots at these places unused.
///
/// An error comes if there is no memory to keep the bytes of a block. The directory must have these
/// slots.
pub(crate) fn clear_slots(
    image: &mut Image,
    patch: &mut Patch,
    places: &[usize],
) -> Result<(), AllocError>
    requires { All (λ place. place < length (slots image.old)) places.now }
    ensures cleared { OnOk result (image.new ≡ with_cleared image.old places.now) }
    ensures back { StillRestores image.old patch.old image.new patch.new }
{
    clearing_keeps_the_directory();
    image.known_image();
    for place in places {
        clear_slot(image, patch, SlotNo::at(*place))?;
    }
    Ok(())
}

/// Deletes the files that are closed and not locked and whose names at least one of the patterns
/// matches, and returns how many: their slots become unused, and the blocks of their chains and
/// side chains free. If there is no such file, nothing is written. Only the patch allocates.
///
/// The error is `Directory` with the first condition of a sound image that fails, and otherwise
/// `Memory` if there is no memory to keep the bytes of a block. After an error some blocks may be
/// written; putting the patch back gives the image from before in any case. `is_sound` may be true
/// only if the disk is sound. It is a function of its own, so that the list of the slots' places is
/// not in the frames of its callers.
#[inline(never)]
pub(crate) fn scratch(
    image: &mut Image,
    patch: &mut Patch,
    patterns: &[Pattern],
    is_sound: bool,
) -> Result<usize, Refusal>
    requires { is_sound ≡ true → IsSound image.old }
    ensures refused { refused_by result ≡ unsound_refusal image.old }
    ensures count { IfOk result (λ count. count ≡ scratched_count image.old patterns.now) }
    ensures image { OnOk result (image.new ≡ scratched_disk image.old patterns.now) }
    ensures back { StillRestores image.old patch.old image.new patch.new }
{
    clearing_keeps_the_directory();
    image.known_image();
    let directory = sound_directory(image, is_sound)?;
    let found = find_scratched(&directory, patterns);
    if found.places.is_empty() {
        return Ok(0);
    }
    clear_slots(image, patch, found.places.as_slice())?;
    put_map(image, patch, &found.free)?;
    Ok(found.places.len())
}
