//! Brings back a deleted file: its slot is used again, and its blocks are no longer free.
ghost use Rattle.std.specs.Prelude.{◌≡◌, ◌<◌, true, length, find, is_some, option_map, OnOk, IfOk, IfSome};
ghost use Rattle.std.specs.List.{list_any};
ghost use Rattle.d64_image.specs.Patch.{StillRestores};
ghost use Rattle.d64_map.specs.Map.{free_blocks};
ghost use Rattle.d64_files.specs.Directory.{slots, entries, AllHold};
ghost use Rattle.d64_files.specs.Slot.{EntryView};
ghost use Rattle.d64_effects.specs.Undelete.{chain_left};
ghost use Rattle.d64_effects.specs.View.{IsSound};
ghost use Rattle.d64_effects.specs.Write.{blocks_without};
ghost use Rattle.d64_scratched.specs.Scratched.{scratched_way};
ghost use Rattle.d64_dos.specs.Refusal.{refused_by};
ghost use Rattle.d64_dos.specs.Restoring.{IsRestorable, entry_back, is_whole_by, is_left_by};
ghost use Rattle.d64_dos.specs.Undelete.{is_scratched_as, slot_to_undelete, undelete_refusal, disk_with_file_back};

use crate::refusal::Refusal;
use crate::sound_disk::sound_directory;
use crate::write::is_writable;
use d64_files::{BlockList, Directory, Entry, Kind, Name, SlotNo, set_type};
use d64_image::{BlockNo, BlockSet, Image, Patch};
use d64_map::{free_set, put_map};
use d64_scratched::{ScratchedSlots, is_lost, is_scratched};
use d64_survey::{Survey, walk};

/// The deleted file that comes back.
#[derive(Drop)]
struct Restorable {
    slot: SlotNo,
    /// The blocks that are free without its own.
    free: BlockSet,
}

/// Whether the slot of an entry is a scratched one of exactly this name.
fn is_scratched_as(entry: &Entry, name: &Name) -> bool
    ensures { result ≡ is_scratched_as name.now entry.now.bytes }
{
    is_scratched(entry) && entry.name() == name.bytes()
}

/// Whether a directory has a scratched slot of exactly this name.
fn has_scratched(directory: &Directory, name: &Name) -> bool
    ensures { result ≡ list_any (is_scratched_as name.now) (slots directory.now) }
{
    for entry in directory.slots() {
        if is_scratched_as(&entry, name) {
            return true;
        }
    }
    false
}

/// Whether the slot of an entry is a scratched one of this name whose file is whole.
fn is_whole(scratched: &ScratchedSlots, entry: &Entry, name: &Name) -> bool
    ensures { result ≡ is_whole_by scratched.now name.now (entry.now.slot, entry.now.bytes) }
{
    is_scratched_as(entry, name) && scratched.losses(None, entry).is_empty()
}

/// Whether the slot of an entry is a scratched one of this name whose file isn't lost.
fn is_left(scratched: &ScratchedSlots, entry: &Entry, name: &Name) -> bool
    ensures { result ≡ is_left_by scratched.now name.now (entry.now.slot, entry.now.bytes) }
{
    is_scratched_as(entry, name) && !is_lost(&scratched.losses(None, entry))
}

/// Returns the first scratched slot of a name whose file is whole, or None if there is no such
/// slot.
fn first_whole<'a>(
    directory: &Directory<'a>,
    scratched: &ScratchedSlots,
    name: &Name,
) -> Option<Entry<'a>>
    ensures { result ≡ find (λ (entry : EntryView). is_whole_by scratched.now name.now (entry.slot, entry.bytes)) (entries directory.now (slots directory.now)) }
{
    for entry in directory.slots() {
        if is_whole(scratched, &entry, name) {
            return Some(entry);
        }
    }
    None
}

/// Returns the first scratched slot of a name whose file isn't lost, or None if there is no such
/// slot.
fn first_left<'a>(
    directory: &Directory<'a>,
    scratched: &ScratchedSlots,
    name: &Name,
) -> Option<Entry<'a>>
    ensures { result ≡ find (λ (entry : EntryView). is_left_by scratched.now name.now (entry.slot, entry.bytes)) (entries directory.now (slots directory.now)) }
{
    for entry in directory.slots() {
        if is_left(scratched, &entry, name) {
            return Some(entry);
        }
    }
    None
}

/// Returns the entry of the deleted file that comes back, or None if all files of the name are
/// lost.
fn entry_back<'a>(
    directory: &Directory<'a>,
    scratched: &ScratchedSlots,
    name: &Name,
) -> Option<Entry<'a>>
    ensures { result ≡ entry_back scratched.now directory.now name.now }
{
    match first_whole(directory, scratched, name) {
        Some(entry) => Some(entry),
        None => first_left(directory, scratched, name),
    }
}

/// Removes blocks from the free ones.
fn remove_all(free: &mut BlockSet, blocks: &[BlockNo])
    ensures { free.new ≡ blocks_without free.old blocks.now }
{
    for block in blocks {
        free.remove(*block);
    }
}

/// Returns the free blocks without those on the way from an entry's first block.
fn free_without(image: &Image, entry: &Entry) -> BlockSet
    ensures { result ≡ blocks_without (free_blocks image.now) (scratched_way image.now entry.now.bytes).0 }
{
    let mut way = BlockList::empty();
    let (track, sector) = entry.first_pair();
    walk(image, track, sector, &mut way);
    let mut free = free_set(image);
    remove_all(&mut free, way.as_slice());
    free
}

/// Returns the deleted file of a name that comes back: the first that is whole, else the first that
/// isn't lost. None if all are lost. The disk must be sound.
fn find_restorable(directory: &Directory, name: &Name) -> Option<Restorable>
    requires { AllHold directory.now 1 6 }
    ensures slot { option_map (λ found. found.slot) result ≡ slot_to_undelete directory.now name.now }
    ensures is { IfSome result (IsRestorable directory.now) }
{
    let survey = Survey::of(directory.image());
    match entry_back(directory, &ScratchedSlots::of(&survey), name) {
        Some(entry) => Some(Restorable {
            slot: entry.slot(),
            free: free_without(directory.image(), &entry),
        }),
        None => None,
    }
}

/// Returns the deleted file that comes back; the error is the first refusal that applies.
/// `is_sound` may be true only if the disk is sound.
#[tactic(auto, unfolding(crate::specs::Undelete::undelete_refusal))]
fn file_to_restore(
    image: &Image,
    name: &Name,
    kind: Kind,
    is_sound: bool,
) -> Result<Restorable, Refusal>
    requires { is_sound ≡ true → IsSound image.now }
    ensures refused { refused_by result ≡ undelete_refusal image.now name.now kind }
    ensures slot { IfOk result (λ found. slot_to_undelete image.now name.now ≡ Some found.slot) }
    ensures is { IfOk result (IsRestorable image.now) }
{
    if !is_writable(kind) {
        return Err(Refusal::WrongType);
    }
    let directory = sound_directory(image, is_sound)?;
    if !has_scratched(&directory, name) {
        return Err(Refusal::NotFound);
    }
    if directory.is_taken(name) {
        return Err(Refusal::Exists);
    }
    match find_restorable(&directory, name) {
        Some(found) => Ok(found),
        None => Err(Refusal::Lost),
    }
}

/// Brings back a deleted file of exactly this name. It takes the first scratched slot of the name
/// whose file is whole, else the first whose file isn't lost: the slot gets a closed file of this
/// kind, and the blocks on its way are no longer free. No other byte changes. Only the patch takes
/// memory.
///
/// The error is the first refusal that applies: `WrongType` if the kind is DEL or REL, `Directory`
/// with the first condition of a sound image that fails, `NotFound` if no scratched slot has the
/// name, `Exists` if a used slot has it, and `Lost` if all files of the name are lost. `Memory`
/// comes only if no other refusal applies. After an error some blocks may be written; what the
/// image is with the patch put back stays the same in any case. `is_sound` may be true only if the
/// disk is sound. It is not inlined, as `scratch` is not.
#[inline(never)]
#[tactic(auto, unfolding(crate::specs::Undelete::disk_with_file_back, d64_effects::specs::Undelete::undeleted_disk))]
pub(crate) fn undelete(
    image: &mut Image,
    patch: &mut Patch,
    name: &Name,
    kind: Kind,
    is_sound: bool,
) -> Result<(), Refusal>
    requires { is_sound ≡ true → IsSound image.old }
    ensures refused { refused_by result ≡ undelete_refusal image.old name.now kind }
    ensures image { OnOk result (image.new ≡ disk_with_file_back image.old name.now kind) }
    ensures back { StillRestores image.old patch.old image.new patch.new }
{
    image.known_image();
    let found = file_to_restore(image, name, kind, is_sound)?;
    set_type(image, patch, found.slot, kind)?;
    put_map(image, patch, &found.free)?;
    Ok(())
}
