//! Renaming a file.
ghost use Rattle.std.specs.Prelude.{◌≡◌, ◌<◌, true, Some, length, IfOk, IfSome, OnOk};
ghost use Rattle.d64_image.specs.Patch.{StillRestores};
ghost use Rattle.d64_files.specs.Directory.{slots};
ghost use Rattle.d64_effects.specs.View.{IsSound};
ghost use Rattle.d64_effects.specs.Rename.{first_of_name, renamed_disk};
ghost use Rattle.d64_dos.specs.FileRefusals.{rename_refusal};
ghost use Rattle.d64_dos.specs.Refusal.{refused_by};

use crate::refusal::Refusal;
use crate::sound_disk::sound_directory;
use d64_files::{Directory, Name, SlotNo, set_name};
use d64_image::{Image, Patch};

/// The first used slot with exactly this name, or None if there is no such slot.
fn slot_of_name(directory: &Directory, name: &Name) -> Option<SlotNo>
    ensures slot { result ≡ first_of_name name.now (slots directory.now) }
    ensures within { IfSome result (λ slot. slot < length (slots directory.now)) }
{
    for entry in directory.slots() {
        if entry.used() && entry.name() == name.bytes() {
            return Some(entry.slot());
        }
    }
    None
}

/// The slot whose name changes, or the first refusal that applies. `is_sound` may be true only if
/// the disk is sound.
#[tactic(auto, unfolding(crate::specs::FileRefusals::rename_refusal))]
fn slot_to_rename(image: &Image, old: &Name, new: &Name, is_sound: bool) -> Result<SlotNo, Refusal>
    requires { is_sound ≡ true → IsSound image.now }
    ensures refused { refused_by result ≡ rename_refusal image.now old.now new.now }
    ensures slot { IfOk result (λ slot. first_of_name old.now (slots image.now) ≡ Some slot) }
    ensures within { IfOk result (λ slot. slot < length (slots image.now)) }
{
    let directory = sound_directory(image, is_sound)?;
    let Some(first) = slot_of_name(&directory, old) else {
        return Err(Refusal::NotFound);
    };
    if directory.is_taken(new) {
        return Err(Refusal::Exists);
    }
    Ok(first)
}

/// Gives the first used slot with one name another. Every other byte of its entry stays, and the
/// file may be locked or unclosed. Only the patch allocates.
///
/// The error is the first refusal that applies: `Directory` with the first condition of a sound
/// image that fails, `NotFound` if no used slot has the old name, and `Exists` if one has the new
/// name, also if it is the same name. `Memory` comes only if no other applies. Putting the patch
/// back gives the same image in any case. `is_sound` may be true only if the disk is sound.
pub(crate) fn rename(
    image: &mut Image,
    patch: &mut Patch,
    old: &Name,
    new: &Name,
    is_sound: bool,
) -> Result<(), Refusal>
    requires { is_sound ≡ true → IsSound image.old }
    ensures refused { refused_by result ≡ rename_refusal image.old old.now new.now }
    ensures image { OnOk result (image.new ≡ renamed_disk image.old old.now new.now) }
    ensures back { StillRestores image.old patch.old image.new patch.new }
{
    let slot = slot_to_rename(image, old, new, is_sound)?;
    set_name(image, patch, slot, new)?;
    Ok(())
}
