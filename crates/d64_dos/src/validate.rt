//! Validating a disk: unclosed files are dropped, and blocks without an owner are free.
ghost use Rattle.std.specs.Prelude.{◌≡◌, ℕ, List, length, OnOk};
ghost use Rattle.std.specs.FinSet as set;
ghost use Rattle.d64_image.specs.Patch.{StillRestores};
ghost use Rattle.d64_effects.specs.Validate.{unclosed_slots, all_but, validated_disk};
ghost use Rattle.d64_dos.specs.FileRefusals.{validate_refusal};
ghost use Rattle.d64_dos.specs.Refusal.{refused_by};

use crate::delete::clear_slots;
use crate::refusal::Refusal;
use arrayvec::ArrayVec;
use d64_effects::laws::clearing_keeps_the_directory;
use d64_files::{Directory, MOST_SLOTS, owned};
use d64_image::{BlockSet, Image, Patch};
use d64_map::put_map;

/// The places of the used slots whose files aren't closed, in the directory's order.
fn unclosed_slots(directory: &Directory) -> ArrayVec<usize, MOST_SLOTS>
    ensures { result.items ≡ unclosed_slots directory.now }
{
    let mut places = ArrayVec::new();
    for entry in directory.slots() {
        if entry.used() && !entry.closed() {
            places.push(entry.slot().place());
        }
    }
    places
}

/// All blocks of the disk but these.
fn all_but(image: &Image, owned: &BlockSet) -> BlockSet
    ensures { (blocks : List ℕ) → owned.now ≡ set.from_list blocks → result ≡ all_but (length image.now) blocks }
{
    let mut others = BlockSet::empty();
    for block in image.blocks() {
        if !owned.has(block) {
            others.add(block);
        }
    }
    others
}

/// Drops the files that were never closed, and writes the map anew: exactly the blocks are free
/// that neither the map, nor the directory, nor a file owns. Only the patch allocates.
///
/// The error is `Directory` with the first condition that fails of those on the directory, the
/// files and their chains, whatever the map says, and otherwise `Memory` if there is no memory to
/// keep the bytes of a block. After an error some blocks may be written; putting the patch back
/// gives the same image in any case. It is a function of its own, as `scratch` is.
#[inline(never)]
pub(crate) fn validate(image: &mut Image, patch: &mut Patch) -> Result<(), Refusal>
    ensures refused { refused_by result ≡ validate_refusal image.old }
    ensures image { OnOk result (image.new ≡ validated_disk image.old) }
    ensures back { StillRestores image.old patch.old image.new patch.new }
{
    clearing_keeps_the_directory();
    let owned = owned(image)?;
    let unclosed = unclosed_slots(&Directory::of(image)?);
    let others = all_but(image, &owned);
    clear_slots(image, patch, unclosed.as_slice())?;
    put_map(image, patch, &others)?;
    Ok(())
}
