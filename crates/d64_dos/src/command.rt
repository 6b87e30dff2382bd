//! Commands on an image, their replies, and their application.
ghost use Rattle.std.specs.Prelude.{◌≡◌, ◌↔◌, true, [], length, IfOk, IfSome, OnOk, OnErr};
ghost use Rattle.d64_dos.specs.Change.{change_of};
ghost use Rattle.d64_dos.specs.Command.{image_after, reply_to, refusal_of, IsWithin, LeavesSound, StartsFrom};
ghost use Rattle.d64_dos.specs.Refusal.{refused_by};
ghost use Rattle.d64_dos.specs.Step.{IsMade, Leaves};
ghost use Rattle.d64_effects.specs.Laws.{AreTwoBytes};
ghost use Rattle.d64_effects.specs.View.{IsSound};
ghost use Rattle.d64_image.specs.Image.{IsImage};
ghost use Rattle.d64_image.specs.Patch.{restored_image, changed_blocks, IsPatchOf, StillRestores};

use crate::delete::scratch;
use crate::disk_name::name_disk;
use crate::format::format;
use crate::refusal::Refusal;
use crate::rename::rename;
use crate::undelete::undelete;
use crate::validate::validate;
use crate::write::write;
use d64_files::{Kind, Name, Pattern};
use d64_image::{BLOCK_BYTES, BlockNo, Image, Patch, known_bytes};

/// A change of an image.
#[derive(Drop)]
pub enum Command {
    /// Makes an empty disk with this name and id (1541 User's Guide, "New"). Nothing of the image
    /// before is kept.
    Format {
        name: Name,
        id: [u8; 2],
    },
    /// Writes a file of these bytes and closes it: into free blocks outside track 18, and with an
    /// entry in the first empty slot, or in a new block of track 18 that the directory takes if no
    /// slot is empty. No other file changes.
    Write {
        name: Name,
        kind: Kind,
        bytes: Vec<u8>,
    },
    /// Deletes each file that is closed and not locked and whose name at least one of the patterns
    /// matches (1541 User's Guide, "Scratch"): its slot is unused then, and the blocks of its chain
    /// and of its side chain are free. If there is no such file, nothing is written.
    Delete {
        patterns: Vec<Pattern>,
    },
    /// Brings back a deleted file of exactly this name as a closed one of this kind, which isn't
    /// locked: the first scratched slot of the name whose file is whole, else the first whose file
    /// isn't lost, is used again, and the blocks of its chain aren't free. Its kind is the caller's to
    /// know: the drive's delete clears it. No other byte changes.
    Undelete {
        name: Name,
        kind: Kind,
    },
    /// Gives the first used slot with one name another (1541 User's Guide, "Rename"). Every other
    /// byte of its entry stays, and the file may be locked or unclosed.
    Rename {
        old: Name,
        new: Name,
    },
    /// Gives the disk another name, and another id, if one is given. No other byte changes.
    Name {
        name: Name,
        id: Option<[u8; 2]>,
    },
    /// Drops the files that were never closed, and writes the map anew: the free blocks are those
    /// that no file, directory or map owns (1541 User's Guide, "Validate").
    Validate,
    /// Replaces the 256 bytes of one block.
    BlockWrite {
        at: BlockNo,
        block: [u8; BLOCK_BYTES],
    },
}

impl Command {
    /// Whether it leaves a sound disk if it is accepted, by whether the disk before is known to be
    /// sound: a block write promises nothing, and a disk that gets a name stays sound or not as it
    /// was.
    pub fn leaves_sound(&self, is_known: bool) -> bool
        ensures { (result ≡ true) ↔ LeavesSound (change_of self.now) is_known }
    {
        match self {
            Command::BlockWrite { at: _, block: _ } => false,
            Command::Name { name: _, id: _ } => is_known,
            Command::Format { name: _, id: _ }
            | Command::Write {
                name: _,
                kind: _,
                bytes: _,
            }
            | Command::Delete { patterns: _ }
            | Command::Undelete { name: _, kind: _ }
            | Command::Rename { old: _, new: _ }
            | Command::Validate => true,
        }
    }
}

/// The reply to an accepted command.
#[derive(Clone, Copy, Debug, PartialEq, Eq)]
pub enum Reply {
    Done,
    /// This many files were deleted.
    Scratched(usize),
}

/// Changes the image as a command asks, and returns the reply. The patch, empty before, keeps each
/// block that the command changed, once and ascending, with its bytes from before. The image must
/// have the block that a block write names.
///
/// The error is the first refusal that applies, and `Memory` only if no other applies; then the
/// image is unchanged, and the patch is empty. A format, a name of the disk and a block write have
/// no refusal of their own. The others have these, in order:
///
/// - A write `WrongType`, if the kind is DEL or REL; `Directory` with the first condition of a
///   sound image that fails; `Exists`, if a used slot has exactly the name; `DiskFull`, if fewer
///   blocks outside track 18 are free than the file takes, or no slot is empty and no block of
///   track 18 is free.
/// - A deletion `Directory`, as a write.
/// - An undeletion `WrongType` and `Directory`, as a write; `NotFound`, if no scratched slot has
///   the name; `Exists`, if a used slot has it; `Lost`, if each scratched slot of the name has lost
///   its file: its way is no chain, or doesn't have as many blocks as the slot shows, or a block of
///   it is owned or marked as used.
/// - A renaming `Directory`, as a write; `NotFound`, if no used slot has the old name; `Exists`, if
///   a used slot has the new name, also if that is the old one.
/// - A validation `Directory` with the first condition that fails of those on the directory, the
///   files and their chains.
///
/// The image keeps its number of tracks. An accepted file command leaves a sound disk, which shows
/// the command's change and nothing else: a format always, a validation too, the others if the disk
/// was sound. Any disk can get a name.
pub fn apply(image: &mut Image, patch: &mut Patch, command: &Command) -> Result<Reply, Refusal>
    requires patch { patch.old ≡ [] }
    requires block { IsWithin image.old (change_of command.now) }
    ensures refused { refused_by result ≡ refusal_of image.old (change_of command.now) }
    ensures reply { IfOk result (λ reply. reply ≡ reply_to image.old (change_of command.now)) }
    ensures accepted { OnOk result (image.new ≡ image_after image.old (change_of command.now)) }
    ensures changed { OnOk result (patch.new ≡ changed_blocks image.old image.new) }
    ensures back { OnOk result (restored_image image.new patch.new ≡ image.old) }
    ensures unchanged { OnErr result (image.new ≡ image.old) }
    ensures forgotten { OnErr result (patch.new ≡ []) }
    ensures kind { length image.new ≡ length image.old }
    ensures step { IfOk result (λ reply. StartsFrom (change_of command.now) image.old → Leaves image.old (change_of command.now) reply image.new) }
{
    apply_knowing(image, patch, command, false)
}

/// Changes the image as `apply` does. `is_sound` may be true only if the disk is sound, as it is
/// after every accepted file command: then a command that needs a sound disk doesn't test it again.
pub fn apply_knowing(
    image: &mut Image,
    patch: &mut Patch,
    command: &Command,
    is_sound: bool,
) -> Result<Reply, Refusal>
    requires patch { patch.old ≡ [] }
    requires block { IsWithin image.old (change_of command.now) }
    requires known { is_sound ≡ true → IsSound image.old }
    ensures refused { refused_by result ≡ refusal_of image.old (change_of command.now) }
    ensures reply { IfOk result (λ reply. reply ≡ reply_to image.old (change_of command.now)) }
    ensures accepted { OnOk result (image.new ≡ image_after image.old (change_of command.now)) }
    ensures changed { OnOk result (patch.new ≡ changed_blocks image.old image.new) }
    ensures back { OnOk result (restored_image image.new patch.new ≡ image.old) }
    ensures unchanged { OnErr result ((image.new ≡ image.old) × (patch.new ≡ [])) }
    ensures kind { length image.new ≡ length image.old }
    ensures step { IfOk result (λ reply. StartsFrom (change_of command.now) image.old → Leaves image.old (change_of command.now) reply image.new) }
    ensures sound { OnOk result (LeavesSound (change_of command.now) is_sound → IsSound image.new) }
{
    let outcome = carried_out(image, patch, command, is_sound);
    if outcome.is_ok() {
        patch.trim(image);
    } else {
        put_back(image, patch);
    }
    outcome
}

/// Puts back into the image what the patch keeps of it, and empties the patch.
fn put_back(image: &mut Image, patch: &mut Patch)
    requires { IsPatchOf image.old patch.old }
    ensures image { image.new ≡ restored_image image.old patch.old }
    ensures patch { patch.new ≡ [] }
{
    patch.swap(image);
    patch.clear();
}

/// Does nothing: its contract states what the parts of a command are.
fn known_command(command: &Command)
    ensures { IsMade (change_of command.now) }
{
    match command {
        Command::Format { name, id } => {
            name.known_name();
            known_bytes(id);
        }
        Command::Write {
            name,
            kind: _,
            bytes,
        } => {
            name.known_name();
            known_bytes(bytes);
        }
        Command::Undelete { name, kind: _ } => {
            name.known_name();
        }
        Command::Rename { old, new } => {
            old.known_name();
            new.known_name();
        }
        Command::Name { name, id } => {
            name.known_name();
            known_id(id);
        }
        Command::Delete { patterns: _ } => {}
        Command::Validate => {}
        Command::BlockWrite { at: _, block: _ } => {}
    }
}

/// Does nothing: its contract states that an id, if there is one, has two bytes.
fn known_id(id: &Option<[u8; 2]>)
    ensures { IfSome id.now AreTwoBytes }
{
    match id {
        Some(id) => known_bytes(id),
        None => {}
    }
}

/// Changes the image as a command asks, byte for byte. After an error some blocks may be written;
/// putting the patch back gives the image from before in any case. `is_sound` may be true only if
/// the disk is sound.
fn carried_out(
    image: &mut Image,
    patch: &mut Patch,
    command: &Command,
    is_sound: bool,
) -> Result<Reply, Refusal>
    requires block { IsWithin image.old (change_of command.now) }
    requires known { is_sound ≡ true → IsSound image.old }
    ensures refused { refused_by result ≡ refusal_of image.old (change_of command.now) }
    ensures reply { IfOk result (λ reply. reply ≡ reply_to image.old (change_of command.now)) }
    ensures accepted { OnOk result (image.new ≡ image_after image.old (change_of command.now)) }
    ensures back { StillRestores image.old patch.old image.new patch.new }
    ensures known { IsImage image.old × IsMade (change_of command.now) }
{
    known_command(command);
    image.known_image();
    match command {
        Command::Format { name, id } => {
            format(image, patch, name, id)?;
            Ok(Reply::Done)
        }
        Command::Write { name, kind, bytes } => {
            write(image, patch, name, *kind, bytes, is_sound)?;
            Ok(Reply::Done)
        }
        Command::Delete { patterns } => {
            let count = scratch(image, patch, patterns, is_sound)?;
            Ok(Reply::Scratched(count))
        }
        Command::Undelete { name, kind } => {
            undelete(image, patch, name, *kind, is_sound)?;
            Ok(Reply::Done)
        }
        Command::Rename { old, new } => {
            rename(image, patch, old, new, is_sound)?;
            Ok(Reply::Done)
        }
        Command::Name { name, id } => {
            name_disk(image, patch, name, *id)?;
            Ok(Reply::Done)
        }
        Command::Validate => {
            validate(image, patch)?;
            Ok(Reply::Done)
        }
        Command::BlockWrite { at, block } => {
            patch.write(image, *at, block)?;
            Ok(Reply::Done)
        }
    }
}
