//! Calls that change an image by a command.

use crate::disk::{TEN_BLOCKS, block, changed_blocks, disk, format, same, within, write};
use crate::end::{Bench, End};
use d64_dos::{Command, Refusal, Reply};
use d64_files::{Kind, Name, Pattern};
use d64_image::{Image, Patch};
use std::alloc::Global;
use std::test::Fail;

/// Returns the command that writes the block of a track and a sector.
pub fn block_write(track: u8, sector: u8) -> Result<Command, Fail> {
    Ok(Command::BlockWrite {
        at: block(track, sector)?,
        block: [1; 256],
    })
}

/// Returns the command that deletes all files.
fn delete(alloc: Global) -> Result<Command, Fail> {
    Ok(Command::Delete {
        patterns: vec![in alloc; Pattern::new(b"*")?]?,
    })
}

/// Returns the command with this name, which the disk accepts.
pub fn command_of(alloc: Global, name: &str) -> Result<Command, Fail> {
    let (old, new, deleted) = (Name::new(b"A")?, Name::new(b"Y")?, Name::new(b"C")?);
    match name {
        "Format" => format(),
        "Write" => write(alloc, b"Y", TEN_BLOCKS),
        "Delete" => delete(alloc),
        "Undelete" => Ok(Command::Undelete {
            name: deleted,
            kind: Kind::Seq,
        }),
        "Rename" => Ok(Command::Rename { old, new }),
        "Name" => Ok(Command::Name {
            name: new,
            id: Some(*b"02"),
        }),
        "Validate" => Ok(Command::Validate),
        "BlockWrite" => block_write(17, 0),
        _ => Err(Fail::new("no such command")),
    }
}

/// Changes an image by the command with a name.
fn change(bench: &Bench, name: &str, image: &mut Image) -> Result<End, Fail> {
    let command = command_of(bench.alloc(), name)?;
    within(image, &command)?;
    let before = image.try_clone(bench.alloc())?;
    let mut patch = Patch::new(bench.alloc());
    bench.begin();
    let outcome = d64_dos::apply(image, &mut patch, &command);
    Ok(end_of(outcome, image, &patch, &before))
}

pub fn apply(bench: &Bench, name: &str) -> Result<End, Fail> {
    change(bench, name, &mut disk(bench.alloc())?)
}

/// Returns how a command ended, by its result, what it was lent, and the image before.
fn end_of(outcome: Result<Reply, Refusal>, image: &Image, patch: &Patch, before: &Image) -> End {
    match outcome {
        Ok(_) => End::Changed(changed_blocks(image, before)),
        Err(Refusal::Memory) => End::out_of_memory(
            same(image, before) && patch.len() == 0,
            "the image is not as it was, or the patch is not empty",
        ),
        Err(_) => End::Refused,
    }
}
