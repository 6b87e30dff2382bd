//! Calls that take no memory, and are lent nothing that takes some; and those of patches.
ghost use Rattle.std.specs.Prelude.{IfOk};
ghost use Rattle.d64_image.specs.Patch.{IsPatchOf};

use crate::disk::{block, block_in, disk, fresh};
use crate::end::{Bench, End};
use d64_files::{Name, Pattern, matches};
use d64_image::{BlockNo, BlockSet, Image, Patch};
use d64_map::{pick_dir, pick_first, pick_next};
use host_storage::{FolderHost, Host};
use std::test::Fail;

/// Makes the calls with a name, and returns whether they returned what they should.
pub fn end_of_call(bench: &Bench, call: &str) -> Result<End, Fail> {
    match call {
        "BlockNo" => block_numbers(bench),
        "BlockSet" => block_sets(bench),
        "Patch" => patches(bench),
        "Patch::write,again" => kept_block(bench),
        "pick_first,pick_next,pick_dir" => picks(bench),
        "Name,Pattern,matches" => names(bench),
        "FolderHost" => Ok(folder_hosts(bench)),
        _ => Err(Fail::new("no such call")),
    }
}

/// Calls `of`, `at`, `index`, `track` and `sector`.
fn block_numbers(bench: &Bench) -> Result<End, Fail> {
    bench.begin();
    let last = block(40, 16)?;
    Ok(End::returned(
        BlockNo::at(767) == Some(last)
            && (last.index(), last.track(), last.sector()) == (767, 40, 16)
            && BlockNo::of(35, 17).is_none()
            && BlockNo::at(768).is_none(),
    ))
}

/// Calls `empty`, `has`, `add`, `remove` and `count`.
fn block_sets(bench: &Bench) -> Result<End, Fail> {
    let (first, second) = (block(1, 0)?, block(35, 16)?);
    bench.begin();
    let mut blocks = BlockSet::empty();
    blocks.add(first);
    blocks.add(second);
    blocks.remove(first);
    Ok(End::returned(!blocks.has(first) && blocks.has(second) && blocks.count() == 1))
}

/// Writes two blocks, one with what it had.
fn write_two(image: &mut Image, patch: &mut Patch) -> Result<(), Fail>
    requires { IsPatchOf image.old patch.old }
    ensures { IfOk result (λ _. IsPatchOf image.new patch.new) }
{
    let first = block_in(image, 1, 0)?;
    patch.write(image, first, &[1; 256])?;
    let second = block_in(image, 1, 1)?;
    patch.write(image, second, &[0; 256])?;
    Ok(())
}

/// Calls `new`, `swap`, `trim`, `clear`, `len` and `blocks`.
fn patches(bench: &Bench) -> Result<End, Fail> {
    let mut image = disk(bench.alloc())?;
    let mut patch = fresh(bench.alloc(), &image);
    write_two(&mut image, &mut patch)?;
    bench.begin();
    let counts = (Patch::new(bench.alloc()).len(), patch.len());
    patch.trim(&image);
    patch.swap(&mut image);
    let left = patch.blocks().len();
    patch.clear();
    Ok(End::returned(counts == (0, 2) && left == 1 && patch.len() == 0))
}

/// Writes a block that the patch keeps already.
fn write_again(bench: &Bench, image: &mut Image, patch: &mut Patch) -> Result<End, Fail> {
    let first = block_in(image, 1, 0)?;
    patch.write(image, first, &[1; 256])?;
    let again = block_in(image, 1, 0)?;
    bench.begin();
    let outcome = patch.write(image, again, &[2; 256]);
    Ok(End::returned(
        outcome.is_ok() && image.holds(first) && image.sector(first)[0] == 2 && patch.len() == 1,
    ))
}

fn kept_block(bench: &Bench) -> Result<End, Fail> {
    write_again(
        bench,
        &mut disk(bench.alloc())?,
        &mut Patch::new(bench.alloc()),
    )
}

fn picks(bench: &Bench) -> Result<End, Fail> {
    let (file, directory) = (block(17, 5)?, block(18, 4)?);
    let mut free = BlockSet::empty();
    free.add(file);
    free.add(directory);
    bench.begin();
    Ok(End::returned(
        pick_first(&free) == Some(file)
            && pick_next(&free, file) == Some(file)
            && pick_dir(&free, directory) == Some(directory),
    ))
}

/// Calls `Name::new` and `bytes`, `Pattern::new`, and `matches`.
fn names(bench: &Bench) -> Result<End, Fail> {
    bench.begin();
    let name = Name::new(b"SIXTEEN LETTERS!")?;
    let pattern = Pattern::new(b"SI?TEEN*")?;
    Ok(End::returned(
        matches(&pattern, name.bytes()) && Name::new(b"*").is_err() && Pattern::new(b"").is_err(),
    ))
}

/// Calls `new` and `failures`.
fn folder_hosts(bench: &Bench) -> End {
    bench.begin();
    End::returned(FolderHost::new(bench.rt()).failures() == 0)
}
