//! New files of the system that are whole as soon as they are there.
//!
//! A draft beside the path gets the path as a second name, by a hard link, which replaces nothing,
//! and loses its own. A file system without hard links, or one that does not accept the link, has
//! the file written at its path.

ghost use Rattle.std.specs.Prelude.{◌≡◌};

use crate::host::FolderFault;
use crate::new_entry::{make_file, refused};
use crate::new_file::{DraftFault, open_beside, sync_folder_of, write_to_end};
use crate::writes::Writes;
use std::alloc::Global;
use std::fs::{self, OpenFile};
use std::io::ErrorKind;
use std::path::Path;
use std::rt::Files;

/// Makes a file of these bytes, if the limit allows a file of this length. The draft is on the disk
/// before it gets the path.
pub fn make_whole_file<R: Files>(
    rt: &R,
    alloc: Global,
    writes: &Writes,
    path: Path<'_>,
    bytes: &[u8],
) -> Result<(), FolderFault> {
    if !writes.limit.holds(rt, bytes.len() as u64) {
        return Err(FolderFault::Device);
    }
    match open_beside(rt, alloc, path, for_all()) {
        Ok((file, draft)) => {
            let outcome = fill_and_link(rt, writes, file, draft.as_path(), path, bytes);
            // The file has its path by now, or the call has failed. No more can be done if the
            // draft's name cannot be removed.
            let _ = fs::remove_file(rt, draft.as_path());
            sync_folder_of(rt, path);
            outcome
        }
        Err(DraftFault::Memory(_)) => make_file(rt, writes, path, bytes),
        Err(DraftFault::System(kind)) => Err(refused(writes, kind)),
    }
}

/// The permissions that a new file gets, as far as those who run the process allow them.
fn for_all() -> u32
    ensures { result ≡ 0o666 }
{
    0o666
}

/// Writes these bytes to a draft, waits until the disk has them, and gives the draft this path.
fn fill_and_link<R: Files>(
    rt: &R,
    writes: &Writes,
    mut file: R::File,
    draft: Path<'_>,
    path: Path<'_>,
    bytes: &[u8],
) -> Result<(), FolderFault> {
    let filled = match write_to_end(&mut file, bytes) {
        Ok(()) => file.sync_all(),
        Err(error) => Err(error),
    };
    if let Err(error) = filled {
        writes.keep(error.kind());
        return Err(FolderFault::Device);
    }
    match fs::hard_link(rt, draft, path) {
        Ok(()) => Ok(()),
        Err(error) if error.kind() == ErrorKind::AlreadyExists => Err(FolderFault::Exists),
        Err(_) => make_file(rt, writes, path, bytes),
    }
}
