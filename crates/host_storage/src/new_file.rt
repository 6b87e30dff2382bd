//! New files of the system, beside those that they replace.

ghost use Rattle.std.specs.Prelude.{◌≡◌, None, IfErr, IfOk, OnOk};
ghost use Rattle.std.specs.Io.KnownBytes.{Appends};
ghost use Rattle.std.specs.Path.{path_buf_bytes, path_bytes, path_with_file_name};
ghost use Rattle.host_storage.specs.Host.{IsOfDeviceOrMemory};
ghost use Rattle.host_storage.specs.System.{draft_name, folder_path};

use crate::access::keep_access;
use crate::draft::Draft;
use crate::host::HostFault;
use crate::open_options::to_make;
use crate::outcomes::{by_kind, or_device};
use std::alloc::{AllocError, Global};
use std::fs::{self, File, OpenFile};
use std::io::{self, ErrorKind, Write};
use std::os::fd::AsFd;
use std::path::{Path, PathBuf};
use std::rt::Files;

/// Why no draft was made.
pub enum DraftFault {
    /// Memory for its path ran out.
    Memory(AllocError),
    /// What the system says.
    System(ErrorKind),
}

/// A new file in the folder of the one that it replaces, which is open for writing.
#[derive(Drop)]
pub struct NewFile<'a, R: Files> {
    rt: &'a R,
    old: R::File,
    old_path: Path<'a>,
    new: R::File,
    new_path: PathBuf,
}

impl<'a, R: Files> NewFile<'a, R> {
    /// Makes a new file beside the old one, which is open and at this path. Only its owner can open
    /// it.
    pub fn beside(
        rt: &'a R,
        alloc: Global,
        old: R::File,
        old_path: Path<'a>,
    ) -> Result<NewFile<'a, R>, HostFault>
        ensures { IfErr result IsOfDeviceOrMemory }
    {
        match open_beside(rt, alloc, old_path, for_its_owner()) {
            Ok((new, new_path)) => Ok(NewFile {
                rt,
                old,
                old_path,
                new,
                new_path,
            }),
            Err(DraftFault::Memory(error)) => Err(HostFault::Memory(error)),
            Err(DraftFault::System(_)) => Err(HostFault::Device),
        }
    }
}

impl<'a, R: Files> Draft for NewFile<'a, R>
where
    R::File: AsFd,
{
    ghost place = { λ _. None };

    fn fill(&mut self, bytes: &[u8]) -> Result<(), HostFault> {
        or_device(keep_access(&self.old, &self.new))?;
        or_device(write_to_end(&mut self.new, bytes))
    }

    fn sync(&mut self) -> Result<(), HostFault> {
        or_device(self.new.sync_all())
    }

    fn publish(&mut self) -> Result<(), HostFault> {
        or_device(fs::rename(self.rt, self.new_path.as_path(), self.old_path))?;
        sync_folder_of(self.rt, self.old_path);
        Ok(())
    }

    fn discard(&mut self) {
        // The store has failed already, and no more can be done if the file cannot be removed.
        let _ = fs::remove_file(self.rt, self.new_path.as_path());
    }
}

/// The permissions of a draft until it has those of the file that it replaces.
fn for_its_owner() -> u32
    ensures { result ≡ 0o600 }
{
    0o600
}

/// Writes these bytes to a file, and flushes it.
pub fn write_to_end<F: Write>(file: &mut F, bytes: &[u8]) -> io::Result<()>
    ensures { OnOk result (Appends (F.contents file.old) (F.contents file.new) bytes.now) }
{
    file.write_all(bytes)?;
    file.flush()
}

/// Makes a new file in the folder of this path, which is open for writing, under a name that no
/// file has, with these permissions at most. Such names that others have left behind are skipped.
pub fn open_beside<R: Files>(
    rt: &R,
    alloc: Global,
    path: Path<'_>,
    mode: u32,
) -> Result<(R::File, PathBuf), DraftFault> {
    for number in 0..u64::MAX {
        let new_path = draft_path(alloc, path, number).map_err(DraftFault::Memory)?;
        match by_kind(open_new(rt, new_path.as_path(), mode)) {
            Ok(new) => return Ok((new, new_path)),
            Err(ErrorKind::AlreadyExists) => {}
            Err(kind) => return Err(DraftFault::System(kind)),
        }
    }
    Err(DraftFault::System(ErrorKind::AlreadyExists))
}

/// The path of a new file in the folder of this one.
fn draft_path(alloc: Global, path: Path<'_>, number: u64) -> Result<PathBuf, AllocError>
    ensures { IfOk result (λ draft. path_buf_bytes draft ≡ path_with_file_name (path_bytes path.entry) (draft_name number)) }
{
    let name = format!(in alloc; ".d64sh-{number}")?;
    path.with_file_name(alloc, name.as_str())
}

/// Makes a file under a name that no file has.
fn open_new<R: Files>(rt: &R, path: Path<'_>, mode: u32) -> io::Result<R::File> {
    to_make(mode).open(rt, path)
}

/// Waits until the disk has the folder's new entry, if the system offers that. The file is whole
/// either way.
pub fn sync_folder_of<R: Files>(rt: &R, path: Path<'_>) {
    if let Ok(folder) = File::open(rt, folder_of(path)) {
        let _ = folder.sync_all();
    }
}

/// The folder of the file at this path.
fn folder_of(path: Path<'_>) -> Path<'_>
    ensures { path_bytes result ≡ folder_path (path_bytes path.entry) }
{
    match path.parent() {
        Some(parent) if parent.to_str() != Some("") => parent,
        _ => Path::new("."),
    }
}
