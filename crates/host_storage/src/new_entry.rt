//! New files and folders of the system, which replace nothing, and files that grow.

ghost use Rattle.std.specs.Prelude.{◌≡◌, ◌≢◌, ◌↔◌, Ok, Err, MatchResult};
ghost use Rattle.std.specs.IoError.{error_kind};

use crate::host::FolderFault;
use crate::new_file::write_to_end;
use crate::open_options::to_append;
use crate::standard_streams::is_same_file;
use crate::writes::Writes;
use std::fs::{self, File, OpenFile};
use std::io::{self, ErrorKind};
use std::path::Path;
use std::rt::Files;

/// Whether something is at this path, also a link that leads to nothing, as far as the system says.
pub fn is_there<R: Files>(rt: &R, path: &str) -> bool {
    fs::symlink_metadata(rt, path).is_ok()
}

/// Makes a folder.
pub fn make_folder<R: Files>(rt: &R, writes: &Writes, path: &str) -> Result<(), FolderFault> {
    unless_refused(writes, fs::create_dir(rt, path))
}

/// Makes a file of these bytes, if the limit allows a file of this length, and removes it again if
/// writing fails. It does not wait for the disk.
pub fn make_file<R: Files>(
    rt: &R,
    writes: &Writes,
    path: Path<'_>,
    bytes: &[u8],
) -> Result<(), FolderFault> {
    if !writes.limit.holds(rt, bytes.len() as u64) {
        return Err(FolderFault::Device);
    }
    let mut file = unless_refused(writes, File::create_new(rt, path))?;
    if let Err(error) = write_to_end(&mut file, bytes) {
        writes.keep(error.kind());
        // The call has failed already, and no more can be done if the file cannot be removed.
        let _ = fs::remove_file(rt, path);
        return Err(FolderFault::Device);
    }
    Ok(())
}

/// Appends these bytes to the plain file at this path, if the limit allows it. It does not wait for
/// the disk. If writing fails, a first part of them may be there.
pub fn extend_file<R: Files>(
    rt: &R,
    writes: &Writes,
    path: &str,
    bytes: &[u8],
) -> Result<(), FolderFault>
    ensures { result ≢ Err FolderFault.Exists }
{
    match try_extend(rt, writes, path, bytes) {
        Ok(()) => Ok(()),
        Err(error) => {
            writes.keep(error.kind());
            Err(FolderFault::Device)
        }
    }
}

/// Appends these bytes to the plain file at this path. A link, or what others have put at the path
/// meanwhile, is left as it is.
fn try_extend<R: Files>(rt: &R, writes: &Writes, path: &str, bytes: &[u8]) -> io::Result<()> {
    let found = fs::symlink_metadata(rt, path)?;
    if !found.is_file() {
        return Err(io::Error::from(ErrorKind::InvalidInput));
    }
    let mut file = to_append().open(rt, path)?;
    let opened = file.metadata()?;
    if !is_same_file(&opened, &found) {
        return Err(io::Error::from(ErrorKind::InvalidInput));
    }
    let length = opened.len().saturating_add(bytes.len() as u64);
    if !writes.limit.holds(rt, length) {
        return Err(io::Error::from(ErrorKind::FileTooLarge));
    }
    write_to_end(&mut file, bytes)
}

/// Gives a folder another path, if nothing is there. The system itself would replace an empty
/// folder.
pub fn rename_folder<R: Files>(
    rt: &R,
    writes: &Writes,
    from: &str,
    to: &str,
) -> Result<(), FolderFault> {
    if is_there(rt, to) {
        return Err(FolderFault::Exists);
    }
    unless_refused(writes, fs::rename(rt, from, to))
}

/// The outcome of a call that makes something, with the fault for which nothing was made.
fn unless_refused<T>(writes: &Writes, outcome: io::Result<T>) -> Result<T, FolderFault>
    ensures { MatchResult outcome (λ made. result ≡ Ok made) (λ error. (error_kind error ≡ ErrorKind.AlreadyExists → result ≡ Err FolderFault.Exists) × (error_kind error ≢ ErrorKind.AlreadyExists → result ≡ Err FolderFault.Device)) }
{
    match outcome {
        Ok(made) => Ok(made),
        Err(error) => Err(refused(writes, error.kind())),
    }
}

/// The fault for which nothing was made. What the system says of it is kept.
pub fn refused(writes: &Writes, kind: ErrorKind) -> FolderFault
    ensures exists { (result ≡ FolderFault.Exists) ↔ (kind ≡ ErrorKind.AlreadyExists) }
    ensures device { kind ≢ ErrorKind.AlreadyExists → result ≡ FolderFault.Device }
{
    writes.keep(kind);
    entry_fault(kind)
}

/// The fault for which nothing was made: something is at the path, or anything else that the system
/// reports.
fn entry_fault(kind: ErrorKind) -> FolderFault
    ensures exists { (result ≡ FolderFault.Exists) ↔ (kind ≡ ErrorKind.AlreadyExists) }
    ensures device { kind ≢ ErrorKind.AlreadyExists → result ≡ FolderFault.Device }
{
    match kind {
        ErrorKind::AlreadyExists => FolderFault::Exists,
        _ => FolderFault::Device,
    }
}
