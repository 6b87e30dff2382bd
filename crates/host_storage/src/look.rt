//! What prevents the reading or writing of a file of the system, by its path.

ghost use Rattle.std.specs.Prelude.{◌≡◌, ◌≢◌, ◌⊎◌, ◌↔◌, Some};
ghost use Rattle.host_storage.specs.System.{is_of_open_file};

use crate::host::{Obstacle, WriteObstacle};
use crate::open_options::to_append;
use crate::outcomes::by_kind;
use std::fs::{self, File};
use std::io::ErrorKind;
use std::os::unix::fs::FileTypeExt;
use std::rt::Files;

/// What prevents the reading of the file at this path, as far as the system says. Only a plain file
/// is opened, since opening a pipe waits for its other end.
pub fn obstacle<R: Files>(rt: &R, path: &str) -> Option<Obstacle> {
    let found = match by_kind(fs::metadata(rt, path)) {
        Ok(found) => found,
        Err(kind) => return obstacle_of(kind),
    };
    if found.is_dir() {
        return Some(Obstacle::Folder);
    }
    if !found.is_file() {
        return pipe_at(rt, path);
    }
    match by_kind(File::open(rt, path)) {
        Ok(_) => None,
        Err(kind) => obstacle_of(kind),
    }
}

/// That a named pipe is at this path, if one is.
fn pipe_at<R: Files>(rt: &R, path: &str) -> Option<Obstacle> {
    if is_named_pipe(rt, path) {
        Some(Obstacle::NamedPipe)
    } else {
        None
    }
}

/// Whether a named pipe is at this path: opening one may wait for ever for its writer. A pipe that
/// the process has open already, such as `<(..)` of a shell, does not count.
pub(crate) fn is_named_pipe<R: Files>(rt: &R, path: &str) -> bool {
    if is_of_open_file(path) {
        return false;
    }
    match fs::metadata(rt, path) {
        Ok(found) => found.file_type().is_fifo(),
        Err(_) => false,
    }
}

/// Whether a path is one under which a system shows a process the files that it has open.
fn is_of_open_file(path: &str) -> bool
    ensures { result ≡ is_of_open_file path.now }
{
    path == "/dev/stdin" || path.starts_with("/dev/fd/") || path.starts_with("/proc/self/fd/")
}

/// What an error of the system says about a path.
fn obstacle_of(kind: ErrorKind) -> Option<Obstacle>
    ensures nothing { (result ≡ Some Obstacle.Nothing) ↔ ((kind ≡ ErrorKind.NotFound) ⊎ (kind ≡ ErrorKind.NotADirectory)) }
    ensures permission { (result ≡ Some Obstacle.NoPermission) ↔ (kind ≡ ErrorKind.PermissionDenied) }
    ensures never_folder { result ≢ Some Obstacle.Folder }
    ensures never_pipe { result ≢ Some Obstacle.NamedPipe }
{
    match kind {
        ErrorKind::NotFound | ErrorKind::NotADirectory => Some(Obstacle::Nothing),
        ErrorKind::PermissionDenied => Some(Obstacle::NoPermission),
        _ => None,
    }
}

/// What prevents the writing of the file at this path, as far as the system says it of what is
/// there. Only a plain file is opened, and no file is changed.
pub fn write_obstacle<R: Files>(rt: &R, path: &str) -> Option<WriteObstacle> {
    let found = match by_kind(fs::metadata(rt, path)) {
        Ok(found) => found,
        Err(ErrorKind::NotFound) => return missing_folder(rt, path),
        Err(kind) => return write_obstacle_of(kind),
    };
    if found.is_dir() {
        return Some(WriteObstacle::Folder);
    }
    if !found.is_file() {
        return None;
    }
    match by_kind(to_append().open(rt, path)) {
        Ok(_) => None,
        Err(kind) => write_obstacle_of(kind),
    }
}

/// That the folder of this path is not there, if it isn't.
fn missing_folder<R: Files>(rt: &R, path: &str) -> Option<WriteObstacle> {
    let (folder, _name) = path.rsplit_once('/')?;
    if folder.is_empty() {
        return None;
    }
    match by_kind(fs::metadata(rt, folder)) {
        Err(ErrorKind::NotFound) => Some(WriteObstacle::NoFolder),
        _ => None,
    }
}

/// What an error of the system says about a path that was to be written.
pub fn write_obstacle_of(kind: ErrorKind) -> Option<WriteObstacle>
    ensures no_folder { (result ≡ Some WriteObstacle.NoFolder) ↔ (kind ≡ ErrorKind.NotFound) }
    ensures not_folder { (result ≡ Some WriteObstacle.NotFolder) ↔ (kind ≡ ErrorKind.NotADirectory) }
    ensures folder { (result ≡ Some WriteObstacle.Folder) ↔ (kind ≡ ErrorKind.IsADirectory) }
    ensures permission { (result ≡ Some WriteObstacle.NoPermission) ↔ (kind ≡ ErrorKind.PermissionDenied) }
    ensures long_name { (result ≡ Some WriteObstacle.LongName) ↔ (kind ≡ ErrorKind.InvalidFilename) }
    ensures read_only { (result ≡ Some WriteObstacle.ReadOnly) ↔ (kind ≡ ErrorKind.ReadOnlyFilesystem) }
    ensures full { (result ≡ Some WriteObstacle.Full) ↔ ((kind ≡ ErrorKind.StorageFull) ⊎ (kind ≡ ErrorKind.QuotaExceeded)) }
{
    match kind {
        ErrorKind::NotFound => Some(WriteObstacle::NoFolder),
        ErrorKind::NotADirectory => Some(WriteObstacle::NotFolder),
        ErrorKind::IsADirectory => Some(WriteObstacle::Folder),
        ErrorKind::PermissionDenied => Some(WriteObstacle::NoPermission),
        ErrorKind::InvalidFilename => Some(WriteObstacle::LongName),
        ErrorKind::ReadOnlyFilesystem => Some(WriteObstacle::ReadOnly),
        ErrorKind::StorageFull | ErrorKind::QuotaExceeded => Some(WriteObstacle::Full),
        _ => None,
    }
}
