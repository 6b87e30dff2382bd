//! Stores that are whole or not at all.
//!
//! What a name leads to is found first: nothing, a file, or something that isn't one. A file is
//! replaced by a new one beside it, so that a store that fails or is cut off leaves the old one.

ghost use Rattle.std.specs.Prelude.{◌≡◌, ◌↔◌, ◌⊎◌, true, false, Some, IfErr, IsTrue, MatchOption};
ghost use Rattle.std.specs.Fs.{IsSymlink, file_type};
ghost use Rattle.host_storage.specs.Host.{IsOfDeviceOrMemory};

use crate::draft::replace_by;
use crate::host::{FolderFault, HostFault};
use crate::new_entry::make_file;
use crate::new_file::{NewFile, write_to_end};
use crate::open_options::to_write;
use crate::outcomes::{by_kind, or_device};
use crate::process_status::device_of_processes;
use crate::standard_streams::{StandardStreams, is_same_file};
use crate::writes::Writes;
use std::alloc::{AllocError, Global};
use std::fs::{self, Metadata, OpenFile};
use std::io::{ErrorKind, Write};
use std::os::fd::AsFd;
use std::os::unix::fs::MetadataExt;
use std::path::{AsPath, PathBuf};
use std::rt::Files;

/// The end of the links from a name, and what is there. A link there is one of the system's own.
#[derive(Drop)]
struct End {
    path: PathBuf,
    found: Option<Metadata>,
}

/// What a store does with the file that it has opened.
#[derive(Clone, Copy, PartialEq, Eq)]
enum StoreMethod {
    /// It writes to it as it is.
    InPlace,
    /// It puts a new file in its place.
    Replaced,
    /// It looks again: the name leads to something else by now.
    Again,
}

/// Makes these bytes the whole content of what this name leads to.
///
/// An existing file is replaced in one step, or stays as it is. A new file is made, and removed
/// again if writing fails. What isn't a plain file is written in place. An error comes if it is
/// open as a standard stream, or if the limit does not allow as many bytes.
pub fn store_file<R: Files>(
    rt: &R,
    alloc: Global,
    writes: &Writes,
    streams: &StandardStreams,
    name: &str,
    bytes: &[u8],
) -> Result<(), HostFault>
where
    R::File: AsFd,
    ensures { IfErr result IsOfDeviceOrMemory }
{
    for _ in 0..most_tries() {
        if try_store(rt, alloc, writes, streams, name, bytes)? {
            return Ok(());
        }
    }
    Err(HostFault::Device)
}

/// How often a store looks again for a file that another one has replaced meanwhile.
fn most_tries() -> u32
    ensures { result ≡ 1000 }
{
    1_000
}

/// Stores to the file of this name, unless others change what the name leads to between two looks.
/// Returns whether it has stored.
fn try_store<R: Files>(
    rt: &R,
    alloc: Global,
    writes: &Writes,
    streams: &StandardStreams,
    name: &str,
    bytes: &[u8],
) -> Result<bool, HostFault>
where
    R::File: AsFd,
    ensures { IfErr result IsOfDeviceOrMemory }
{
    if streams.may_have(rt, name) {
        return Err(HostFault::Device);
    }
    // The system opens the file, by its own rules for links.
    let opened = by_kind(to_write().open(rt, name));
    let end = end_of_links(rt, alloc, name)?;
    store_at(rt, alloc, writes, opened, &end, bytes)
}

/// Stores to the end of the links, which the system has opened or has not. Returns whether it has
/// stored.
fn store_at<R: Files>(
    rt: &R,
    alloc: Global,
    writes: &Writes,
    opened: Result<R::File, ErrorKind>,
    end: &End,
    bytes: &[u8],
) -> Result<bool, HostFault>
where
    R::File: AsFd,
    ensures { IfErr result IsOfDeviceOrMemory }
{
    match opened {
        Ok(old) => store_over(rt, alloc, writes, old, end, bytes),
        Err(kind) if kind != ErrorKind::NotFound => Err(HostFault::Device),
        Err(_) if end.found.is_some() => Ok(false),
        Err(_) => match make_file(rt, writes, end.path.as_path(), bytes) {
            Ok(()) => Ok(true),
            Err(FolderFault::Exists) => Ok(false),
            Err(FolderFault::Device) => Err(HostFault::Device),
        },
    }
}

/// Stores to what exists and is open for writing, if it is still at the end of the links. Returns
/// whether it has stored.
fn store_over<R: Files>(
    rt: &R,
    alloc: Global,
    writes: &Writes,
    old: R::File,
    end: &End,
    bytes: &[u8],
) -> Result<bool, HostFault>
where
    R::File: AsFd,
    ensures { IfErr result IsOfDeviceOrMemory }
{
    let Ok(opened) = old.metadata() else {
        return Err(HostFault::Device);
    };
    let is_file = opened.is_file();
    if is_file && !writes.limit.holds(rt, bytes.len() as u64) {
        return Err(HostFault::Device);
    }
    let outcome = match method_of(is_file, end.is_link(), end.has(&opened)) {
        StoreMethod::InPlace => write_in_place(old, is_file, bytes),
        StoreMethod::Replaced => replace_file(rt, alloc, old, end, bytes),
        StoreMethod::Again => return Ok(false),
    };
    match outcome {
        Ok(()) => Ok(true),
        Err(fault) => Err(fault),
    }
}

impl End {
    /// Whether the links end at one of the system's own.
    fn is_link(&self) -> bool
        ensures { MatchOption self.now.found (result ≡ false) (λ found. IsTrue result ↔ IsSymlink (file_type found)) }
    {
        match &self.found {
            Some(found) => found.is_symlink(),
            None => false,
        }
    }

    /// Whether this file is what is there.
    fn has(&self, file: &Metadata) -> bool {
        match &self.found {
            Some(found) => is_same_file(file, found),
            None => false,
        }
    }
}

/// What a store does with what it has opened, by whether it is a plain file, whether a link of the
/// system's own leads to it, and whether it is still at the end of the links.
fn method_of(is_file: bool, is_by_system_link: bool, is_found: bool) -> StoreMethod
    ensures in_place { (result ≡ StoreMethod.InPlace) ↔ (is_file ≡ false ⊎ is_by_system_link ≡ true) }
    ensures replaced { (result ≡ StoreMethod.Replaced) ↔ (is_file ≡ true × is_by_system_link ≡ false × is_found ≡ true) }
{
    if !is_file || is_by_system_link {
        StoreMethod::InPlace
    } else if is_found {
        StoreMethod::Replaced
    } else {
        StoreMethod::Again
    }
}

/// Puts a new file of these bytes in place of the old one.
fn replace_file<R: Files>(
    rt: &R,
    alloc: Global,
    old: R::File,
    end: &End,
    bytes: &[u8],
) -> Result<(), HostFault>
where
    R::File: AsFd,
    ensures { IfErr result IsOfDeviceOrMemory }
{
    let mut file = NewFile::beside(rt, alloc, old, end.path.as_path())?;
    replace_by(&mut file, bytes)
}

/// Writes to what no new file can replace: a pipe, a device, or a file that is open already.
fn write_in_place<F: OpenFile + Write + Drop>(
    mut old: F,
    is_file: bool,
    bytes: &[u8],
) -> Result<(), HostFault>
    ensures { IfErr result (λ fault. fault ≡ HostFault.Device) }
{
    if is_file && old.set_len(0).is_err() {
        return Err(HostFault::Device);
    }
    or_device(write_to_end(&mut old, bytes))
}

/// Follows the links from a name to their end, except those of the system's own.
fn end_of_links<R: Files>(rt: &R, alloc: Global, name: &str) -> Result<End, HostFault>
    ensures { IfErr result IsOfDeviceOrMemory }
{
    let processes = device_of_processes(rt);
    let mut path = PathBuf::from_str(alloc, name).map_err(HostFault::Memory)?;
    for _ in 0..=most_links() {
        let found = match by_kind(fs::symlink_metadata(rt, path.as_path())) {
            Ok(found) => Some(found),
            Err(ErrorKind::NotFound) => None,
            Err(_) => return Err(HostFault::Device),
        };
        let is_followed = match &found {
            Some(found) => found.is_symlink() && !is_of_system(found.dev(), processes),
            None => false,
        };
        if !is_followed {
            return Ok(End { path, found });
        }
        path = linked(rt, alloc, path)?;
    }
    Err(HostFault::Device)
}

/// How many links are followed from a name: as many as the system follows.
fn most_links() -> u32
    ensures { result ≡ 40 }
{
    40
}

/// Whether a link on this device is one of the system's own, such as those for the streams of a
/// process: what they lead to is open already, and a new file would not be.
fn is_of_system(device: u64, processes: Option<u64>) -> bool
    ensures { (result ≡ true) ↔ (processes ≡ Some device) }
{
    processes == Some(device)
}

/// The path that the link at this path names.
fn linked<R: Files>(rt: &R, alloc: Global, mut path: PathBuf) -> Result<PathBuf, HostFault>
    ensures { IfErr result IsOfDeviceOrMemory }
{
    let link = match by_kind(rt.read_link(alloc, path.as_path().path_text())) {
        Ok(link) => link,
        Err(ErrorKind::OutOfMemory) => return Err(HostFault::Memory(AllocError)),
        Err(_) => return Err(HostFault::Device),
    };
    path.pop();
    path.push(link).map_err(HostFault::Memory)?;
    Ok(path)
}
