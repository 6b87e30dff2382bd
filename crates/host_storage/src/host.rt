//! `Host`, which reads and stores files by their names, and why it refuses to.

ghost use Rattle.std.specs.Prelude.{◌≡◌, true, IfSome, OnOk};
ghost use Rattle.std.specs.FinMap.{contains_key};
ghost use Rattle.host_storage.specs.Files.{HostState};
ghost use Rattle.host_storage.specs.Folders.{folder_name, with_folder, with_stored_file, with_moved, Looks, Makes, Extends, CountsMaking};
ghost use Rattle.host_storage.specs.Obstacles.{LooksFor, LooksToWrite};
ghost use Rattle.host_storage.specs.Host.{fault_number, fetched_bytes, filled_bytes, opened_bytes, Fetches, Opens, Stores, CountsDevice, one_more_failure};

use std::alloc::{AllocError, Global};
use std::io::Read;
use thiserror::Error;

/// Why a host refuses a file.
#[derive(Clone, Copy, Debug, PartialEq, Eq, Error)]
pub enum HostFault {
    /// The host has no file of that name.
    #[error("no such file; check the name, and the folder that the shell was started in")]
    Missing,
    /// The system beneath the host failed, for example because a disk is full or a folder can't be
    /// read.
    #[error("the file cannot be read or written; check that it is a file, and that you may use it and its folder")]
    Device,
    /// The file has more bytes than the caller accepts.
    #[error("the file is too long for this; choose a shorter one")]
    TooLong,
    /// There is no memory for the bytes.
    #[error("out of memory")]
    Memory(AllocError),
}

impl HostFault {
    /// The number by which status lines name the fault: 1 missing, 2 device, 3 too long, 4 out of
    /// memory.
    pub fn number(self) -> u8
        ensures { result ≡ fault_number self }
    {
        match self {
            HostFault::Missing => 1,
            HostFault::Device => 2,
            HostFault::TooLong => 3,
            HostFault::Memory(_) => 4,
        }
    }
}

/// What prevents the reading of a file, as its path shows.
#[derive(Clone, Copy, PartialEq, Eq)]
pub enum Obstacle {
    /// Nothing is at the path.
    Nothing,
    /// A folder is at the path.
    Folder,
    /// The system does not let this process read what is there.
    NoPermission,
    /// A named pipe is at the path: to open it may wait for ever for its writer.
    NamedPipe,
}

/// What prevents writing a file or a folder, as far as a host knows.
#[derive(Clone, Copy, Debug, PartialEq, Eq)]
pub enum WriteObstacle {
    /// The folder that should have it does not exist.
    NoFolder,
    /// What should have it is no folder.
    NotFolder,
    /// A folder is at its path.
    Folder,
    /// The system does not let this process write there.
    NoPermission,
    /// Its name is longer than the system allows.
    LongName,
    /// The disk is read-only.
    ReadOnly,
    /// The disk is full.
    Full,
}

/// Why a host makes no new file or folder.
#[derive(Clone, Copy, Debug, PartialEq, Eq, Error)]
pub enum FolderFault {
    /// Something is at the path already: a file, a folder, or a link, also one that leads to
    /// nothing.
    #[error("is there already")]
    Exists,
    /// The system beneath the host failed, for example because the folder around the new one is
    /// missing, or a disk is full.
    #[error("cannot be written")]
    Device,
}

/// The place of files: each name has some bytes, or no file.
///
/// A host can expose its files to proofs, as one in memory does, or expose nothing, as one over a
/// disk that others write to. It counts the failures of its device.
pub trait Host {
    /// A file that is open for reading.
    type File: Read + Drop;

    // What it exposes: its files, if it exposes them, and how often its device failed.
    ghost state: { Self → HostState };

    /// The bytes of the named file, at most `limit`. `Missing` comes if there is no such file,
    /// `TooLong` if it has more bytes, and otherwise only `Device` or `Memory`.
    fn fetch(&mut self, alloc: Global, name: &str, limit: usize) -> Result<Vec<u8>, HostFault>
        ensures returned { Fetches (state self.old).files name.now limit (fetched_bytes result) }
        ensures files_kept { (state self.new).files ≡ (state self.old).files }
        ensures counted { CountsDevice (state self.old).failures (state self.new).failures result };

    /// Replaces `bytes` by the bytes of the named file, in the memory that it has, if that is
    /// enough. Errors come as from `fetch`, and a host may also refuse what could keep many files
    /// waiting, such as a named pipe. Then `bytes` has any content.
    fn fill(&mut self, name: &str, limit: usize, bytes: &mut Vec<u8>) -> Result<(), HostFault>
        ensures returned { Fetches (state self.old).files name.now limit (filled_bytes result bytes.new) }
        ensures files_kept { (state self.new).files ≡ (state self.old).files }
        ensures counted { CountsDevice (state self.old).failures (state self.new).failures result };

    /// Opens the named file for reading from its first byte on. `Missing` comes if there is no such
    /// file, and otherwise only `Device` or `Memory`. The reads give the file's bytes, whatever
    /// happens to the host.
    fn open(&mut self, name: &str) -> Result<Self::File, HostFault>
        ensures returned { Opens (state self.old).files name.now (opened_bytes Self.File.remaining result) }
        ensures files_kept { (state self.new).files ≡ (state self.old).files }
        ensures counted { CountsDevice (state self.old).failures (state self.new).failures result };

    /// Counts a read that failed of a file that was opened, as a call that returns `Device` is
    /// counted.
    fn count_failed_read(&mut self)
        ensures files_kept { (state self.new).files ≡ (state self.old).files }
        ensures counted { (state self.new).failures ≡ one_more_failure (state self.old).failures };

    /// Makes these bytes the content of the named file, which need not exist. An error is `Device`
    /// or `Memory`, and if the host exposes its files, none of them has changed.
    fn store(&mut self, alloc: Global, name: &str, bytes: &[u8]) -> Result<(), HostFault>
        ensures stored { Stores (state self.old).files name.now bytes.now result (state self.new).files }
        ensures counted { CountsDevice (state self.old).failures (state self.new).failures result };

    /// Whether something is at this path: a file, a folder, or a link, also one that leads to
    /// nothing. It is false if the system does not say.
    fn is_there(&self, path: &str) -> bool
        ensures returned { Looks (state self.now).files path.now result };

    /// What prevents the reading of the file at this path, as far as a look shows it. It gives the
    /// reason for a call that failed, and changes nothing.
    fn obstacle(&self, path: &str) -> Option<Obstacle>
        ensures obstacle { LooksFor (state self.now).files path.now result };

    /// What prevents the writing of the file or the folder at this path, as far as the host knows.
    /// It gives the reason for the last call that failed, and changes nothing.
    fn write_obstacle(&self, path: &str) -> Option<WriteObstacle>
        ensures obstacle { LooksToWrite (state self.now).files path.now result };

    /// Makes a folder. `Exists` comes if something is at the path already, and `Device` if the
    /// system fails, for example because the folder around it is missing.
    fn make_folder(&mut self, path: &str) -> Result<(), FolderFault>
        ensures made { Makes (with_folder path.now) (state self.old).files path.now result (state self.new).files }
        ensures counted { CountsMaking (state self.old).failures (state self.new).failures result };

    /// Makes a file of these bytes. Errors come as from `make_folder`. If writing fails, the file
    /// is removed again, as far as the system allows it.
    fn make_file(&mut self, path: &str, bytes: &[u8]) -> Result<(), FolderFault>
        ensures made { Makes (with_stored_file path.now bytes.now) (state self.old).files path.now result (state self.new).files }
        ensures counted { CountsMaking (state self.old).failures (state self.new).failures result };

    /// Makes a file of these bytes as `make_file` does, and waits for the disk. If the file system
    /// has hard links, and there is memory for the name of a draft, the path never has only a part
    /// of them, even if the process is killed while it writes.
    fn make_whole_file(
        &mut self,
        alloc: Global,
        path: &str,
        bytes: &[u8],
    ) -> Result<(), FolderFault>
        ensures made { Makes (with_stored_file path.now bytes.now) (state self.old).files path.now result (state self.new).files }
        ensures counted { CountsMaking (state self.old).failures (state self.new).failures result };

    /// Appends these bytes to an existing file. The error is `Device`, for example because there is
    /// no such file or a disk is full; the file may then have a first part of them.
    fn extend_file(&mut self, path: &str, bytes: &[u8]) -> Result<(), FolderFault>
        ensures extended { Extends path.now bytes.now (state self.old).files result (state self.new).files }
        ensures counted { CountsMaking (state self.old).failures (state self.new).failures result };

    /// Gives a folder, with all that is in it, another path, in one step. Errors come as from
    /// `make_folder`. An empty folder that others make at the new path at that very moment is
    /// replaced.
    fn rename_folder(&mut self, from: &str, to: &str) -> Result<(), FolderFault>
        ensures was { OnOk result (IfSome (state self.old).files (λ all. contains_key all (folder_name from.now) ≡ true)) }
        ensures made { Makes (with_moved from.now to.now) (state self.old).files to.now result (state self.new).files }
        ensures counted { CountsMaking (state self.old).failures (state self.new).failures result };

    /// How many calls returned `Device`, and how many failed reads were counted beside them. It
    /// stays at `u64::MAX` once it is there.
    fn failures(&self) -> u64
        ensures { result ≡ (state self.now).failures };
}
