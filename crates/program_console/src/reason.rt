//! Why a file could not be read or written, for people.
ghost use Rattle.std.specs.Prelude.{◌≡◌, OnOk};
ghost use Rattle.program_console.specs.Reasons.{IsReason, IsWriteReason, hint_of, reason_of_obstacle, reason_of_write_obstacle, reason_text, with_known_reason, with_reason};

use host_storage::{Host, HostFault, Obstacle, WriteObstacle};
use std::alloc::AllocError;

/// Why a file could not be read or written.
#[derive(Clone, Copy, PartialEq, Eq)]
pub enum Reason {
    /// There is nothing at its path.
    NoSuchFile,
    /// There is a folder at its path.
    Folder,
    /// The system does not let this process read what is there, or write there.
    NoPermission,
    /// There is a named pipe at its path.
    NamedPipe,
    /// It has more bytes than any file that is read here.
    TooLong,
    /// Its name is not UTF-8, and no other can be opened.
    NotUtf8,
    /// Its name in a list has more than 4,096 bytes.
    ListedNameTooLong,
    /// The folder that it is to be written to does not exist.
    NoFolder,
    /// The path that it is to be written to is not a folder.
    NotFolder,
    /// There is a folder at the path that it is to be written to.
    FolderThere,
    /// Its name is longer than the system allows.
    NameTooLong,
    /// The disk is read-only.
    ReadOnly,
    /// The disk is full.
    Full,
}

impl Reason {
    /// Returns the reason in plain words.
    pub fn text(self) -> &'static [u8]
        ensures { result.now ≡ reason_text self }
    {
        match self {
            Reason::NoSuchFile => b"no such file",
            Reason::Folder => b"a folder",
            Reason::NoPermission => b"no permission",
            Reason::NamedPipe => b"a named pipe",
            Reason::TooLong => b"longer than 16 MiB",
            Reason::NotUtf8 => b"its name is not UTF-8",
            Reason::ListedNameTooLong => b"its name has more than 4096 bytes",
            Reason::NoFolder => b"no such folder",
            Reason::NotFolder => b"not a folder",
            Reason::FolderThere => b"a folder is there",
            Reason::NameTooLong => b"its name is too long",
            Reason::ReadOnly => b"the disk is read-only",
            Reason::Full => b"the disk is full",
        }
    }

    /// Returns what can be done, if the reason does not make it plain.
    fn hint(self) -> &'static [u8]
        ensures { result.now ≡ hint_of self }
    {
        match self {
            Reason::Folder => {
                b"; check, files, extract and catalogue take the images in it: find FOLDER -name '*.d64' | d64sh check --files-from -"
            }
            Reason::NamedPipe => b"; store what comes by it in a file",
            _ => b"",
        }
    }

    /// Appends the reason, and what can be done, in brackets to a line, before its line feed.
    pub(crate) fn add_to(self, line: &mut Vec<u8>) -> Result<(), AllocError>
        ensures { OnOk result (line.new.items ≡ with_reason self line.old.items) }
    {
        if line.is_empty() {
            return Ok(());
        }
        line.truncate(line.len() - 1);
        line.extend_from_slice(b" (")?;
        line.extend_from_slice(self.text())?;
        line.extend_from_slice(self.hint())?;
        line.extend_from_slice(b")\n")
    }
}

impl From<Obstacle> for Reason {
    ghost from_gives = { λ seen reason. reason ≡ reason_of_obstacle seen };

    fn from(seen: Obstacle) -> Reason {
        match seen {
            Obstacle::Nothing => Reason::NoSuchFile,
            Obstacle::Folder => Reason::Folder,
            Obstacle::NoPermission => Reason::NoPermission,
            Obstacle::NamedPipe => Reason::NamedPipe,
        }
    }
}

/// Returns why a read of a file was refused with this fault, as far as its host can say.
pub fn reason_of<H: Host>(host: &H, name: &str, fault: HostFault) -> Option<Reason>
    ensures { IsReason (H.state host.now).files name.now fault result }
{
    match fault {
        HostFault::Missing => Some(Reason::NoSuchFile),
        HostFault::TooLong => Some(Reason::TooLong),
        HostFault::Device => Some(Reason::from(host.obstacle(name)?)),
        HostFault::Memory(_) => None,
    }
}

impl From<WriteObstacle> for Reason {
    ghost from_gives = { λ seen reason. reason ≡ reason_of_write_obstacle seen };

    fn from(seen: WriteObstacle) -> Reason {
        match seen {
            WriteObstacle::NoFolder => Reason::NoFolder,
            WriteObstacle::NotFolder => Reason::NotFolder,
            WriteObstacle::Folder => Reason::FolderThere,
            WriteObstacle::NoPermission => Reason::NoPermission,
            WriteObstacle::LongName => Reason::NameTooLong,
            WriteObstacle::ReadOnly => Reason::ReadOnly,
            WriteObstacle::Full => Reason::Full,
        }
    }
}

/// Returns why the last write, which was refused, could not be done at this path, as far as its
/// host can say.
pub fn reason_unwritten<H: Host>(host: &H, path: &str) -> Option<Reason>
    ensures { IsWriteReason (H.state host.now).files path.now result }
{
    Some(Reason::from(host.write_obstacle(path)?))
}

/// Appends a reason, if one is known, and what can be done, in brackets to a line, before its line
/// feed. An empty line stays empty.
pub fn push_known_reason(line: &mut Vec<u8>, reason: Option<Reason>) -> Result<(), AllocError>
    ensures { OnOk result (line.new.items ≡ with_known_reason reason line.old.items) }
{
    match reason {
        Some(reason) => reason.add_to(line),
        None => Ok(()),
    }
}
