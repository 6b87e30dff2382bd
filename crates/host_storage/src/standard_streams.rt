//! The standard streams of the process, and the files that are open as them.

ghost use Rattle.std.specs.Prelude.{◌≡◌, ◌≢◌, ◌↔◌, true};
ghost use Rattle.host_storage.specs.System.{position_path, stream_path};

use crate::process_status::number_after;
use std::fs::{self, Metadata};
use std::io::ErrorKind;
use std::os::unix::fs::MetadataExt;
use std::rt::Files;

/// A standard stream.
#[derive(Clone, Copy, PartialEq, Eq)]
pub enum StandardStream {
    /// The standard input.
    Input,
    /// The standard output.
    Output,
    /// The standard error.
    Error,
}

impl StandardStream {
    /// The system's metadata of what is open as this stream, if something is.
    pub fn metadata<R: Files>(self, rt: &R) -> Option<Metadata> {
        fs::metadata(rt, self.path()).ok()
    }

    /// Where the next write goes in the file that is open as this stream, unless it is appended to.
    pub fn position<R: Files>(self, rt: &R) -> u64 {
        number_after(rt, self.position_path(), "pos:").unwrap_or(0)
    }

    /// Where the system shows what is open as this stream.
    fn path(self) -> &'static str
        ensures { result.now ≡ stream_path self }
    {
        match self {
            StandardStream::Input => "/proc/self/fd/0",
            StandardStream::Output => "/proc/self/fd/1",
            StandardStream::Error => "/proc/self/fd/2",
        }
    }

    /// Where it shows how far that was read or written.
    fn position_path(self) -> &'static str
        ensures { result.now ≡ position_path self }
    {
        match self {
            StandardStream::Input => "/proc/self/fdinfo/0",
            StandardStream::Output => "/proc/self/fdinfo/1",
            StandardStream::Error => "/proc/self/fdinfo/2",
        }
    }
}

/// The system's metadata of what is open as each standard stream of the process, if something is.
#[derive(Drop)]
pub struct StandardStreams([Option<Metadata>; 3]);

impl StandardStreams {
    /// The streams of this process. They are looked up before anything is opened, which could get
    /// the descriptor of a stream that is closed.
    pub fn of_process<R: Files>(rt: &R) -> StandardStreams {
        StandardStreams([
            StandardStream::Input.metadata(rt),
            StandardStream::Output.metadata(rt),
            StandardStream::Error.metadata(rt),
        ])
    }

    /// Whether this file is open as one of them.
    fn have(&self, file: &Metadata) -> bool {
        for open in &self.0 {
            if let Some(open) = open
                && is_same_file(open, file)
            {
                return true;
            }
        }
        false
    }

    /// Whether the file of this name is open as one of them too, or may be, since the system does
    /// not say.
    pub fn may_have<R: Files>(&self, rt: &R, name: &str) -> bool {
        match fs::metadata(rt, name) {
            Ok(file) => self.have(&file),
            Err(error) => may_be_open(error.kind()),
        }
    }
}

/// Whether a file for which the system gives this error may be open: any but one that is not there.
fn may_be_open(kind: ErrorKind) -> bool
    ensures { (result ≡ true) ↔ (kind ≢ ErrorKind.NotFound) }
{
    kind != ErrorKind::NotFound
}

/// Whether two names lead to one file.
pub fn is_same_file(one: &Metadata, other: &Metadata) -> bool {
    one.dev() == other.dev() && one.ino() == other.ino()
}
