//! The number of files that are done of a long run, on one line of a terminal that is written over
//! and wiped at the end.

ghost use Rattle.std.specs.Prelude.{◌≡◌};
ghost use Rattle.std.specs.Io.{WritesAtMost};
ghost use Rattle.std.specs.Io.KnownBytes.{WriteAppends, Keeps};

use host_storage::{FolderFault, Host, HostFault, Obstacle, WriteObstacle};
use std::alloc::Global;
use std::cell::Cell;
use std::io::{self, Eprint, Write};
use std::rt::Clock;
use std::time::Instant;

/// The milliseconds between two updates: at most ten a second.
const PAUSE: u128 = 100;

/// The progress line of a terminal, if one is wanted. It is written over, and wiped before anything
/// else is written there.
#[derive(Drop)]
pub struct ProgressLine<'a, R> {
    rt: &'a R,
    is_wanted: bool,
    shown: Cell<Option<Instant>>,
    is_shown: Cell<bool>,
}

impl<'a, R: Clock + Eprint> ProgressLine<'a, R> {
    /// Returns a line that shows nothing yet.
    pub fn new(rt: &'a R, is_wanted: bool) -> ProgressLine<'a, R>
        ensures { result.is_wanted ≡ is_wanted }
    {
        ProgressLine {
            rt,
            is_wanted,
            shown: Cell::new(None),
            is_shown: Cell::new(false),
        }
    }

    /// Shows the number of files that are done, if the last update is old enough; the first one
    /// comes that long after the first call.
    fn show(&self, done: u64) {
        if !self.is_wanted || !self.is_due() {
            return;
        }
        if done > 0 {
            let noun = if done == 1 { "file" } else { "files" };
            let _ = eprint!(self.rt; "\r{done} {noun} done\x1b[K");
            self.is_shown.set(true);
        }
        self.shown.set(Instant::now(self.rt).ok());
    }

    /// Whether the last update is old enough, or there was none.
    fn is_due(&self) -> bool {
        match self.shown.get() {
            Some(shown) => match shown.elapsed(self.rt) {
                Ok(passed) => passed.as_millis() >= PAUSE,
                Err(_) => false,
            },
            None => true,
        }
    }

    /// Wipes the line if it is shown.
    pub fn wipe(&self) {
        if self.is_shown.get() {
            let _ = eprint!(self.rt; "\r\x1b[K");
            self.is_shown.set(false);
        }
    }
}

/// A host that counts each file that is read for a survey, and shows the count on the line.
#[derive(Drop)]
pub struct WatchedHost<'a, R, H> {
    line: &'a ProgressLine<'a, R>,
    host: H,
    done: u64,
}

impl<'a, R, H> WatchedHost<'a, R, H> {
    /// Returns a host of which no file was read.
    pub fn new(line: &'a ProgressLine<'a, R>, host: H) -> WatchedHost<'a, R, H>
        ensures host { result.host ≡ host }
        ensures unread { result.done ≡ 0 }
    {
        WatchedHost {
            line,
            host,
            done: 0,
        }
    }
}

impl<'a, R: Clock + Eprint, H: Host> Host for WatchedHost<'a, R, H> {
    type File = H::File;

    ghost state = { λ watched. H.state watched.host };

    fn fetch(&mut self, alloc: Global, name: &str, limit: usize) -> Result<Vec<u8>, HostFault> {
        self.host.fetch(alloc, name, limit)
    }

    fn fill(&mut self, name: &str, limit: usize, bytes: &mut Vec<u8>) -> Result<(), HostFault> {
        self.line.show(self.done);
        let outcome = self.host.fill(name, limit, bytes);
        self.done = self.done.saturating_add(1);
        outcome
    }

    fn open(&mut self, name: &str) -> Result<H::File, HostFault> {
        self.host.open(name)
    }

    fn count_failed_read(&mut self) {
        self.host.count_failed_read()
    }

    fn store(&mut self, alloc: Global, name: &str, bytes: &[u8]) -> Result<(), HostFault> {
        self.host.store(alloc, name, bytes)
    }

    fn is_there(&self, path: &str) -> bool {
        self.host.is_there(path)
    }

    fn obstacle(&self, path: &str) -> Option<Obstacle> {
        self.host.obstacle(path)
    }

    fn write_obstacle(&self, path: &str) -> Option<WriteObstacle> {
        self.host.write_obstacle(path)
    }

    fn make_folder(&mut self, path: &str) -> Result<(), FolderFault> {
        self.host.make_folder(path)
    }

    fn make_file(&mut self, path: &str, bytes: &[u8]) -> Result<(), FolderFault> {
        self.host.make_file(path, bytes)
    }

    fn make_whole_file(
        &mut self,
        alloc: Global,
        path: &str,
        bytes: &[u8],
    ) -> Result<(), FolderFault> {
        self.host.make_whole_file(alloc, path, bytes)
    }

    fn extend_file(&mut self, path: &str, bytes: &[u8]) -> Result<(), FolderFault> {
        self.host.extend_file(path, bytes)
    }

    fn rename_folder(&mut self, from: &str, to: &str) -> Result<(), FolderFault> {
        self.host.rename_folder(from, to)
    }

    fn failures(&self) -> u64 {
        self.host.failures()
    }
}

/// A writer to the terminal, which wipes the line first.
#[derive(Drop)]
pub struct WipingWriter<'a, R, W> {
    line: &'a ProgressLine<'a, R>,
    writer: W,
}

impl<'a, R, W> WipingWriter<'a, R, W> {
    /// Returns a writer that wipes this line.
    pub fn new(line: &'a ProgressLine<'a, R>, writer: W) -> WipingWriter<'a, R, W>
        ensures { result.writer ≡ writer }
    {
        WipingWriter { line, writer }
    }
}

impl<'a, R: Clock + Eprint, W: Write> Write for WipingWriter<'a, R, W> {
    ghost contents = { λ wiping. W.contents wiping.writer };

    fn write(&mut self, bytes: &[u8]) -> io::Result<usize>
        ensures bound { WritesAtMost result bytes.now }
        ensures bytes { WriteAppends (W.contents self.old.writer) (W.contents self.new.writer) result bytes.now }
    {
        self.line.wipe();
        self.writer.write(bytes)
    }

    fn flush(&mut self) -> io::Result<()>
        ensures { Keeps (W.contents self.old.writer) (W.contents self.new.writer) }
    {
        self.writer.flush()
    }
}
