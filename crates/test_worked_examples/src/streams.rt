//! Readers and writers that fail, or that give and take little at a time.

use std::alloc::Global;
use std::io::{self, ErrorKind, Read, Write};
use test_cases::WhenFull;

/// Returns the error of a stream that fails.
fn broken() -> io::Error {
    io::Error::from(ErrorKind::BrokenPipe)
}

/// How a reader was called.
#[derive(Clone, Copy, Debug, PartialEq, Eq)]
pub struct Reads {
    pub reads: u64,
    /// The most bytes that a read asked for.
    pub most: usize,
    /// Whether there was a read after one that failed or ended.
    pub after_end: bool,
}

/// A reader that gives its bytes a few at a time, and then ends or fails.
#[derive(Drop)]
pub struct Pieces<'a> {
    left: &'a [u8],
    at_most: usize,
    fails: bool,
    ended: bool,
    requests: Reads,
}

impl<'a> Pieces<'a> {
    /// Returns a reader that gives at most this many bytes a read, and then fails or ends.
    pub fn of(bytes: &'a [u8], at_most: usize, fails: bool) -> Pieces<'a> {
        Pieces {
            left: bytes,
            at_most,
            fails,
            ended: false,
            requests: Reads {
                reads: 0,
                most: 0,
                after_end: false,
            },
        }
    }

    pub fn requests(&self) -> Reads {
        self.requests
    }
}

impl<'a> Read for Pieces<'a> {
    fn read(&mut self, buffer: &mut [u8]) -> io::Result<usize> {
        self.requests = Reads {
            reads: self.requests.reads.saturating_add(1),
            most: self.requests.most.max(buffer.len()),
            after_end: self.ended,
        };
        self.ended = self.left.is_empty();
        if self.fails && self.ended {
            return Err(broken());
        }
        let limit = buffer.len().min(self.at_most);
        self.left.read(&mut buffer[..limit])
    }
}

/// A writer that takes a limited number of bytes.
#[derive(Drop)]
pub struct Bounded {
    written: Vec<u8>,
    limit: usize,
    when_full: WhenFull,
    fails_at_flush: bool,
}

impl Bounded {
    /// Returns a writer that takes this many bytes, and then fails or takes nothing.
    pub fn with_limit(
        alloc: Global,
        limit: usize,
        when_full: WhenFull,
        fails_at_flush: bool,
    ) -> Bounded {
        Bounded {
            written: Vec::new(alloc),
            limit,
            when_full,
            fails_at_flush,
        }
    }

    pub fn written(&self) -> &[u8] {
        self.written.as_slice()
    }
}

impl Write for Bounded {
    fn write(&mut self, buffer: &[u8]) -> io::Result<usize> {
        if self.limit == 0 && self.when_full == WhenFull::Fails {
            return Err(broken());
        }
        let count = buffer.len().min(self.limit);
        self.written.extend_from_slice(&buffer[..count])?;
        self.limit -= count;
        Ok(count)
    }

    fn flush(&mut self) -> io::Result<()> {
        if self.fails_at_flush {
            Err(broken())
        } else {
            Ok(())
        }
    }
}
