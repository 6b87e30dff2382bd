//! Writing to a file no further than the system lets it grow.

ghost use Rattle.std.specs.Prelude.{◌≡◌};
ghost use Rattle.std.specs.Io.{WritesAtMost};
ghost use Rattle.std.specs.Io.KnownBytes.{WriteAppends, Keeps};

use host_storage::{SizeLimit, StandardStream};
use std::io::{self, ErrorKind, Write};
use std::rt::Files;

/// A writer to a standard stream, which fails if that is a file that may not grow further: the
/// system would end the process by a signal.
#[derive(Drop)]
pub struct WithinLimit<'a, R, W> {
    rt: &'a R,
    limit: &'a SizeLimit,
    stream: StandardStream,
    writer: W,
}

impl<'a, R, W> WithinLimit<'a, R, W> {
    /// Returns a writer to this stream, under the limit of the process.
    pub fn new(
        rt: &'a R,
        limit: &'a SizeLimit,
        stream: StandardStream,
        writer: W,
    ) -> WithinLimit<'a, R, W>
        ensures stream { result.stream ≡ stream }
        ensures writer { result.writer ≡ writer }
    {
        WithinLimit {
            rt,
            limit,
            stream,
            writer,
        }
    }
}

impl<'a, R: Files, W: Write> Write for WithinLimit<'a, R, W> {
    ghost contents = { λ limited. W.contents limited.writer };

    fn write(&mut self, bytes: &[u8]) -> io::Result<usize>
        ensures bound { WritesAtMost result bytes.now }
        ensures bytes { WriteAppends (W.contents self.old.writer) (W.contents self.new.writer) result bytes.now }
    {
        if self.limit.is_reached_by(self.rt, self.stream) {
            return Err(io::Error::from(ErrorKind::FileTooLarge));
        }
        self.writer.write(bytes)
    }

    fn flush(&mut self) -> io::Result<()>
        ensures { Keeps (W.contents self.old.writer) (W.contents self.new.writer) }
    {
        self.writer.flush()
    }
}
