//! Output whose reader has gone, as before `| head`.

ghost use Rattle.std.specs.Prelude.{◌≡◌};
ghost use Rattle.std.specs.Io.{WritesAtMost};
ghost use Rattle.std.specs.Io.KnownBytes.{WriteAppends, Keeps};

use std::cell::Cell;
use std::io::{self, ErrorKind, Write};

/// The output. If it marks, it sets a flag once a write finds that its reader has gone.
#[derive(Drop)]
pub struct MarkingWriter<'a, W> {
    is_unread: &'a Cell<bool>,
    is_marking: bool,
    writer: W,
}

impl<'a, W> MarkingWriter<'a, W> {
    /// Returns a writer to the output; `is_marking` says whether it sets the flag.
    pub fn new(is_unread: &'a Cell<bool>, is_marking: bool, writer: W) -> MarkingWriter<'a, W>
        ensures marking { result.is_marking ≡ is_marking }
        ensures writer { result.writer ≡ writer }
    {
        MarkingWriter {
            is_unread,
            is_marking,
            writer,
        }
    }
}

impl<'a, W: Write> Write for MarkingWriter<'a, W> {
    ghost contents = { λ marking. W.contents marking.writer };

    fn write(&mut self, bytes: &[u8]) -> io::Result<usize>
        ensures bound { WritesAtMost result bytes.now }
        ensures bytes { WriteAppends (W.contents self.old.writer) (W.contents self.new.writer) result bytes.now }
    {
        let outcome = self.writer.write(bytes);
        if let Err(error) = &outcome {
            if self.is_marking && error.kind() == ErrorKind::BrokenPipe {
                self.is_unread.set(true);
            }
        }
        outcome
    }

    fn flush(&mut self) -> io::Result<()>
        ensures { Keeps (W.contents self.old.writer) (W.contents self.new.writer) }
    {
        self.writer.flush()
    }
}

/// A writer that drops everything once the output's reader has gone.
#[derive(Drop)]
pub struct QuietWriter<'a, W> {
    is_unread: &'a Cell<bool>,
    writer: W,
}

impl<'a, W> QuietWriter<'a, W> {
    /// Returns a writer that shares the output's flag.
    pub fn new(is_unread: &'a Cell<bool>, writer: W) -> QuietWriter<'a, W>
        ensures { result.writer ≡ writer }
    {
        QuietWriter { is_unread, writer }
    }
}

impl<'a, W: Write> Write for QuietWriter<'a, W> {
    ghost contents = { λ quiet. W.contents quiet.writer };

    fn write(&mut self, bytes: &[u8]) -> io::Result<usize>
        ensures bound { WritesAtMost result bytes.now }
        ensures bytes { WriteAppends (W.contents self.old.writer) (W.contents self.new.writer) result bytes.now }
    {
        if self.is_unread.get() {
            return Err(io::Error::from(ErrorKind::BrokenPipe));
        }
        self.writer.write(bytes)
    }

    fn flush(&mut self) -> io::Result<()>
        ensures { Keeps (W.contents self.old.writer) (W.contents self.new.writer) }
    {
        self.writer.flush()
    }
}
