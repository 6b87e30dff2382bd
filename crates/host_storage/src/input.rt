//! Reading an input within the limits of a script.

ghost use Rattle.std.specs.Prelude.{◌≡◌, ◌+◌, true, false, length, is_err, MatchResult};
ghost use Rattle.std.specs.Io.{ReadsAtMost};
ghost use Rattle.std.specs.Io.KnownBytes.{ReadConsumes};
ghost use Rattle.host_storage.specs.Input.{IsUnread, MayBeRead, read_limit, reading_of};

use crate::output::OutputStream;
use std::io::{Read, Result, Write};

/// The most bytes that are taken of an input, or of a file that the program reads: of a script, a
/// list, an image, a program or a text.
pub const INPUT_BYTES: usize = 16_777_216;

/// The most reads that are made of an input, including the one that finds the end.
pub const INPUT_READS: u32 = 1_000_000;

/// The most bytes that one read asks for.
pub const READ_BYTES: usize = 4096;

/// A reader that counts its reads and the bytes that they gave, and knows whether one of them
/// failed.
#[derive(Drop)]
pub struct InputStream<'r, R: Read> {
    reader: &'r mut R,
    reads: u32,
    came: usize,
    has_failed: bool,
}

impl<'r, R: Read> InputStream<'r, R> {
    /// An input of which nothing was read.
    pub fn new(reader: &'r mut R) -> Self
        ensures same { result.reader.ghost_name ≡ reader.entry.ghost_name }
        ensures kept { result.reader.now ≡ reader.old }
        ensures unread { IsUnread (reading_of result.reads result.came result.has_failed) }
    {
        InputStream {
            reader,
            reads: 0,
            came: 0,
            has_failed: false,
        }
    }

    /// Whether a read failed.
    pub fn has_failed(&self) -> bool
        ensures { result ≡ self.now.has_failed }
    {
        self.has_failed
    }

    /// Reads once, after all that was written to the output was delivered.
    pub fn read_after<W: Write>(
        &mut self,
        _output: &OutputStream<'_, W>,
        buffer: &mut [u8],
    ) -> Result<usize>
        requires delivered { _output.now.is_delivered ≡ true }
        requires open { MayBeRead (reading_of self.old.reads self.old.came self.old.has_failed) }
        requires size { length buffer.old ≡ read_limit }
        ensures same { self.new.reader.ghost_name ≡ self.old.reader.ghost_name }
        ensures bound { ReadsAtMost result buffer.new }
        ensures bytes { ReadConsumes (R.remaining self.old.reader.now) (R.remaining self.new.reader.now) result buffer.new }
        ensures counted { self.new.reads ≡ self.old.reads + 1 }
        ensures came { MatchResult result (λ count. self.new.came ≡ self.old.came + count) (λ _. self.new.came ≡ self.old.came) }
        ensures failed { self.new.has_failed ≡ is_err result }
    {
        self.read(buffer)
    }

    /// Reads once.
    pub fn read(&mut self, buffer: &mut [u8]) -> Result<usize>
        requires open { MayBeRead (reading_of self.old.reads self.old.came self.old.has_failed) }
        requires size { length buffer.old ≡ read_limit }
        ensures same { self.new.reader.ghost_name ≡ self.old.reader.ghost_name }
        ensures bound { ReadsAtMost result buffer.new }
        ensures bytes { ReadConsumes (R.remaining self.old.reader.now) (R.remaining self.new.reader.now) result buffer.new }
        ensures counted { self.new.reads ≡ self.old.reads + 1 }
        ensures came { MatchResult result (λ count. self.new.came ≡ self.old.came + count) (λ _. self.new.came ≡ self.old.came) }
        ensures failed { self.new.has_failed ≡ is_err result }
    {
        self.reads += 1;
        let result = self.reader.read(buffer);
        match &result {
            Ok(count) => self.came += *count,
            Err(_) => self.has_failed = true,
        }
        result
    }
}
