//! A note of whether a read has failed.
ghost use Rattle.std.specs.Prelude.{◌≡◌, true, false, MatchResult};
ghost use Rattle.std.specs.Io.{ReadsAtMost};
ghost use Rattle.std.specs.Io.KnownBytes.{ReadConsumes};

use std::io::{self, Read};

/// Whether a read has failed. Only a read that fails sets it, so that no other fault can be taken
/// for one of a reader.
#[derive(Drop)]
pub struct ReadNote {
    has_failed: bool,
}

impl ReadNote {
    /// The note of a reader of which no read has failed.
    pub fn new() -> ReadNote
        ensures { result.has_failed ≡ false }
    {
        ReadNote { has_failed: false }
    }

    /// Reads, and notes whether that fails.
    pub fn read<R: Read>(&mut self, reader: &mut R, buffer: &mut [u8]) -> io::Result<usize>
        ensures bound { ReadsAtMost result buffer.new }
        ensures bytes { ReadConsumes (R.remaining reader.old) (R.remaining reader.new) result buffer.new }
        ensures noted { MatchResult result (λ _. self.new.has_failed ≡ self.old.has_failed) (λ _. self.new.has_failed ≡ true) }
    {
        let outcome = reader.read(buffer);
        if outcome.is_err() {
            self.has_failed = true;
        }
        outcome
    }
}
