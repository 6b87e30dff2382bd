//! The line of a script that is being read, held in a fixed buffer.

ghost use Rattle.std.specs.Prelude.{◌≡◌, ◌≤◌, ◌++◌, ◌∷◌, [], ◌==◌, ℕ, List, true, false, length, IfSome, MatchOption};
ghost use Rattle.std.specs.Io.BufRead.{ends_with_byte};
ghost use Rattle.script_text.specs.RawLines.{is_too_long, line_limit, text_of};
ghost use Rattle.script_text.specs.HeldLine.{HoldsLine, IsOpen, HoldsText};

use crate::raw_lines::LINE_BYTES;
use arrayvec::ArrayVec;

/// The bytes of a line before its LF, as far as they were read. Of a line of more than `LINE_BYTES`
/// bytes only that it is too long is kept.
#[derive(Drop)]
pub struct HeldLine {
    bytes: ArrayVec<u8, LINE_BYTES>,
    is_long: bool,
}

impl HeldLine {
    /// A line of which nothing was read.
    pub fn new() -> HeldLine
        ensures { HoldsLine result [] }
    {
        HeldLine {
            bytes: ArrayVec::new(),
            is_long: false,
        }
    }

    /// Empties the line, for the next one.
    pub fn clear(&mut self)
        ensures { HoldsLine self.new [] }
    {
        self.bytes.clear();
        self.is_long = false;
    }

    /// Whether nothing was read of the line. If the script ends here, all that was read is the
    /// line's text, also a CR at its end.
    pub fn is_empty(&self) -> bool
        ensures empty { (before : List ℕ) → HoldsLine self.now before → result ≡ (length before == 0) }
        ensures text { (before : List ℕ) → HoldsLine self.now before → IsOpen before → HoldsText self.now before }
    {
        self.bytes.as_slice().is_empty() && !self.is_long
    }

    /// Appends the next bytes of the line.
    pub fn push(&mut self, bytes: &[u8])
        ensures { (before : List ℕ) → HoldsLine self.old before → HoldsLine self.new (before ++ bytes.now) }
    {
        if self.bytes.try_extend_from_slice(bytes).is_err() {
            self.is_long = true;
        }
    }

    /// Ends the line with its LF: a CR right before it is not part of the text.
    pub fn end_with_line_feed(&mut self)
        ensures { (before : List ℕ) → HoldsLine self.old before → IsOpen before → HoldsText self.new (before ++ 10 ∷ []) }
    {
        if ends_with_carriage_return(self.bytes.as_slice()) {
            let _ = self.bytes.pop();
        }
    }

    /// The text of the line, or None if it is too long.
    pub fn text(&self) -> Option<&[u8]>
        ensures fits { IfSome result (λ text. length text.now ≤ line_limit) }
        ensures says { (raw : List ℕ) → HoldsText self.now raw → MatchOption result
            (is_too_long raw ≡ true)
            (λ text. (is_too_long raw ≡ false) × (text_of raw ≡ text.now)) }
    {
        if self.is_long {
            return None;
        }
        Some(self.bytes.as_slice())
    }
}

/// Whether the last byte is a CR.
fn ends_with_carriage_return(bytes: &[u8]) -> bool
    ensures { result ≡ ends_with_byte 13 bytes.now }
{
    bytes.last() == Some(&b'\r')
}
