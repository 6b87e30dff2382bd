//! Cutting a script into raw lines, and which of them are skipped.

ghost use Rattle.std.specs.Prelude.{◌≡◌, length};
ghost use Rattle.std.specs.Io.BufRead.{take_through};
ghost use Rattle.std.specs.Iterator.{YieldsFirstRef, item_count};
ghost use Rattle.script_text.specs.RawLines.{is_skipped, lines_of, text_of};

/// The most bytes that a line has before its LF.
pub const LINE_BYTES: usize = 1024;

/// The raw lines of a script, each with the LF that ends it, except that the last one may have no
/// LF.
#[derive(Drop)]
pub struct RawLines<'a>(pub &'a [u8]);

impl<'a> Iterator for RawLines<'a> {
    type Item = &'a [u8];

    ghost next_gives = { YieldsFirstRef (λ s. lines_of s.0.now) };

    ghost remaining = { item_count (λ s. lines_of s.0.now) };

    fn next(&mut self) -> Option<&'a [u8]> {
        if self.0.is_empty() {
            return None;
        }
        let (line, rest) = self.0.split_at(line_end(self.0));
        self.0 = rest;
        Some(line)
    }
}

/// How many bytes the first line has, including its LF.
fn line_end(script: &[u8]) -> usize
    ensures { result ≡ length (take_through 10 script.now) }
{
    match script.iter().position(|byte| *byte == b'\n') {
        Some(place) => place + 1,
        None => script.len(),
    }
}

/// The text of the line: without its LF, and without one CR right before it.
pub fn text(line: &[u8]) -> &[u8]
    ensures { result.now ≡ text_of line.now }
{
    match line {
        [text @ .., b'\r', b'\n'] => text,
        [text @ .., b'\n'] => text,
        _ => line,
    }
}

/// Whether the text has no command: it is empty, only spaces, or a comment after spaces.
pub fn is_skipped(text: &[u8]) -> bool
    ensures { result ≡ is_skipped text.now }
{
    match text.iter().find(|byte| **byte != b' ') {
        Some(first) => *first == b';',
        None => true,
    }
}
