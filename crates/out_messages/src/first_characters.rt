//! The first characters of a line as it is shown.
ghost use Rattle.std.specs.Prelude.{◌≡◌, IfOk};
ghost use Rattle.out_messages.specs.ShownStart.{begins_character, first_characters, shown_start};

use host_storage::push_shown;
use std::alloc::{AllocError, Global};

/// The most characters of a line that are shown.
const MOST_CHARACTERS: usize = 200;

/// The most bytes that they have.
const MOST_BYTES: usize = 800;

/// Returns the first 200 characters of a line as it is shown.
pub fn shown_start(alloc: Global, text: &[u8]) -> Result<Vec<u8>, AllocError>
    ensures { IfOk result (λ shown. shown.items ≡ shown_start text.now) }
{
    let mut shown = Vec::new(alloc);
    push_shown(&mut shown, &text[..MOST_BYTES.min(text.len())])?;
    let mut start = Vec::new(alloc);
    start.extend_from_slice(first_characters(shown.as_slice(), MOST_CHARACTERS))?;
    Ok(start)
}

/// Returns the first characters of a text, `most` at most.
fn first_characters(text: &[u8], most: usize) -> &[u8]
    ensures { result.now ≡ first_characters most text.now }
{
    let mut left = most;
    for (place, byte) in text.iter().enumerate() {
        if begins_character(*byte) {
            if left == 0 {
                return &text[..place];
            }
            left -= 1;
        }
    }
    text
}

/// Whether a character of UTF-8 begins with this byte.
fn begins_character(byte: u8) -> bool
    ensures { result ≡ begins_character byte }
{
    !(0x80 <= byte && byte <= 0xbf)
}
