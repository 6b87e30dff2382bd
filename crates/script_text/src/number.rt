//! The numbers among the words of a line.
ghost use Rattle.std.specs.Prelude.{◌≡◌};
ghost use Rattle.std.specs.Char.{is_ascii_digit};
ghost use Rattle.std.specs.List.{list_all};
ghost use Rattle.script_text.specs.Number.{number_of};

use std::str;

/// The most digits that a number has.
const MAX_DIGITS: usize = 3;

/// The number that a word spells in one to three decimal digits, of which the first may be zeros;
/// None if the word is anything else or the number is above 255. It allocates nothing.
#[tactic(auto, unfolding(crate::specs::Number::number_of))]
pub fn number(word: &[u8]) -> Option<u8>
    ensures { result ≡ number_of word.now }
{
    if word.is_empty() || word.len() > MAX_DIGITS || !is_digits(word) {
        return None;
    }
    str::from_utf8(word).unwrap().parse().ok()
}

/// Whether all bytes are decimal digits.
fn is_digits(word: &[u8]) -> bool
    ensures { result ≡ list_all is_ascii_digit word.now }
{
    word.iter().all(u8::is_ascii_digit)
}
