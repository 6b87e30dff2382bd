//! The units of a text: a `{` up to the next `}`, or one byte.

ghost use Rattle.std.specs.Prelude.{◌≡◌, ◌==◌, ℕ, [], ◌∷◌, position, IfOk, IfErr, MatchOption};
ghost use Rattle.std.specs.Str.{str_to_ascii_lowercase};
ghost use Rattle.petscii.specs.Spelling.{dollar};
ghost use Rattle.petscii.specs.TextForm.{open_brace, close_brace, Names, BeginsWith};
ghost use Rattle.petscii.specs.TextFault.{BeginsFault};

use crate::character::{byte_of_character, number_of};
use crate::control::code_of_name;
use crate::fault::TextFault;

/// Reads the unit that begins with a byte at a place of a text. Returns the byte that the unit
/// stands for, and what follows the unit.
pub(crate) fn read_unit(first: u8, after: &[u8], place: usize) -> Result<(u8, &[u8]), TextFault>
    ensures read { IfOk result (λ unit. BeginsWith (first ∷ after.now) unit.0 unit.1.now) }
    ensures fault { IfErr result (BeginsFault place (first ∷ after.now)) }
{
    if first == b'{' {
        return read_name(after, place);
    }
    match byte_of_character(first) {
        Some(byte) => Ok((byte, after)),
        None => Err(TextFault::BadByte { place }),
    }
}

/// Reads the unit whose `{` is at a place of a text, from the byte after the `{` on. Returns as
/// `read_unit` does.
fn read_name(after: &[u8], place: usize) -> Result<(u8, &[u8]), TextFault>
    ensures read { IfOk result (λ unit. BeginsWith (open_brace ∷ after.now) unit.0 unit.1.now) }
    ensures fault { IfErr result (BeginsFault place (open_brace ∷ after.now)) }
{
    let Some(length) = close_place(after) else {
        return Err(TextFault::OpenBrace { place });
    };
    match byte_of_name(&after[..length]) {
        Some(byte) => Ok((byte, &after[length + 1..])),
        None => Err(TextFault::UnknownName { place }),
    }
}

/// The offset of the first `}`.
fn close_place(text: &[u8]) -> Option<usize>
    ensures { result ≡ position (λ byte. byte == close_brace) text.now }
{
    text.iter().position(|byte| *byte == b'}')
}

/// The byte that a name in braces stands for, in either case of its letters.
#[tactic(auto, unfolding(crate::specs::TextForm::Names))]
fn byte_of_name(name: &[u8]) -> Option<u8>
    ensures { MatchOption result
        ((byte : ℕ) → ¬ (Names (str_to_ascii_lowercase name.now) byte))
        (Names (str_to_ascii_lowercase name.now)) }
{
    match name {
        [b'$', high, low] => byte_of_digits(*high, *low),
        _ => code_of_name(name),
    }
}

/// The byte of two hexadecimal digits in either case.
fn byte_of_digits(high: u8, low: u8) -> Option<u8>
    ensures { MatchOption result
        ((byte : ℕ) → ¬ (Names (str_to_ascii_lowercase (dollar ∷ high ∷ low ∷ [])) byte))
        (Names (str_to_ascii_lowercase (dollar ∷ high ∷ low ∷ []))) }
{
    match (number_of(high), number_of(low)) {
        (Some(high), Some(low)) => Some(high * 16 + low),
        _ => None,
    }
}
