//! The lines of a BASIC text: the number, and what follows it.

ghost use Rattle.std.specs.Prelude.{position, ◌≡◌, ◌≢◌, ℕ, true, ◌≤◌, ◌<◌, ◌^◌, ◌==◌, [], IfOk, IfErr, MatchOption, MatchResult, drop, length};
ghost use Rattle.std.specs.Char.{is_ascii_digit};
ghost use Rattle.std.specs.List.{before_first, position_or_len, list_all};
ghost use Rattle.cbm_text.specs.TextLine.{is_no_space, is_no_digit, unspaced_line, number_digits, line_number, fitting_number, rest_of, without_space};
ghost use Rattle.cbm_text.specs.BasicText.{IsNumbered, HasFault};

use crate::fault::BasicFault;
use std::str;

/// The number of a text line, and what follows it and one space. A fault has the line's place in
/// the text.
pub(crate) fn split_number(text: &[u8], place: usize) -> Result<(u16, &[u8]), BasicFault>
    ensures { MatchResult result
        (λ found. IsNumbered text.now × (found.0 ≡ line_number text.now) × (found.1.now ≡ rest_of text.now))
        (λ fault. (at : ℕ) → HasFault at place text.now fault) }
{
    let (digits, rest) = split_digits(after_spaces(text));
    if digits.is_empty() {
        return Err(BasicFault::NoNumber { line: place });
    }
    match value_of(digits) {
        Some(number) => Ok((number, after_space(rest))),
        None => Err(BasicFault::NumberTooLarge { line: place }),
    }
}

/// What follows the number of a text line and one space.
pub(crate) fn rest_of(text: &[u8]) -> &[u8]
    ensures { result.now ≡ rest_of text.now }
{
    let (_, rest) = split_digits(after_spaces(text));
    after_space(rest)
}

/// A text line without the spaces at its beginning.
fn after_spaces(text: &[u8]) -> &[u8]
    ensures { result.now ≡ unspaced_line text.now }
{
    let spaces = first_other_than_space(text).unwrap_or(text.len());
    &text[spaces..]
}

/// The place of the first byte that is no space.
fn first_other_than_space(text: &[u8]) -> Option<usize>
    ensures { result ≡ position is_no_space text.now }
{
    text.iter().position(|byte| *byte != b' ')
}

/// The digits at the beginning of a text, and what follows them.
fn split_digits(text: &[u8]) -> (&[u8], &[u8])
    ensures digits { result.0.now ≡ before_first is_no_digit text.now }
    ensures rest { result.1.now ≡ drop (position_or_len is_no_digit text.now) text.now }
{
    let digits = first_other_than_digit(text).unwrap_or(text.len());
    (&text[..digits], &text[digits..])
}

/// The place of the first byte that is no digit.
fn first_other_than_digit(text: &[u8]) -> Option<usize>
    ensures { result ≡ position is_no_digit text.now }
{
    text.iter().position(|byte| !byte.is_ascii_digit())
}

/// A text without the one space that may be at its beginning.
fn after_space(text: &[u8]) -> &[u8]
    ensures { result.now ≡ without_space text.now }
{
    match text {
        [b' ', rest @ ..] => rest,
        _ => text,
    }
}

/// The number that digits spell, if it is at most 65535.
fn value_of(digits: &[u8]) -> Option<u16>
    requires some { 0 < length digits.now }
    requires digits { list_all is_ascii_digit digits.now ≡ true }
    ensures { result ≡ fitting_number digits.now }
{
    str::from_utf8(digits).unwrap().parse().ok()
}
