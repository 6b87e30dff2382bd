//! Names of the host as they are shown.
ghost use Rattle.std.specs.Prelude.{◌≡◌, ◌≤◌, ◌<◌, ◌%◌, ◌++◌, ◌∷◌, length, take, drop, slice_index, unwrap_or, IsTrue, OnOk, IfOk, IfSome};
ghost use Rattle.std.specs.List.{list_all};
ghost use Rattle.host_storage.specs.Shown.{following_count, continues_at, is_second, six_bits, character_number, is_hidden, is_doubled, hidden_text, shown_character, shown_byte, shown_first, shown_in, shown_name, shown_json, is_plain};

use crate::hexadecimal::{digit_at, push_four_digits, push_hexadecimal};
use crate::medium::Medium;
use std::alloc::AllocError;

/// Whether the byte at a place continues a character.
fn continues_at(bytes: &[u8], place: usize) -> bool
    ensures value { result ≡ continues_at bytes.now place }
    ensures within { IsTrue result → place < length bytes.now }
{
    match bytes.get(place) {
        Some(byte) => 0x80 <= *byte && *byte <= 0xbf,
        None => false,
    }
}

/// Whether the first of the bytes after this one may be a character's second.
fn is_second(first: u8, rest: &[u8]) -> bool
    ensures value { result ≡ is_second first rest.now }
    ensures within { IsTrue result → 0 < length rest.now }
{
    let low = match first {
        0xe0 => 0xa0,
        0xf0 => 0x90,
        _ => 0x80,
    };
    let high = match first {
        0xed => 0x9f,
        0xf4 => 0x8f,
        _ => 0xbf,
    };
    match rest.first() {
        Some(byte) => low <= *byte && *byte <= high,
        None => false,
    }
}

/// How many bytes follow this one in a character that it begins; None if it begins no character.
#[tactic(auto, unfolding(crate::specs::Shown::following_count))]
fn following(first: u8, rest: &[u8]) -> Option<usize>
    ensures value { result ≡ following_count first rest.now }
    ensures within { IfSome result (λ count. count ≤ length rest.now) }
{
    match first {
        0..=0x7f => Some(0),
        0xc2..=0xdf if continues_at(rest, 0) => Some(1),
        0xe0..=0xef if is_second(first, rest) && continues_at(rest, 1) => Some(2),
        0xf0..=0xf4 if is_second(first, rest) && continues_at(rest, 1) && continues_at(rest, 2) => {
            Some(3)
        }
        _ => None,
    }
}

/// The bits that the byte at a place adds to the number of a character.
fn six_bits(rest: &[u8], place: usize) -> u32
    ensures value { result ≡ six_bits rest.now place }
    ensures small { result < 64 }
{
    match rest.get(place) {
        Some(byte) => u32::from(*byte % 64),
        None => 0,
    }
}

/// The number of the character with this first byte and `count` more.
#[tactic(auto, unfolding(crate::specs::Shown::character_number))]
fn character_number(first: u8, count: usize, rest: &[u8]) -> u32
    ensures { result ≡ character_number first count rest.now }
{
    let first = u32::from(first);
    match count {
        0 => first,
        1 => first % 32 * 64 + six_bits(rest, 0),
        2 => first % 16 * 4096 + six_bits(rest, 0) * 64 + six_bits(rest, 1),
        _ => {
            first % 8 * 262_144
                + six_bits(rest, 0) * 4096
                + six_bits(rest, 1) * 64
                + six_bits(rest, 2)
        }
    }
}

/// Whether a character controls a terminal, or turns the direction of text.
fn is_hidden(number: u32) -> bool
    ensures { result ≡ is_hidden number }
{
    matches!(number, 0..=0x1f | 0x7f..=0x9f | 0x61c | 0x200e..=0x200f | 0x202a..=0x202e | 0x2066..=0x2069)
}

/// Whether a character is written twice.
fn is_doubled(medium: Medium, number: u32) -> bool
    ensures { result ≡ is_doubled medium number }
{
    match medium {
        Medium::Text => number == u32::from(b'\\'),
        Medium::Json => false,
    }
}

/// Appends a hidden character by its number.
#[tactic(auto, unfolding(crate::specs::Shown::hidden_text))]
fn push_hidden(out: &mut Vec<u8>, medium: Medium, number: u32) -> Result<(), AllocError>
    ensures { OnOk result (out.new.items ≡ out.old.items ++ hidden_text medium number) }
{
    match medium {
        Medium::Text => {
            out.extend_from_slice(b"\\u{")?;
            push_hexadecimal(out, number)?;
            out.extend_from_slice(b"}")
        }
        Medium::Json => {
            out.extend_from_slice(b"\\u")?;
            push_four_digits(out, number)
        }
    }
}

/// Appends the character with this number and these bytes.
#[tactic(auto, unfolding(crate::specs::Shown::shown_character))]
fn push_character(
    out: &mut Vec<u8>,
    medium: Medium,
    number: u32,
    first: u8,
    more: &[u8],
) -> Result<(), AllocError>
    ensures { OnOk result (out.new.items ≡ out.old.items ++ shown_character medium number (first ∷ more.now)) }
{
    if is_doubled(medium, number) {
        return out.extend_from_slice(b"\\\\");
    }
    if is_hidden(number) {
        return push_hidden(out, medium, number);
    }
    out.push(first)?;
    out.extend_from_slice(more)
}

/// Appends a byte that begins no character.
#[tactic(auto, unfolding(crate::specs::Shown::shown_byte))]
fn push_byte(out: &mut Vec<u8>, medium: Medium, byte: u8) -> Result<(), AllocError>
    ensures { OnOk result (out.new.items ≡ out.old.items ++ shown_byte medium byte) }
{
    match medium {
        Medium::Text => out.extend_from_slice(&[
            b'\\',
            b'x',
            digit_at(16, u32::from(byte)),
            digit_at(1, u32::from(byte)),
        ]),
        Medium::Json => out.extend_from_slice(&[byte]),
    }
}

/// Appends the character that begins with this byte, or else the byte. Returns what follows it.
fn push_first<'a>(
    out: &mut Vec<u8>,
    medium: Medium,
    first: u8,
    rest: &'a [u8],
) -> Result<&'a [u8], AllocError>
    ensures shown { OnOk result (out.new.items ≡ out.old.items ++ shown_first medium first rest.now) }
    ensures left { IfOk result (λ left. left.now ≡ drop (unwrap_or (following_count first rest.now) 0) rest.now) }
{
    match following(first, rest) {
        Some(count) => {
            let (more, left) = rest.split_at(count);
            let number = character_number(first, count, rest);
            push_character(out, medium, number, first, more)?;
            Ok(left)
        }
        None => {
            push_byte(out, medium, first)?;
            Ok(rest)
        }
    }
}

/// Appends bytes as they are shown.
fn push_in(out: &mut Vec<u8>, medium: Medium, bytes: &[u8]) -> Result<(), AllocError>
    ensures { OnOk result (out.new.items ≡ out.old.items ++ shown_in medium bytes.now) }
{
    let mut left = bytes;
    while let [first, rest @ ..] = left {
        left = push_first(out, medium, *first, rest)?;
    }
    Ok(())
}

/// Appends a name as it is shown in text: a `\` doubled, control characters and direction marks by
/// their numbers as `\u{1b}`, bytes that aren't UTF-8 as `\xff`, and all else as it is.
#[tactic(auto, unfolding(crate::specs::Shown::shown_name))]
pub fn push_shown(out: &mut Vec<u8>, name: &[u8]) -> Result<(), AllocError>
    ensures { OnOk result (out.new.items ≡ out.old.items ++ shown_name name.now) }
{
    push_in(out, Medium::Text, name)
}

/// Whether a byte is ASCII and no control character, so that JSON shows it as it is.
fn is_plain(byte: u8) -> bool
    ensures { result ≡ is_plain byte }
{
    matches!(byte, 0x20..=0x7e)
}

/// Whether all bytes are plain.
fn are_plain(bytes: &[u8]) -> bool
    ensures { result ≡ list_all is_plain bytes.now }
{
    bytes.iter().all(|byte| is_plain(*byte))
}

/// Replaces control characters and direction marks by their numbers, as `\u007f`, in the JSON that
/// a text has from a place on.
#[tactic(auto, unfolding(crate::specs::Shown::shown_json))]
pub fn hide_in_json(text: &mut Vec<u8>, start: usize) -> Result<(), AllocError>
    requires { start ≤ length text.old.items }
    ensures { OnOk result (text.new.items ≡ take start text.old.items ++ shown_json (drop start text.old.items)) }
{
    if are_plain(&text[start..]) {
        return Ok(());
    }
    let raw = text.split_off(start)?;
    push_in(text, Medium::Json, raw.as_slice())
}
