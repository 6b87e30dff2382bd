//! The group code, in which a track holds its bytes.
ghost use Rattle.std.specs.Prelude.{◌≡◌, ◌<◌, IfSome};
ghost use Rattle.d64_g64.specs.Codes.{nibble_of, byte_of_bits, value_at, value_or_zero, is_value, xor_of, are_equal_values};

use crate::circle::{around, ten_bits};
use crate::start::Start;

/// The nibble of each code of five bits, and 16 for bits that are no code.
const NIBBLES: [u8; 32] = [
    16, 16, 16, 16, 16, 16, 16, 16, 16, 8, 0, 1, 16, 12, 4, 5, 16, 16, 2, 3, 16, 15, 6, 7, 16, 9,
    10, 11, 16, 13, 14, 16,
];

/// The nibble of a code of five bits, or None if it is no code.
fn nibble_of(code: u32) -> Option<u8>
    requires { code < 32 }
    ensures value { result ≡ nibble_of code }
    ensures below { IfSome result (λ nibble. nibble < 16) }
{
    let nibble = NIBBLES[code as usize];
    if nibble < 16 { Some(nibble) } else { None }
}

/// The byte of ten bits, or None if one of its two halves is no code.
#[tactic(auto, unfolding(crate::specs::Codes::byte_of_bits))]
fn byte_of_bits(bits: u32) -> Option<u8>
    requires { bits < 1024 }
    ensures { result ≡ byte_of_bits bits }
{
    match (nibble_of(bits / 32), nibble_of(bits % 32)) {
        (Some(high), Some(low)) => Some(16 * high + low),
        _ => None,
    }
}

/// Byte k from a start, from 0, or None if it has no value.
pub(crate) fn value_at(start: &Start<'_>, k: usize) -> Option<u8>
    requires { k < 258 }
    ensures { result ≡ value_at start.now.track start.now.place k }
{
    byte_of_bits(ten_bits(start.track, around(start.track, start.place + 10 * k)))
}

/// A value, or 0 if there is no value.
pub(crate) fn value_or_zero(found: Option<u8>) -> u8
    ensures { result ≡ value_or_zero found }
{
    found.unwrap_or(0)
}

/// Whether there is a value, and it is this one.
pub(crate) fn is_value(found: Option<u8>, wanted: u8) -> bool
    ensures { result ≡ is_value found wanted }
{
    found == Some(wanted)
}

/// The exclusive or of two values, or None if one of them is missing.
pub(crate) fn xor_of(one: Option<u8>, other: Option<u8>) -> Option<u8>
    ensures { result ≡ xor_of one other }
{
    match (one, other) {
        (Some(value), Some(second)) => Some(value ^ second),
        _ => None,
    }
}

/// Whether both values are there and equal.
pub(crate) fn are_equal(one: Option<u8>, other: Option<u8>) -> bool
    ensures { result ≡ are_equal_values one other }
{
    match other {
        Some(value) => is_value(one, value),
        None => false,
    }
}
