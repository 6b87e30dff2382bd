//! The characters of single bytes, and hexadecimal digits.

ghost use Rattle.std.specs.Prelude.{◌≡◌, ◌≢◌, ℕ, ◌<◌, MatchOption};
ghost use Rattle.std.specs.Char.{to_ascii_lowercase};
ghost use Rattle.petscii.specs.Spelling.{character, hex_digit};

/// The character that a byte of PETSCII shows as.
#[tactic(auto, unfolding(crate::specs::Spelling::character, crate::specs::Spelling::character_ranges))]
pub(crate) fn character_of(byte: u8) -> Option<u8>
    ensures { result ≡ character byte }
{
    match byte {
        0x20..=0x40 | 0x5b..=0x5f => Some(byte),
        0x41..=0x5a => Some(byte + (b'a' - 0x41)),
        0xc1..=0xda => Some(byte - (0xc1 - b'A')),
        0xff => Some(b'~'),
        _ => None,
    }
}

/// The byte of PETSCII that shows as a character.
#[tactic(auto, unfolding(crate::specs::Spelling::character, crate::specs::Spelling::character_ranges))]
pub(crate) fn byte_of_character(shown: u8) -> Option<u8>
    ensures { MatchOption result ((byte : ℕ) → character byte ≢ Some shown)
        (λ byte. (byte < 256) × (character byte ≡ Some shown)) }
{
    match shown {
        b' '..=b'@' | b'['..=b'_' => Some(shown),
        b'a'..=b'z' => Some(shown - (b'a' - 0x41)),
        b'A'..=b'Z' => Some(shown + (0xc1 - b'A')),
        b'~' => Some(0xff),
        _ => None,
    }
}

/// The hexadecimal digit of a number, in small letters.
#[tactic(auto, unfolding(crate::specs::Spelling::hex_digit))]
pub(crate) fn digit_of(number: u8) -> u8
    requires { number < 16 }
    ensures { result ≡ hex_digit number }
{
    b"0123456789abcdef"[usize::from(number)]
}

/// The number of a hexadecimal digit in either case.
#[tactic(auto, using(crate::proofs::Digits::digit_by_range))]
pub(crate) fn number_of(digit: u8) -> Option<u8>
    ensures { MatchOption result ((n : ℕ) → n < 16 → to_ascii_lowercase digit ≢ hex_digit n)
        (λ n. (n < 16) × (to_ascii_lowercase digit ≡ hex_digit n)) }
{
    match digit {
        b'0'..=b'9' => Some(digit - b'0'),
        b'a'..=b'f' => Some(digit - b'a' + 10),
        b'A'..=b'F' => Some(digit - b'A' + 10),
        _ => None,
    }
}
