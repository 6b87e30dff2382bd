//! Hexadecimal digits.
ghost use Rattle.std.specs.Prelude.{◌≡◌, ◌<◌, [], ◌∷◌, ◌++◌, OnOk};
ghost use Rattle.host_storage.specs.Shown.{digit_at, digit_from, hexadecimal, four_digits};

use std::alloc::AllocError;

/// The digit of a number at the place with this worth, in small letters.
#[tactic(auto, unfolding(petscii::specs::Spelling::hex_digit))]
pub(crate) fn digit_at(worth: u32, number: u32) -> u8
    requires { 0 < worth }
    ensures { result ≡ digit_at worth number }
{
    b"0123456789abcdef"[(number / worth % 16) as usize]
}

/// Appends the digit at a place, if the number reaches it.
fn push_digit(out: &mut Vec<u8>, worth: u32, number: u32) -> Result<(), AllocError>
    requires { 0 < worth }
    ensures { OnOk result (out.new.items ≡ out.old.items ++ digit_from worth number) }
{
    if number < worth {
        return Ok(());
    }
    out.push(digit_at(worth, number))?;
    Ok(())
}

/// Appends a number below 65536 without zeros in front.
#[tactic(auto, unfolding(crate::specs::Shown::hexadecimal))]
pub(crate) fn push_hexadecimal(out: &mut Vec<u8>, number: u32) -> Result<(), AllocError>
    ensures { OnOk result (out.new.items ≡ out.old.items ++ hexadecimal number) }
{
    push_digit(out, 4096, number)?;
    push_digit(out, 256, number)?;
    push_digit(out, 16, number)?;
    out.push(digit_at(1, number))?;
    Ok(())
}

/// Appends a number below 65536 in four digits.
#[tactic(auto, unfolding(crate::specs::Shown::four_digits))]
pub(crate) fn push_four_digits(out: &mut Vec<u8>, number: u32) -> Result<(), AllocError>
    ensures { OnOk result (out.new.items ≡ out.old.items ++ four_digits number) }
{
    out.extend_from_slice(&[
        digit_at(4096, number),
        digit_at(256, number),
        digit_at(16, number),
        digit_at(1, number),
    ])
}
