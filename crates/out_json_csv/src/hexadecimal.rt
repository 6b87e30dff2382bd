//! Bytes in hexadecimal digits.
ghost use Rattle.std.specs.Prelude.{◌≡◌, OnOk};
ghost use Rattle.std.specs.Str.{IsAscii};
ghost use Rattle.hex.specs.Hex.{encode_lower};

use hex::encode_to_slice;
use std::alloc::AllocError;

/// Hexadecimal digits are ASCII.
pub(crate) fn digits_are_ascii(bytes: &[u8])
    ensures { IsAscii (encode_lower bytes.now) }
{}

/// Replaces the text by bytes in hexadecimal digits, in small letters.
pub(crate) fn spell_hexadecimal(text: &mut Vec<u8>, bytes: &[u8]) -> Result<(), AllocError>
    ensures { OnOk result (text.new.items ≡ encode_lower bytes.now) }
{
    text.clear();
    text.resize(2 * bytes.len(), 0)?;
    encode_to_slice(bytes, text.as_mut_slice()).unwrap();
    Ok(())
}
