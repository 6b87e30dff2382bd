//! Members of a JSON object, one at a time.
ghost use Rattle.std.specs.Prelude.{[], ◌∷◌};
ghost use Rattle.json.specs.Json.{boolean, null, string};
ghost use Rattle.hex.specs.Hex.{encode_lower};
ghost use Rattle.out_json_csv.specs.Values.{PrintsMembers, numeral};
ghost use Rattle.out_json_csv.specs.Pairs.{pair_field};

use crate::hexadecimal::{digits_are_ascii, spell_hexadecimal};
use crate::pair::pair_text;
use json::Writer;
use std::alloc::AllocError;
use std::str;

/// Prints a member whose value is a number.
pub fn put_number(writer: &mut Writer, key: &str, number: u64) -> Result<(), AllocError>
    ensures { PrintsMembers result writer.old writer.new ((key.now, numeral number) ∷ []) }
{
    writer.key(key)?;
    writer.u64(number)
}

/// Prints a member whose value is true or false.
pub fn put_boolean(writer: &mut Writer, key: &str, value: bool) -> Result<(), AllocError>
    ensures { PrintsMembers result writer.old writer.new ((key.now, boolean value) ∷ []) }
{
    writer.key(key)?;
    writer.boolean(value)
}

/// Prints a member whose value is a text.
pub fn put_text(writer: &mut Writer, key: &str, text: &str) -> Result<(), AllocError>
    ensures { PrintsMembers result writer.old writer.new ((key.now, string text.now) ∷ []) }
{
    writer.key(key)?;
    writer.string(text)
}

/// Prints a member whose value is null.
pub fn put_null(writer: &mut Writer, key: &str) -> Result<(), AllocError>
    ensures { PrintsMembers result writer.old writer.new ((key.now, null) ∷ []) }
{
    writer.key(key)?;
    writer.null()
}

/// Prints a member whose value is bytes in hexadecimal digits.
pub fn put_hexadecimal(
    scratch: &mut Vec<u8>,
    writer: &mut Writer,
    key: &str,
    bytes: &[u8],
) -> Result<(), AllocError>
    ensures { PrintsMembers result writer.old writer.new ((key.now, string (encode_lower bytes.now)) ∷ []) }
{
    spell_hexadecimal(scratch, bytes)?;
    digits_are_ascii(bytes);
    put_text(writer, key, str::from_utf8(scratch.as_slice()).unwrap())
}

/// Prints a member whose value is a pair of track and sector.
pub fn put_pair(writer: &mut Writer, key: &str, track: u8, sector: u8) -> Result<(), AllocError>
    ensures { PrintsMembers result writer.old writer.new ((key.now, string (pair_field (track, sector))) ∷ []) }
{
    let text = pair_text(track, sector);
    put_text(writer, key, text.as_str())
}
