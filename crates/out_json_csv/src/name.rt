//! The names on a disk, in text form.
ghost use Rattle.std.specs.Prelude.{◌≡◌, [], ◌∷◌, OnOk};
ghost use Rattle.petscii.specs.Spelling.{spelling};
ghost use Rattle.out_json_csv.specs.Values.{PrintsMembers};
ghost use Rattle.out_json_csv.specs.Names.{name_value};

use crate::member::put_text;
use json::Writer;
use petscii::{push_spelling, spelling_is_ascii};
use std::alloc::AllocError;
use std::str;

/// Replaces the text by a name of the disk in text form.
pub(crate) fn spell(text: &mut Vec<u8>, name: &[u8]) -> Result<(), AllocError>
    ensures { OnOk result (text.new.items ≡ spelling name.now) }
{
    text.clear();
    push_spelling(text, name)
}

/// Prints a member whose value is a name of the disk, in text form.
pub fn put_name(
    scratch: &mut Vec<u8>,
    writer: &mut Writer,
    key: &str,
    name: &[u8],
) -> Result<(), AllocError>
    ensures { PrintsMembers result writer.old writer.new ((key.now, name_value name.now) ∷ []) }
{
    spell(scratch, name)?;
    spelling_is_ascii(name);
    put_text(writer, key, str::from_utf8(scratch.as_slice()).unwrap())
}
