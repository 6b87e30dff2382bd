//! What is printed as JSON of a file that cannot be read or has a wrong length.
ghost use Rattle.std.specs.Prelude.{◌≡◌, [], ◌∷◌, ◌++◌, length, IfOk};
ghost use Rattle.out_json_csv.specs.Values.{PrintsMembers, line_of, printed_line};
ghost use Rattle.out_json_csv.specs.FailedDumps.{host_value, image_member, failed_object, unread_object, wrong_length_object, no_dump_object, no_dump_error};

use crate::member::{put_number, put_text};
use crate::scratch::Scratch;
use d64_g64::begins_as_g64;
use host_storage::hide_in_json;
use json::Writer;
use std::alloc::AllocError;
use std::str;

/// The error of a file that cannot be read.
pub const UNREAD: &str = "cannot be read";

/// The error of a file whose length no dump has.
const WRONG_LENGTH: &str = "wrong length";

/// The error of a G64 whose header is cut off or of another version.
const BAD_G64: &str = "bad G64";

/// The error of an image whose folder exists before anything of it is written.
pub const IS_THERE: &str = "is there already";

/// The error of an image whose folder cannot be made, or cannot take its name.
pub const UNWRITTEN: &str = "cannot be written";

/// Prints a member whose value is a name of the host. What is not UTF-8 in it becomes U+FFFD.
pub fn put_host_name(
    scratch: &mut Vec<u8>,
    writer: &mut Writer,
    key: &str,
    name: &[u8],
) -> Result<(), AllocError>
    ensures { PrintsMembers result writer.old writer.new ((key.now, host_value name.now) ∷ []) }
{
    if let Ok(text) = str::from_utf8(name) {
        return put_text(writer, key, text);
    }
    let text = String::from_utf8_lossy(*scratch.allocator(), name)?;
    put_text(writer, key, text.as_str())
}

/// Prints the member with the name of a file on the host.
pub fn put_image(scratch: &mut Vec<u8>, writer: &mut Writer, name: &[u8]) -> Result<(), AllocError>
    ensures { PrintsMembers result writer.old writer.new (image_member name.now ∷ []) }
{
    put_host_name(scratch, writer, "image", name)
}

/// Returns what a writer holds, with a line feed after it: a text of `start` bytes, and what was
/// written after it, with control characters and the marks of direction by their numbers.
pub fn into_line(writer: Writer, start: usize) -> Result<Vec<u8>, AllocError>
    requires { start ≡ length writer.before }
    ensures { IfOk result (λ text. text.items ≡ writer.before ++ printed_line writer.tokens) }
{
    let mut text = writer.into_inner();
    hide_in_json(&mut text, start)?;
    text.push(b'\n')?;
    Ok(text)
}

/// Appends the line of a file with this error to a text.
pub fn failed_json(
    scratch: &mut Scratch,
    name: &[u8],
    error: &str,
    out: Vec<u8>,
) -> Result<Vec<u8>, AllocError>
    ensures { IfOk result (λ text. text.items ≡ out.items ++ line_of (failed_object name.now error.now)) }
{
    let start = out.len();
    let mut writer = Writer::new(out);
    writer.begin_object()?;
    put_image(&mut scratch.text, &mut writer, name)?;
    put_text(&mut writer, "error", error)?;
    writer.end_object()?;
    let text = into_line(writer, start)?;
    Ok(text)
}

/// Appends the line of a file that cannot be read to a text.
pub fn unread_json(scratch: &mut Scratch, name: &[u8], out: Vec<u8>) -> Result<Vec<u8>, AllocError>
    ensures { IfOk result (λ text. text.items ≡ out.items ++ line_of (unread_object name.now)) }
{
    failed_json(scratch, name, UNREAD, out)
}

/// Appends the line of a file of this length, which no dump has, to a text.
fn wrong_length_json(
    scratch: &mut Scratch,
    name: &[u8],
    length: usize,
    out: Vec<u8>,
) -> Result<Vec<u8>, AllocError>
    ensures { IfOk result (λ text. text.items ≡ out.items ++ line_of (wrong_length_object name.now length)) }
{
    let start = out.len();
    let mut writer = Writer::new(out);
    writer.begin_object()?;
    put_image(&mut scratch.text, &mut writer, name)?;
    put_text(&mut writer, "error", WRONG_LENGTH)?;
    put_number(&mut writer, "length", length as u64)?;
    writer.end_object()?;
    let text = into_line(writer, start)?;
    Ok(text)
}

/// Appends the line of a file with these bytes, which is not a dump, to a text.
pub fn no_dump_json(
    scratch: &mut Scratch,
    name: &[u8],
    bytes: &[u8],
    out: Vec<u8>,
) -> Result<Vec<u8>, AllocError>
    ensures { IfOk result (λ text. text.items ≡ out.items ++ line_of (no_dump_object name.now bytes.now)) }
{
    if begins_as_g64(bytes) {
        failed_json(scratch, name, BAD_G64, out)
    } else {
        wrong_length_json(scratch, name, bytes.len(), out)
    }
}

/// Returns the error of a file with these bytes, which is not a dump.
pub fn no_dump_error(bytes: &[u8]) -> &'static str
    ensures { result.now ≡ no_dump_error bytes.now }
{
    if begins_as_g64(bytes) {
        BAD_G64
    } else {
        WRONG_LENGTH
    }
}
