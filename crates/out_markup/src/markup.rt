//! Elements of XML, and texts as they are written in them.
ghost use Rattle.std.specs.Prelude.{◌≡◌, ◌<◌, ◌++◌, length, option_map, codes, OnOk};
ghost use Rattle.out_markup.specs.Markup.{entity_in, entities, escaped_byte, escaped_text, escaped_within, shortened_text, held_byte, held_text, attribute, number_attribute, tag};

use itoa::Buffer;
use std::alloc::AllocError;

/// Returns the entity of a byte, if it has one.
#[tactic(auto, unfolding(crate::specs::Markup::entities))]
fn entity(byte: u8) -> Option<&'static [u8]>
    ensures { option_map (λ entity. entity.now) result ≡ entity_in entities byte }
{
    match byte {
        b'&' => Some(b"&amp;"),
        b'<' => Some(b"&lt;"),
        b'>' => Some(b"&gt;"),
        b'"' => Some(b"&quot;"),
        b'\'' => Some(b"&apos;"),
        _ => None,
    }
}

/// Appends a byte of a text.
#[tactic(auto, unfolding(crate::specs::Markup::escaped_byte))]
fn push_escaped_byte(out: &mut Vec<u8>, byte: u8) -> Result<(), AllocError>
    ensures { OnOk result (out.new.items ≡ out.old.items ++ escaped_byte byte) }
{
    match entity(byte) {
        Some(entity) => out.extend_from_slice(entity),
        None => out.extend_from_slice(&[byte]),
    }
}

/// Returns how many bytes a byte of a text takes.
#[tactic(auto, unfolding(crate::specs::Markup::escaped_byte))]
fn escaped_len(byte: u8) -> usize
    ensures { result ≡ length (escaped_byte byte) }
{
    match entity(byte) {
        Some(entity) => entity.len(),
        None => 1,
    }
}

/// Appends a text, in which no byte makes markup.
#[tactic(auto, unfolding(crate::specs::Markup::escaped_text))]
pub fn push_escaped(out: &mut Vec<u8>, text: &[u8]) -> Result<(), AllocError>
    ensures { OnOk result (out.new.items ≡ out.old.items ++ escaped_text text.now) }
{
    for byte in text {
        push_escaped_byte(out, *byte)?;
    }
    Ok(())
}

/// Appends a text as far as it fits into `limit` bytes, and `..` if it does not. No entity is cut.
pub fn push_escaped_within(out: &mut Vec<u8>, limit: usize, text: &[u8]) -> Result<(), AllocError>
    ensures { OnOk result (out.new.items ≡ out.old.items ++ escaped_within limit text.now) }
{
    let mut left = limit;
    for byte in text {
        if escaped_len(*byte) > left {
            out.extend_from_slice(b"..")?;
            return Ok(());
        }
        left -= escaped_len(*byte);
        push_escaped_byte(out, *byte)?;
    }
    Ok(())
}

/// Appends at most `count` bytes of a text, and `..` if it has more.
pub fn push_shortened(out: &mut Vec<u8>, count: usize, text: &[u8]) -> Result<(), AllocError>
    ensures { OnOk result (out.new.items ≡ out.old.items ++ shortened_text count text.now) }
{
    if text.len() <= count {
        return out.extend_from_slice(text);
    }
    out.extend_from_slice(&text[..count])?;
    out.extend_from_slice(b"..")
}

/// Returns the byte at a place of a text in which U+FFFD replaces U+FFFE and U+FFFF, which XML does
/// not allow.
fn held_byte(text: &[u8], place: usize) -> u8
    requires { place < length text.now }
    ensures { result ≡ held_byte text.now place }
{
    if place >= 2 && text[place - 2] == 0xef && text[place - 1] == 0xbf && text[place] >= 0xbe {
        return 0xbd;
    }
    text[place]
}

/// Appends a text of UTF-8 in which U+FFFD replaces U+FFFE and U+FFFF.
#[tactic(auto, unfolding(crate::specs::Markup::held_text))]
pub fn push_held(out: &mut Vec<u8>, text: &[u8]) -> Result<(), AllocError>
    ensures { OnOk result (out.new.items ≡ out.old.items ++ held_text text.now) }
{
    for place in 0..text.len() {
        out.push(held_byte(text, place))?;
    }
    Ok(())
}

/// Appends an attribute.
#[tactic(auto, unfolding(crate::specs::Markup::attribute))]
pub fn push_attribute(out: &mut Vec<u8>, name: &[u8], value: &[u8]) -> Result<(), AllocError>
    ensures { OnOk result (out.new.items ≡ out.old.items ++ attribute name.now value.now) }
{
    out.extend_from_slice(b" ")?;
    out.extend_from_slice(name)?;
    out.extend_from_slice(b"=\"")?;
    out.extend_from_slice(value)?;
    out.extend_from_slice(b"\"")
}

/// Appends an attribute whose value is a number.
#[tactic(auto, unfolding(crate::specs::Markup::attribute))]
pub fn push_number_attribute(
    out: &mut Vec<u8>,
    name: &[u8],
    number: usize,
) -> Result<(), AllocError>
    ensures { OnOk result (out.new.items ≡ out.old.items ++ number_attribute name.now number) }
{
    let mut buffer = Buffer::new();
    out.extend_from_slice(b" ")?;
    out.extend_from_slice(name)?;
    out.extend_from_slice(b"=\"")?;
    out.extend_from_slice(buffer.format(number).as_bytes())?;
    out.extend_from_slice(b"\"")
}
