//! Bytes to text, and text to bytes.

ghost use Rattle.std.specs.Prelude.{◌≡◌, ◌⊎◌, ◌++◌, IfOk, IfErr, OnOk};
ghost use Rattle.petscii.specs.Spelling.{spell, spelling};
ghost use Rattle.petscii.specs.TextForm.{IsTextOf};
ghost use Rattle.petscii.specs.TextFault.{IsFirstTextFault, IsTextOutOfMemory};

use crate::character::{character_of, digit_of};
use crate::control::name_of_code;
use crate::fault::TextFault;
use crate::unit::read_unit;
use std::alloc::{AllocError, Global};

/// The text of bytes of PETSCII: each byte's character, else the name of the control code in
/// braces, else its value as `{$xx}`, two hexadecimal digits in small letters.
///
/// An `Err` comes only if there is no memory for the text.
pub fn to_text(alloc: Global, bytes: &[u8]) -> Result<Vec<u8>, AllocError>
    ensures spelled { IfOk result (λ text. text.items ≡ spelling bytes.now) }
{
    let mut text = Vec::new(alloc);
    push_spelling(&mut text, bytes)?;
    Ok(text)
}

/// Appends the text of bytes of PETSCII, as `to_text` writes it, to a text. It allocates only if
/// the text has no room for it.
///
/// An `Err` comes only if there is no memory for the text.
#[tactic(auto, unfolding(crate::specs::Spelling::spelling))]
pub fn push_spelling(text: &mut Vec<u8>, bytes: &[u8]) -> Result<(), AllocError>
    ensures { OnOk result (text.new.items ≡ text.old.items ++ spelling bytes.now) }
{
    for byte in bytes {
        push_unit(text, *byte)?;
    }
    Ok(())
}

/// Appends the text of one byte.
#[tactic(auto, unfolding(crate::specs::Spelling::spell))]
pub(crate) fn push_unit(text: &mut Vec<u8>, byte: u8) -> Result<(), AllocError>
    ensures spelled { OnOk result (text.new.items ≡ text.old.items ++ spell byte) }
{
    if let Some(shown) = character_of(byte) {
        text.push(shown)?;
        return Ok(());
    }
    text.push(b'{')?;
    match name_of_code(byte) {
        Some(name) => text.extend_from_slice(name)?,
        None => text.extend_from_slice(&[b'$', digit_of(byte / 16), digit_of(byte % 16)])?,
    }
    text.push(b'}')?;
    Ok(())
}

/// The bytes of PETSCII that a text stands for. Unlike what `to_text` writes, names and hexadecimal
/// digits can be in either case, and `{$xx}` can stand for any byte.
///
/// An `Err` is the leftmost fault with its place: `UnknownName` and `OpenBrace` at the offset of
/// the `{`, `BadByte` at the offset of the byte. `Memory` comes if there is no memory for the
/// bytes.
pub fn from_text(alloc: Global, text: &[u8]) -> Result<Vec<u8>, TextFault>
    ensures read { IfOk result (λ bytes. IsTextOf bytes.items text.now) }
    ensures fault { IfErr result (λ fault. IsTextOutOfMemory fault ⊎ IsFirstTextFault text.now fault) }
{
    let mut bytes = Vec::new(alloc);
    let mut left = text;
    while let [first, after @ ..] = left {
        let place = text.len() - left.len();
        let (byte, rest) = read_unit(*first, after, place)?;
        bytes.push(byte)?;
        left = rest;
    }
    Ok(bytes)
}
