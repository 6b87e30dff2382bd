//! Bytes, numbers and places as cases spell them.

use crate::fault::CaseFault;
use std::alloc::Global;
use std::fs;
use std::rt::Files;

/// Returns the bytes that words spell, one after another: `0A` is a byte, `"abc"` are the bytes of
/// a text without spaces, `<NAME>` those of a file, `nothing` are no bytes; and `x256` after any of
/// these says how often it is repeated.
pub fn bytes_of<R: Files + AllocGlobal>(rt: &R, text: &str) -> Result<Vec<u8>, CaseFault> {
    let mut bytes = Vec::new(rt.alloc());
    let mut last = Vec::new(rt.alloc());
    for word in text.split_whitespace() {
        match word.strip_prefix('x') {
            Some(times) => repeat(&mut bytes, last.as_slice(), number_of(rt.alloc(), times)?)?,
            None => {
                last = word_bytes(rt, word)?;
                bytes.extend_from_slice(last.as_slice())?;
            }
        }
    }
    Ok(bytes)
}

/// Repeats the last item, which was appended once, so that it is there `times` times.
fn repeat(bytes: &mut Vec<u8>, item: &[u8], times: usize) -> Result<(), CaseFault> {
    for _ in 1..times {
        bytes.extend_from_slice(item)?;
    }
    Ok(())
}

/// Returns the bytes that one word spells.
fn word_bytes<R: Files + AllocGlobal>(rt: &R, word: &str) -> Result<Vec<u8>, CaseFault> {
    if word == "nothing" {
        return Ok(Vec::new(rt.alloc()));
    }
    if let Some(name) = between(word, '<', '>') {
        return file_bytes(rt, name);
    }
    if let Some(text) = between(word, '"', '"') {
        return Ok(Vec::from_slice(rt.alloc(), text.as_bytes())?);
    }
    match u8::from_str_radix(word, 16) {
        Ok(byte) if word.len() == 2 => Ok(vec![in rt.alloc(); byte]?),
        _ => Err(CaseFault::NotBytes(String::from_str(rt.alloc(), word)?)),
    }
}

/// Returns the text between these two characters.
fn between(word: &str, first: char, last: char) -> Option<&str> {
    word.strip_prefix(first)?.strip_suffix(last)
}

/// Returns the bytes of a file beside the cases.
fn file_bytes<R: Files + AllocGlobal>(rt: &R, name: &str) -> Result<Vec<u8>, CaseFault> {
    match fs::read(rt, name) {
        Ok(bytes) => Ok(bytes),
        Err(_) => Err(CaseFault::MissingFile(String::from_str(rt.alloc(), name)?)),
    }
}

/// Returns a decimal number.
pub fn number_of(alloc: Global, text: &str) -> Result<usize, CaseFault> {
    match text.parse() {
        Ok(number) => Ok(number),
        Err(_) => Err(CaseFault::NotNumber(String::from_str(alloc, text)?)),
    }
}

/// Returns a number in two or more hexadecimal digits after `$`, as `$0A`.
pub fn offset_of(alloc: Global, text: &str) -> Result<usize, CaseFault> {
    let digits = text.strip_prefix('$').unwrap_or("");
    match usize::from_str_radix(digits, 16) {
        Ok(number) => Ok(number),
        Err(_) => Err(CaseFault::NotNumber(String::from_str(alloc, text)?)),
    }
}
