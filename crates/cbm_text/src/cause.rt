//! What is wrong with a faulty line of a BASIC text, as people can correct it.

ghost use Rattle.std.specs.Prelude.{◌≡◌, ◌≤◌, ◌++◌, ℕ, List, length, IfOk, IfErr, None, OnOk, nat_eq, drop, take, position};
ghost use Rattle.std.specs.List.{before_first};
ghost use Rattle.petscii.specs.TextFault.{IsTextOutOfMemory};
ghost use Rattle.petscii.specs.TextForm.{IsTextOf, close_brace};
ghost use Rattle.cbm_text.specs.Causes.{IsCause, IsTokenCause, byte_in, cause_byte, cause_text, cause_words, character_cause, letter_cause, is_numbered, name_cause, other_names, small_name_cause, text_cause, text_name_cause};

use crate::codes::uncrunched;
use crate::fault::BasicFault;
use crate::text_line::rest_of;
use petscii::{TextFault, from_text, one_outcome, push_spelling};
use std::alloc::{AllocError, Global};
use std::str;

/// What is wrong with a faulty line.
#[derive(Clone, Copy, Debug, PartialEq, Eq)]
pub enum Cause {
    /// It begins with no number.
    NoNumber,
    /// Its number is above 65535.
    NumberTooLarge,
    /// It has a tab.
    Tab,
    /// It has a pound sign of Unicode, for which the text form has a character of its own.
    Pound,
    /// It has a pi of Unicode, for which the text form has a character of its own.
    Pi,
    /// It has an up arrow of Unicode, for which the text form has a character of its own.
    ArrowUp,
    /// It has a left arrow of Unicode, for which the text form has a character of its own.
    ArrowLeft,
    /// It has another character that is no byte's.
    OtherCharacter,
    /// A brace is not closed.
    OpenBrace,
    /// A name in braces begins with a number, as if it were to be repeated.
    Number,
    /// A name in braces is the one that other programs and listings use for this byte.
    OtherName(u8),
    /// A name in braces is not known.
    UnknownName,
    /// It has a capital letter outside quotes.
    Capital,
    /// It has a capital letter right behind a small one outside quotes, as in an abbreviation of a
    /// keyword.
    Abbreviation,
    /// It has another byte of $80 or more outside quotes.
    TokenByte,
    /// It has a byte $00.
    ZeroByte,
    /// It is too long, or the program is.
    TooLong,
}

impl Cause {
    /// Appends the cause in plain words.
    pub fn push_to(self, out: &mut Vec<u8>) -> Result<(), AllocError>
        ensures { OnOk result (out.new.items ≡ out.old.items ++ cause_text self) }
    {
        out.extend_from_slice(self.words())?;
        match self.byte() {
            Some(byte) => push_spelling(out, &[byte]),
            None => Ok(()),
        }
    }

    /// The byte at the end of the cause in plain words, in text form.
    fn byte(self) -> Option<u8>
        ensures { result ≡ cause_byte self }
    {
        match self {
            Cause::OtherName(byte) => Some(byte),
            _ => None,
        }
    }

    /// The cause in plain words, up to the byte at its end, if it has one.
    pub fn words(self) -> &'static [u8]
        ensures { result.now ≡ cause_words self }
    {
        match self {
            Cause::NoNumber => b"a line has to begin with its number",
            Cause::NumberTooLarge => b"a line's number is at most 65535",
            Cause::Tab => { b"a program cannot hold a tab: write spaces, or {$09} between quotes" }
            Cause::Pound => b"pound is written \\",
            Cause::Pi => b"pi is written ~",
            Cause::ArrowUp => b"the arrow up is written ^",
            Cause::ArrowLeft => b"the arrow to the left is written _",
            Cause::OtherCharacter => {
                b"PETSCII does not have this character; write the byte's value, as {$7c}"
            }
            Cause::OpenBrace => b"a { has no closing }",
            Cause::Number => {
                b"a name in braces takes no number: write {down}{down}{down} for {3 down}"
            }
            Cause::OtherName(_) => b"a name in braces has another spelling here: write ",
            Cause::UnknownName => {
                b"unknown name in braces; write a control code, as {clr}, or a byte's value, as {$93}"
            }
            Cause::Capital => b"keywords and variables are written in small letters outside quotes",
            Cause::Abbreviation => {
                b"write an abbreviation such as pO in full (poke), and a variable in small letters"
            }
            Cause::TokenByte => b"outside quotes a byte of $80 or more would be read as a keyword",
            Cause::ZeroByte => b"a line cannot hold a byte $00",
            Cause::TooLong => b"the line is too long, or the program ends above address 65535",
        }
    }
}

/// What is wrong with a text line that has a fault. An error comes if there is no memory, for the
/// line before or for this one.
pub(crate) fn cause_of(alloc: Global, text: &[u8], fault: &BasicFault) -> Result<Cause, AllocError>
    ensures { IfOk result (IsCause text.now fault.now) }
{
    match fault {
        BasicFault::NoNumber { .. } => Ok(Cause::NoNumber),
        BasicFault::NumberTooLarge { .. } => Ok(Cause::NumberTooLarge),
        BasicFault::Text { fault, .. } => text_cause(alloc, rest_of(text), fault),
        BasicFault::TokenByte { .. } => token_cause(alloc, rest_of(text)),
        BasicFault::ZeroByte { .. } => Ok(Cause::ZeroByte),
        BasicFault::TooLong { .. } => Ok(Cause::TooLong),
        BasicFault::Memory(error) => Err(*error),
    }
}

/// What is wrong with a text that is no text form, by its fault.
fn text_cause(alloc: Global, text: &[u8], fault: &TextFault) -> Result<Cause, AllocError>
    ensures { IfOk result (λ cause. cause ≡ text_cause text.now fault.now) }
{
    match fault {
        TextFault::UnknownName { place } => {
            let braced = text_from(text, *place);
            name_cause(alloc, name_in(text_from(braced, 1)))
        }
        TextFault::OpenBrace { .. } => Ok(Cause::OpenBrace),
        TextFault::BadByte { place } => Ok(character_cause(text_from(text, *place))),
        TextFault::Memory(error) => Err(*error),
    }
}

/// The part of a text from a place on.
fn text_from(text: &[u8], place: usize) -> &[u8]
    ensures { result.now ≡ drop place text.now }
{
    if place > text.len() {
        return &[];
    }
    &text[place..]
}

/// The name up to the next closing brace.
fn name_in(text: &[u8]) -> &[u8]
    ensures { result.now ≡ before_first (nat_eq close_brace) text.now }
{
    let length = close_place(text).unwrap_or(text.len());
    &text[..length]
}

/// The place of the first closing brace.
fn close_place(text: &[u8]) -> Option<usize>
    ensures { result ≡ position (nat_eq close_brace) text.now }
{
    text.iter().position(|byte| b'}' == *byte)
}

/// What is wrong with a name in braces.
fn name_cause(alloc: Global, name: &[u8]) -> Result<Cause, AllocError>
    ensures { IfOk result (λ cause. cause ≡ name_cause name.now) }
{
    if is_numbered(name) {
        return Ok(Cause::Number);
    }
    let name = name.to_ascii_lowercase(alloc)?;
    Ok(small_name_cause(name.as_slice()))
}

/// Whether a name begins with a digit.
fn is_numbered(name: &[u8]) -> bool
    ensures { result ≡ is_numbered name.now }
{
    match name {
        [] => false,
        [first, ..] => first.is_ascii_digit(),
    }
}

/// What is wrong with a name in small letters, which need not be UTF-8.
fn small_name_cause(name: &[u8]) -> Cause
    ensures { result ≡ small_name_cause name.now }
{
    match str::from_utf8(name) {
        Ok(name) => text_name_cause(name),
        Err(_) => Cause::UnknownName,
    }
}

/// What is wrong with a name in small letters.
fn text_name_cause(name: &str) -> Cause
    ensures { result ≡ text_name_cause name.now }
{
    match other_name(name) {
        Some(byte) => Cause::OtherName(byte),
        None => Cause::UnknownName,
    }
}

/// The byte for which other programs and listings have this name in braces.
fn other_name(name: &str) -> Option<u8>
    ensures { result ≡ byte_in other_names name.now }
{
    colour(name)
        .or(further_colour(name))
        .or(key(name))
        .or(function_key(name))
}

/// The byte of a colour, up to the light red.
#[tactic(auto, unfolding(crate::specs::Causes::other_names))]
fn colour(name: &str) -> Option<u8>
    ensures { result ≡ byte_in (take 8 other_names) name.now }
{
    match name {
        "white" => Some(0x05),
        "black" => Some(0x90),
        "green" => Some(0x1e),
        "blue" => Some(0x1f),
        "orange" => Some(0x81),
        "brown" => Some(0x95),
        "pink" => Some(0x96),
        "light red" => Some(0x96),
        _ => None,
    }
}

/// The byte of a colour, from the dark gray on.
#[tactic(auto, unfolding(crate::specs::Causes::other_names))]
fn further_colour(name: &str) -> Option<u8>
    ensures { result ≡ byte_in (take 11 (drop 8 other_names)) name.now }
{
    match name {
        "dark gray" => Some(0x97),
        "dark grey" => Some(0x97),
        "gray" => Some(0x98),
        "grey" => Some(0x98),
        "light green" => Some(0x99),
        "light blue" => Some(0x9a),
        "light gray" => Some(0x9b),
        "light grey" => Some(0x9b),
        "purple" => Some(0x9c),
        "yellow" => Some(0x9e),
        "cyan" => Some(0x9f),
        _ => None,
    }
}

/// The byte of a key, or of what it switches.
#[tactic(auto, unfolding(crate::specs::Causes::other_names))]
fn key(name: &str) -> Option<u8>
    ensures { result ≡ byte_in (take 11 (drop 19 other_names)) name.now }
{
    match name {
        "right" => Some(0x1d),
        "rgt" => Some(0x1d),
        "clear" => Some(0x93),
        "insert" => Some(0x94),
        "delete" => Some(0x14),
        "reverse on" => Some(0x12),
        "rvs on" => Some(0x12),
        "reverse off" => Some(0x92),
        "rvs off" => Some(0x92),
        "lower case" => Some(0x0e),
        "upper case" => Some(0x8e),
        _ => None,
    }
}

/// The byte of a function key.
#[tactic(auto, unfolding(crate::specs::Causes::other_names))]
fn function_key(name: &str) -> Option<u8>
    ensures { result ≡ byte_in (drop 30 other_names) name.now }
{
    match name {
        "f1" => Some(0x85),
        "f2" => Some(0x89),
        "f3" => Some(0x86),
        "f4" => Some(0x8a),
        "f5" => Some(0x87),
        "f6" => Some(0x8b),
        "f7" => Some(0x88),
        "f8" => Some(0x8c),
        _ => None,
    }
}

/// What is wrong with the character that a text begins with.
fn character_cause(text: &[u8]) -> Cause
    ensures { result ≡ character_cause text.now }
{
    if text.starts_with(b"\t") {
        Cause::Tab
    } else if text.starts_with("£".as_bytes()) {
        Cause::Pound
    } else if text.starts_with("π".as_bytes()) {
        Cause::Pi
    } else if text.starts_with("↑".as_bytes()) {
        Cause::ArrowUp
    } else if text.starts_with("←".as_bytes()) {
        Cause::ArrowLeft
    } else {
        Cause::OtherCharacter
    }
}

/// What is wrong with the text form of bytes that do not crunch.
fn token_cause(alloc: Global, text: &[u8]) -> Result<Cause, AllocError>
    ensures { IfOk result (λ cause. (bytes : List ℕ) → IsTextOf bytes text.now → IsTokenCause bytes cause) }
{
    one_outcome(text);
    match from_text(alloc, text) {
        Ok(bytes) => Ok(left_cause(&bytes)),
        Err(fault) => match memory_error(fault) {
            Some(error) => Err(error),
            None => Ok(Cause::TokenByte),
        },
    }
}

/// The error of a fault that says that memory is out.
fn memory_error(fault: TextFault) -> Option<AllocError>
    ensures { result ≡ None → IsTextOutOfMemory fault → ⊥ }
{
    match fault {
        TextFault::Memory(error) => Some(error),
        TextFault::UnknownName { .. } | TextFault::OpenBrace { .. } | TextFault::BadByte { .. } =>
            None,
    }
}

/// What is wrong with bytes that do not crunch.
fn left_cause(bytes: &[u8]) -> Cause
    ensures { IsTokenCause bytes.now result }
{
    let left = uncrunched(bytes);
    match left {
        [] => Cause::TokenByte,
        [byte, ..] => {
            let place = bytes.len() - left.len();
            letter_cause(bytes[place.saturating_sub(1)], *byte)
        }
    }
}

/// What is wrong with a byte from which nothing crunches, and which comes behind another byte.
fn letter_cause(before: u8, byte: u8) -> Cause
    ensures { result ≡ letter_cause before byte }
{
    match (before, byte) {
        (b'A'..=b'Z', 0xc1..=0xda) => Cause::Abbreviation,
        (_, 0xc1..=0xda) => Cause::Capital,
        _ => Cause::TokenByte,
    }
}
