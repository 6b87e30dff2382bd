//! The crunched bytes of a line, and what they stand for.

ghost use Rattle.std.specs.Prelude.{◌≡◌, ◌≤◌, ℕ, List, ◌++◌, length, MatchOption, IfOk, OnOk};
ghost use Rattle.cbm_text.specs.BasicText.{most_bytes};
ghost use Rattle.cbm_text.specs.Causes.{StopsAfter};
ghost use Rattle.cbm_text.specs.Crunching.{Crunched};
ghost use Rattle.cbm_text.specs.Modes.{CrunchesUpTo, crunches_anyhow, expanded_bytes, first_code, free_code, text_of_code, single_code};

use crate::keyword::{first_token, keyword_of};
use crate::mode::Mode;
use std::alloc::{AllocError, Global};

/// The most crunched bytes of a line.
pub(crate) const MOST_BYTES: usize = 250;

/// The token of `print`.
const PRINT: u8 = 0x99;

/// The byte of pi, which is no token.
const PI: u8 = 0xff;

/// The crunched bytes of a line, or None if a byte of $80 or more is at a free place. If there are
/// more than `MOST_BYTES`, the list may be cut off, but still has more than `MOST_BYTES`.
pub(crate) fn crunch_bytes(alloc: Global, bytes: &[u8]) -> Result<Option<Vec<u8>>, AllocError>
    ensures { IfOk result (λ crunched. MatchOption crunched
        ((codes : List ℕ) → ¬ (Crunched bytes.now codes))
        (λ codes. CrunchesUpTo most_bytes bytes.now codes.items)) }
{
    let mut codes = Vec::with_capacity(alloc, bytes.len().min(MOST_BYTES + 1))?;
    let mut mode = Mode::Free;
    let mut left = bytes;
    while !left.is_empty() {
        // The line is too long, and the only question left is whether it crunches.
        if codes.len() == MOST_BYTES + 1 && crunches_anyhow(left) {
            return Ok(Some(codes));
        }
        let Some((code, rest)) = next_code(mode, left) else {
            return Ok(None);
        };
        codes.push(code)?;
        mode = mode.after(code);
        left = rest;
    }
    Ok(Some(codes))
}

/// The rest of a line from the first byte on that crunches to nothing.
pub(crate) fn uncrunched(bytes: &[u8]) -> &[u8]
    ensures stops { (codes : List ℕ) × StopsAfter Mode.Free bytes.now codes result.now }
    ensures shorter { length result.now ≤ length bytes.now }
{
    let mut mode = Mode::Free;
    let mut left = bytes;
    while !left.is_empty() {
        let Some((found, rest)) = next_code(mode, left) else {
            return left;
        };
        mode = mode.after(found);
        left = rest;
    }
    left
}

/// The first crunched byte of a text that begins at such a place, and what follows it.
fn next_code(mode: Mode, text: &[u8]) -> Option<(u8, &[u8])>
    ensures { MatchOption result (first_code mode text.now ≡ None)
        (λ found. first_code mode text.now ≡ Some (found.0, found.1.now)) }
{
    let [first, rest @ ..] = text else {
        return None;
    };
    match mode {
        Mode::Free => match first_token(text) {
            Some(found) => Some(found),
            None => Some((code_of_byte(*first)?, rest)),
        },
        Mode::Quoted | Mode::Remark | Mode::Data | Mode::QuotedData => Some((*first, rest)),
    }
}

/// The code of a byte at a free place at which no keyword begins.
fn code_of_byte(byte: u8) -> Option<u8>
    ensures { result ≡ single_code byte }
{
    match byte {
        b'?' => Some(PRINT),
        0..0x80 | PI => Some(byte),
        _ => None,
    }
}

/// Whether each byte of a text crunches at a free place, so that the text crunches, however it is
/// read.
fn crunches_anyhow(text: &[u8]) -> bool
    ensures { result ≡ crunches_anyhow text.now }
{
    text.iter().all(|byte| code_of_byte(*byte).is_some())
}

/// What the crunched bytes of a line stand for.
pub(crate) fn expand(alloc: Global, codes: &[u8]) -> Result<Vec<u8>, AllocError>
    ensures { IfOk result (λ bytes. bytes.items ≡ expanded_bytes codes.now) }
{
    let mut bytes = Vec::new(alloc);
    let mut mode = Mode::Free;
    for code in codes {
        push_shown(&mut bytes, mode, *code)?;
        mode = mode.after(*code);
    }
    Ok(bytes)
}

/// Appends what a crunched byte stands for.
fn push_shown(bytes: &mut Vec<u8>, mode: Mode, code: u8) -> Result<(), AllocError>
    ensures { OnOk result (bytes.new.items ≡ bytes.old.items ++ text_of_code mode code) }
{
    if mode == Mode::Free
        && let Some(word) = keyword_of(code)
    {
        bytes.extend_from_slice(word)?;
        return Ok(());
    }
    bytes.push(code)?;
    Ok(())
}
