//! The lines of a program file.

ghost use Rattle.std.specs.Prelude.{◌≡◌, ◌==◌, ◌++◌, [], ◌∷◌, OnOk, MatchOption, position};
ghost use Rattle.std.specs.Bool.{MatchBool};
ghost use Rattle.cbm_text.specs.Program.{Program, BeginsLine, LinesRead, word};

use std::alloc::AllocError;

/// A line of a program: its number, and its crunched bytes without the $00 that ends them.
#[derive(Clone, Copy)]
pub(crate) struct ProgramLine<'a> {
    pub(crate) number: u16,
    pub(crate) bytes: &'a [u8],
}

/// Appends a line, with the link to what follows it.
pub(crate) fn push_line(file: &mut Vec<u8>, next: u16, line: &ProgramLine) -> Result<(), AllocError>
    ensures { OnOk result (file.new.items
        ≡ file.old.items ++ word next ++ word line.now.number ++ line.now.bytes.now ++ 0 ∷ []) }
{
    push_word(file, next)?;
    push_word(file, line.number)?;
    file.extend_from_slice(line.bytes)?;
    file.push(0)?;
    Ok(())
}

/// Appends a number in two bytes, the low one first.
pub(crate) fn push_word(file: &mut Vec<u8>, number: u16) -> Result<(), AllocError>
    ensures { OnOk result (file.new.items ≡ file.old.items ++ word number) }
{
    file.extend_from_slice(&[(number % 256) as u8, (number / 256) as u8])
}

/// Whether a program's lines end here, at a link of $00 $00.
pub(crate) fn is_end(bytes: &[u8]) -> bool
    ensures { MatchBool result (LinesRead bytes.now []) (¬ (LinesRead bytes.now [])) }
{
    match bytes {
        [0, 0, ..] => true,
        _ => false,
    }
}

/// The first line of a program from its link on, and what follows the line; None if the bytes end
/// before the line does. The link is ignored.
pub(crate) fn first_line(bytes: &[u8]) -> Option<(ProgramLine<'_>, &[u8])>
    requires { ¬ (LinesRead bytes.now []) }
    ensures { MatchOption result ((program : Program) → ¬ (LinesRead bytes.now program))
        (λ found. BeginsLine bytes.now (record { number = found.0.number; bytes = found.0.bytes.now }) found.1.now) }
{
    let [_, _, low, high, rest @ ..] = bytes else {
        return None;
    };
    let Some(length) = first_zero(rest) else {
        return None;
    };
    let line = ProgramLine {
        number: u16::from(*high) * 256 + u16::from(*low),
        bytes: &rest[..length],
    };
    Some((line, &rest[length + 1..]))
}

/// The place of the first $00.
fn first_zero(bytes: &[u8]) -> Option<usize>
    ensures { result ≡ position (λ byte. byte == 0) bytes.now }
{
    bytes.iter().position(|byte| *byte == 0)
}
