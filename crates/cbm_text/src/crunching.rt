//! BASIC texts as program files.

ghost use Rattle.std.specs.Prelude.{◌≡◌, ◌⊎◌, ◌++◌, ℕ, Some, None, IfOk, IfErr, MatchResult, ◌<◌};
ghost use Rattle.cbm_text.specs.BasicText.{IsFileOf, IsFirstBasicFault, IsBasicOutOfMemory, IsLine, HasFault, NamesLine};
ghost use Rattle.cbm_text.specs.LineFault.{IsFaultOfCodes, IsNext, fault_of_text};
ghost use Rattle.cbm_text.specs.declared.fault.BasicFault.TheVariants.{TokenByte};
ghost use Rattle.cbm_text.specs.Program.{ProgramLine, line_layout, address_behind};

use crate::codes::{MOST_BYTES, crunch_bytes};
use crate::fault::BasicFault;
use crate::program::{self, push_line, push_word};
use crate::text_line::split_number;
use petscii::{TextFault, from_text};
use script_text::raw_lines::{self, RawLines};
use std::alloc::Global;

/// The address at which a Commodore 64 has its BASIC programs.
pub const PROGRAM_START: u16 = 0x0801;

/// The greatest link.
const GREATEST_LINK: usize = 65_535;

/// How many bytes the link, the number and the closing $00 of a line take.
const AROUND_BYTES: usize = 5;

/// The program file of a BASIC text, loaded at `start`. Each line of the text begins with its
/// number, in any order; empty lines, lines of spaces and lines that begin with `;` are skipped.
/// What follows the number and one space is in text form (`from_text`). Keywords are found from
/// left to right, with or without spaces, as the machine finds them: not between quotes, behind
/// `rem`, or behind `data` up to a colon outside quotes.
///
/// An `Err` is the first fault of the first faulty line, in the order of `BasicFault`, or that
/// there is no memory. Its line is one of the text's, so that its number is at most the text's
/// length.
pub fn crunch(alloc: Global, start: u16, text: &[u8]) -> Result<Vec<u8>, BasicFault>
    ensures crunched { IfOk result (λ file. IsFileOf start text.now file.items) }
    ensures fault { IfErr result (λ fault. IsBasicOutOfMemory fault ⊎ IsFirstBasicFault start text.now fault) }
    ensures place { IfErr result (NamesLine text.now) }
{
    let mut file = Vec::with_capacity(alloc, text.len())?;
    push_word(&mut file, start)?;
    let mut at = start;
    let mut place = 0;
    for raw in RawLines(text) {
        place += 1;
        let line = raw_lines::text(raw);
        if raw_lines::is_skipped(line) {
            continue;
        }
        at = push_text_line(alloc, &mut file, at, line, place)?;
    }
    push_word(&mut file, 0)?;
    Ok(file)
}

/// Appends the program line of a text line, at an address. Returns the address behind it. A fault
/// has the line's place in the text.
pub(crate) fn push_text_line(
    alloc: Global,
    file: &mut Vec<u8>,
    at: u16,
    text: &[u8],
    place: usize,
) -> Result<u16, BasicFault>
    ensures line { IfOk result (λ next. (line : ProgramLine) × IsLine at text.now line × (next ≡ address_behind at line.bytes)
        × (file.new.items ≡ file.old.items ++ line_layout at line)) }
    ensures fault { IfErr result (λ fault. IsBasicOutOfMemory fault ⊎ HasFault at place text.now fault) }
{
    let (number, rest) = split_number(text, place)?;
    let bytes = match from_text(alloc, rest) {
        Ok(bytes) => bytes,
        Err(fault) => return Err(fault_of_text(fault, place)),
    };
    let codes = found_codes(crunch_bytes(alloc, &bytes)?, place)?;
    let next = next_address(at, &bytes, &codes, place)?;
    push_line(
        file,
        next,
        &program::ProgramLine {
            number,
            bytes: &codes,
        },
    )?;
    Ok(next)
}

/// The fault of a line of which the part behind the number has this one.
fn fault_of_text(fault: TextFault, place: usize) -> BasicFault
    ensures { result ≡ fault_of_text place fault }
{
    match fault {
        TextFault::Memory(error) => BasicFault::Memory(error),
        fault => BasicFault::Text { line: place, fault },
    }
}

/// The crunched bytes of a line if there are any.
fn found_codes(codes: Option<Vec<u8>>, place: usize) -> Result<Vec<u8>, BasicFault>
    ensures { MatchResult result (λ found. codes ≡ Some found) (λ fault. (codes ≡ None) × (fault ≡ TokenByte place)) }
{
    match codes {
        Some(codes) => Ok(codes),
        None => Err(BasicFault::TokenByte { line: place }),
    }
}

/// The address behind a line of these bytes and crunched bytes, at an address.
fn next_address(at: u16, bytes: &[u8], codes: &[u8], place: usize) -> Result<u16, BasicFault>
    ensures { MatchResult result (IsNext at bytes.now codes.now) (IsFaultOfCodes at place bytes.now codes.now) }
{
    if bytes.contains(&0) {
        return Err(BasicFault::ZeroByte { line: place });
    }
    let next = usize::from(at) + codes.len() + AROUND_BYTES;
    if codes.len() > MOST_BYTES || next > GREATEST_LINK {
        return Err(BasicFault::TooLong { line: place });
    }
    Ok(next as u16)
}
