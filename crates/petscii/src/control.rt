//! The control codes that have a name (Commodore 64 Programmer's Reference Guide, appendix C).

ghost use Rattle.std.specs.Prelude.{◌≡◌, ◌≢◌, ◌↔◌, ◌<◌, ℕ, IsTrue, MatchOption};
ghost use Rattle.std.specs.Option.{option_copied};
ghost use Rattle.std.specs.Str.{str_to_ascii_lowercase};
ghost use Rattle.petscii.specs.ControlNames.{control_name};

/// The name of a control code.
#[tactic(auto, unfolding(crate::specs::ControlNames::control_name, crate::specs::ControlNames::control_names))]
pub(crate) fn name_of_code(code: u8) -> Option<&'static [u8]>
    ensures { option_copied result ≡ control_name code }
{
    let name: &[u8] = match code {
        0x05 => b"wht",
        0x0e => b"swlc",
        0x11 => b"down",
        0x12 => b"rvon",
        0x13 => b"home",
        0x14 => b"del",
        0x1c => b"red",
        0x1d => b"rght",
        0x1e => b"grn",
        0x1f => b"blu",
        0x81 => b"orng",
        0x8e => b"swuc",
        0x90 => b"blk",
        0x91 => b"up",
        0x92 => b"rvof",
        0x93 => b"clr",
        0x94 => b"inst",
        0x95 => b"brn",
        0x96 => b"lred",
        0x97 => b"gry1",
        0x98 => b"gry2",
        0x99 => b"lgrn",
        0x9a => b"lblu",
        0x9b => b"gry3",
        0x9c => b"pur",
        0x9d => b"left",
        0x9e => b"yel",
        0x9f => b"cyn",
        _ => return None,
    };
    Some(name)
}

/// The control codes are below this byte.
const CONTROL_CODES_END: u8 = 0xa0;

/// The control code of a name in either case of its letters.
pub(crate) fn code_of_name(name: &[u8]) -> Option<u8>
    ensures { MatchOption result
        ((code : ℕ) → code < 256 → control_name code ≢ Some (str_to_ascii_lowercase name.now))
        (λ code. control_name code ≡ Some (str_to_ascii_lowercase name.now)) }
{
    for code in 0..CONTROL_CODES_END {
        if is_name_of_code(name, code) {
            return Some(code);
        }
    }
    None
}

/// Whether this is the name of a control code, in either case of its letters.
fn is_name_of_code(name: &[u8], code: u8) -> bool
    ensures { IsTrue result ↔ (control_name code ≡ Some (str_to_ascii_lowercase name.now)) }
{
    match name_of_code(code) {
        Some(known) => name.eq_ignore_ascii_case(known),
        None => false,
    }
}
