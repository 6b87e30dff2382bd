//! The line of a refused input, in the form of compilers.
ghost use Rattle.std.specs.Prelude.{◌≡◌, ◌-◌, ◌++◌, OnOk, [], codes, decimal, length, option_copied, take};
ghost use Rattle.std.specs.Option.{option_map_or};
ghost use Rattle.cmd_basic.specs.RefusalLine.{refusal_place, refusal_line, status_text};

use host_storage::push_shown;
use out_messages::push_number;
use script_lines::Status;
use std::alloc::AllocError;

/// Appends the line of a refusal: the name of the input, the number of the refused line, if it is
/// one line, the status, and what is wrong.
#[tactic(auto, unfolding(crate::specs::RefusalLine::refusal_line))]
pub(crate) fn push_refusal_line(
    out: &mut Vec<u8>,
    name: Option<&str>,
    line: Option<usize>,
    status: Status,
    text: &[u8],
) -> Result<(), AllocError>
    ensures { OnOk result (out.new.items ≡ out.old.items ++ refusal_line (option_copied name.entry) line status text.now) }
{
    push_place(out, name, line)?;
    push_status(out, status)?;
    out.extend_from_slice(text)?;
    out.extend_from_slice(b"\n")
}

/// Appends the name of an input, and the number of a line of it, if there is one.
fn push_place(out: &mut Vec<u8>, name: Option<&str>, line: Option<usize>) -> Result<(), AllocError>
    ensures { OnOk result (out.new.items ≡ out.old.items ++ refusal_place (option_copied name.entry) line) }
{
    push_shown(out, name.unwrap_or("-").as_bytes())?;
    match line {
        Some(line) => {
            out.extend_from_slice(b":")?;
            push_number(out, line)
        }
        None => Ok(()),
    }
}

/// Appends a status between colons.
fn push_status(out: &mut Vec<u8>, status: Status) -> Result<(), AllocError>
    ensures { OnOk result (out.new.items ≡ out.old.items ++ (codes ": " ++ (status_text status ++ codes ": "))) }
{
    let line = status.line();
    out.extend_from_slice(b": ")?;
    out.extend_from_slice(&line.as_slice()[..line.len().saturating_sub(1)])?;
    out.extend_from_slice(b": ")
}
