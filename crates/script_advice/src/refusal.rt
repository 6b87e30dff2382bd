//! What is wrong with a refused line, written on an output.
ghost use Rattle.std.specs.Prelude.{◌≡◌, ◌++◌, ℕ, List, IfSome};
ghost use Rattle.host_storage.specs.Files.{HostState};
ghost use Rattle.host_storage.specs.Output.{Writes};
ghost use Rattle.program_console.specs.Outside.{account_at};
ghost use Rattle.script_advice.specs.Advice.{advice_text, pieces};
ghost use Rattle.script_advice.specs.Refusal.{IsCauseLine, MaySay};

use crate::advice::Advice;
use crate::host_reason::host_reason;
use crate::line_parts::LineParts;
use crate::lost::lost_line;
use crate::text_cause::text_line;
use d64_image::Image;
use host_storage::{Host, OutputStream, WriteFault};
use script_lines::Status;
use std::alloc::Global;
use std::io::Write;

/// Writes, after this start, what is wrong with a line with these arguments that was refused with
/// this status and left this image: what is found to be wrong with its text or its deleted file, if
/// it was refused for that and there is memory, or else the advice, with the reason for which a host
/// file cannot be read or written, if the host can say it. The host is asked for the text of a
/// refused `crunch` alone, and for that reason.
///
/// The error is the output's.
pub fn write_refusal<W: Write, H: Host>(
    alloc: Global,
    host: &mut H,
    output: &mut OutputStream<'_, W>,
    start: &[u8],
    parts: &LineParts<'_>,
    status: &Status,
    image: &Image,
) -> Result<(), WriteFault>
    ensures same { output.new.writer.ghost_name ≡ output.old.writer.ghost_name }
    ensures says { (said : List ℕ) × MaySay (H.state host.old) image.now start.now parts.now status.now said
        × Writes (account_at W.contents output.old) (account_at W.contents output.new) said }
    ensures files_kept { (H.state host.new).files ≡ (H.state host.old).files }
{
    let reason = host_reason(host, parts, status);
    match cause_line(alloc, host, start, parts.first, status, image) {
        Some(line) => output.write(line.as_slice()),
        None => write_advice(output, start, parts, Advice::of(parts, status, reason)),
    }
}

/// The line that says after this start what is found to be wrong with the text or the deleted file
/// of this name, if something is.
fn cause_line<H: Host>(
    alloc: Global,
    host: &mut H,
    start: &[u8],
    name: &str,
    status: &Status,
    image: &Image,
) -> Option<Vec<u8>>
    ensures line { IfSome result (λ line. IsCauseLine (H.state host.old) image.now start.now name.now status.now line.items) }
    ensures files_kept { (H.state host.new).files ≡ (H.state host.old).files }
{
    match text_line(alloc, host, start, name, status) {
        Some(line) => Some(line),
        None => lost_line(alloc, start, name, status, image),
    }
}

/// Writes advice after this start.
fn write_advice<W: Write>(
    output: &mut OutputStream<'_, W>,
    start: &[u8],
    parts: &LineParts<'_>,
    advice: Advice,
) -> Result<(), WriteFault>
    ensures same { output.new.writer.ghost_name ≡ output.old.writer.ghost_name }
    ensures either { Writes (account_at W.contents output.old) (account_at W.contents output.new) (start.now ++ advice_text parts.now (pieces advice)) }
{
    output.write(start)?;
    for piece in advice.pieces.iter() {
        output.write(piece.of(parts))?;
    }
    output.write(b"\n")
}
