//! Why no session begins with a file.
ghost use Rattle.std.specs.Prelude.{◌≡◌, IfOk, IfSome};
ghost use Rattle.out_messages.specs.FaultLines.{line_about};
ghost use Rattle.script_hints.specs.Unfit.{IsUnfitLine, fetched_by, look_of, unfit_text};

use host_storage::{Host, HostFault, push_shown};
use out_messages::{guess_of, guess_text, push_count};
use program_console::reason_of;
use std::alloc::{AllocError, Global};

/// The line that says why no session begins with the file of this name: it has these bytes, as many
/// as no image has, or it can't be read. None if the host knows no reason, or there is no memory
/// for the line.
pub(crate) fn unfit_line<H: Host>(
    alloc: Global,
    host: &H,
    name: &str,
    contents: Result<&[u8], HostFault>,
) -> Option<Vec<u8>>
    ensures { IfSome result (λ line. IsUnfitLine (H.state host.now).files name.now (fetched_by (λ bytes. bytes.now) contents.entry) line.items) }
{
    match contents {
        Ok(bytes) => {
            let text = unfit_text(alloc, bytes).ok()?;
            line_about(alloc, name, text.as_slice()).ok()
        }
        Err(fault) => {
            let reason = reason_of(host, name, fault)?;
            line_about(alloc, name, reason.text()).ok()
        }
    }
}

/// What a file with these bytes is, with which no session begins, and what is edited.
#[tactic(auto, unfolding(crate::specs::Unfit::unfit_text))]
fn unfit_text(alloc: Global, bytes: &[u8]) -> Result<Vec<u8>, AllocError>
    ensures { IfOk result (λ text. text.items ≡ unfit_text bytes.now) }
{
    let mut text = Vec::new(alloc);
    text.extend_from_slice(look_of(bytes))?;
    text.extend_from_slice(b", ")?;
    push_count(&mut text, bytes.len(), b"byte")?;
    text.extend_from_slice(b"; d64sh edits images of 174848 and 196608 bytes")?;
    Ok(text)
}

/// What a file looks like whose length no image has.
fn look_of(bytes: &[u8]) -> &'static [u8]
    ensures { result.now ≡ look_of bytes.now }
{
    match guess_of(bytes) {
        Some(guess) => guess_text(guess),
        None if bytes.starts_with(b"D64S") => b"a session file, which d64sh shell --resume takes",
        None => match bytes.len() {
            175_531 | 197_376 => b"an image with error bytes",
            _ => b"not a disk image",
        },
    }
}

/// A line of the program about a file.
#[tactic(auto, unfolding(out_messages::specs::FaultLines::line_about))]
fn line_about(alloc: Global, name: &str, text: &[u8]) -> Result<Vec<u8>, AllocError>
    ensures { IfOk result (λ line. line.items ≡ line_about name.now text.now) }
{
    let mut line = Vec::new(alloc);
    line.extend_from_slice(b"d64sh: ")?;
    push_shown(&mut line, name.as_bytes())?;
    line.extend_from_slice(b": ")?;
    line.extend_from_slice(text)?;
    line.extend_from_slice(b"\n")?;
    Ok(line)
}
