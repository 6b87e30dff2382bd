//! What is wrong with the text of a refused `crunch`, which is read again for this.
ghost use Rattle.std.specs.Prelude.{◌≡◌, IfOk, IfSome};
ghost use Rattle.host_storage.specs.Files.{HostState};
ghost use Rattle.script_advice.specs.TextCause.{HasCauseFirst, IsFirstCause, IsFoundCause, IsFoundLine, can_be_read_again, text_cause_line};

use cbm_text::{BasicFault, Cause, FaultyLine, PROGRAM_START, faulty_lines};
use host_storage::Host;
use script_lines::Status;
use script_lines::host_file::HOST_FILE_BYTES;
use std::alloc::{AllocError, Global};

/// The line about the text in the host file with this name that was refused with this status: after
/// this beginning, what is wrong with it, if it is still there and there is memory.
pub(crate) fn text_line<H: Host>(
    alloc: Global,
    host: &mut H,
    start: &[u8],
    name: &str,
    status: &Status,
) -> Option<Vec<u8>>
    ensures line { IfSome result (λ line. IsFoundLine (H.state host.old) start.now name.now status.now line.items) }
    ensures files_kept { (H.state host.new).files ≡ (H.state host.old).files }
{
    let cause = text_cause(alloc, host, name, status)?;
    line_about(alloc, start, name, cause).ok()
}

/// The line about a text with what is wrong with it.
#[tactic(auto, unfolding(crate::specs::TextCause::text_cause_line))]
fn line_about(alloc: Global, start: &[u8], name: &str, cause: Cause) -> Result<Vec<u8>, AllocError>
    ensures { IfOk result (λ line. line.items ≡ text_cause_line start.now name.now cause) }
{
    let mut line = Vec::new(alloc);
    line.extend_from_slice(start)?;
    line.extend_from_slice(b"the text \"")?;
    line.extend_from_slice(name.as_bytes())?;
    line.extend_from_slice(b"\" is not a program: ")?;
    cause.push_to(&mut line)?;
    line.extend_from_slice(b"\n")?;
    Ok(line)
}

/// What is wrong with the text in the host file with this name that was refused with this status.
fn text_cause<H: Host>(alloc: Global, host: &mut H, name: &str, status: &Status) -> Option<Cause>
    ensures cause { IfSome result (IsFoundCause (H.state host.old) name.now status.now) }
    ensures files_kept { (H.state host.new).files ≡ (H.state host.old).files }
{
    let Status::BasicText(fault) = *status else {
        return None;
    };
    if !can_be_read_again(name) {
        return None;
    }
    let mut text = Vec::new(alloc);
    host.fill(name, HOST_FILE_BYTES, &mut text).ok()?;
    first_cause(alloc, text.as_slice(), &fault)
}

/// Whether a host file can be read twice: a device's content can be read only once.
fn can_be_read_again(name: &str) -> bool
    ensures { result ≡ can_be_read_again name.now }
{
    !name.starts_with("/dev/") && !name.starts_with("/proc/")
}

/// What is wrong with the first faulty line of a text, if that has this fault.
fn first_cause(alloc: Global, text: &[u8], fault: &BasicFault) -> Option<Cause>
    ensures { IfSome result (IsFirstCause text.now fault.now) }
{
    let found = faulty_lines(alloc, PROGRAM_START, text, 1).ok()?;
    cause_in(found.lines.as_slice(), fault)
}

/// The cause of the first faulty line, if it has this fault.
fn cause_in(lines: &[FaultyLine<'_>], fault: &BasicFault) -> Option<Cause>
    ensures { IfSome result (HasCauseFirst lines.now fault.now) }
{
    match lines {
        [] => None,
        [first, ..] => {
            if first.fault == *fault {
                Some(first.cause)
            } else {
                None
            }
        }
    }
}
