//! Why the host file of a refused line cannot be read or written.
ghost use Rattle.std.specs.Prelude.{◌≡◌, nat_lt};
ghost use Rattle.script_lines.specs.LineCommand.{command_named};
ghost use Rattle.script_advice.specs.Advice.{reads_host_file};
ghost use Rattle.script_advice.specs.HostReason.{IsFileReason, IsHostReason, IsNamedReason, host_file_name};

use crate::advice::{Piece, host_piece, reads_host_file};
use crate::line_parts::LineParts;
use host_storage::{Host, HostFault};
use program_console::{Reason, reason_of, reason_unwritten};
use script_lines::{LineCommand, Status};

/// Why the host file of a line with these arguments, which was refused with this status, cannot be
/// read or written, as far as the host can say. The file of a `save` without a name is not looked
/// at.
pub(crate) fn host_reason<H: Host>(
    host: &H,
    parts: &LineParts<'_>,
    status: &Status,
) -> Option<Reason>
    ensures { IsHostReason (H.state host.now).files parts.now status.now result }
{
    match *status {
        Status::HostFile(HostFault::Device) => {
            named_reason(host, parts, LineCommand::named(parts.command))
        }
        _ => None,
    }
}

/// The same of a line of a command, if it names its host file.
fn named_reason<H: Host>(
    host: &H,
    parts: &LineParts<'_>,
    command: Option<LineCommand>,
) -> Option<Reason>
    ensures { IsNamedReason (nat_lt 1 parts.now.count) (H.state host.now).files parts.now command result }
{
    if parts.count > 1 {
        file_reason(
            host,
            host_file_name(parts, command),
            reads_host_file(command),
        )
    } else {
        None
    }
}

/// Why a file cannot be read, or be written.
fn file_reason<H: Host>(host: &H, name: &str, is_read: bool) -> Option<Reason>
    ensures { IsFileReason is_read (H.state host.now).files name.now result }
{
    if is_read {
        reason_of(host, name, HostFault::Device)
    } else {
        reason_unwritten(host, name)
    }
}

/// The name of the host file of a line of a command.
fn host_file_name<'a>(parts: &LineParts<'a>, command: Option<LineCommand>) -> &'a str
    ensures { result.now ≡ host_file_name parts.now command }
{
    match host_piece(parts, command) {
        Piece::Second => parts.second,
        _ => parts.first,
    }
}
