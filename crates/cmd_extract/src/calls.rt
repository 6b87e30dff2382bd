//! The calls that are made of the host.
ghost use Rattle.std.specs.Prelude.{◌≡◌};
ghost use Rattle.std.specs.Str.{is_utf8};
ghost use Rattle.cmd_extract.specs.Work.{CallReturns, IsReasonAt, Look, Folder, NewFolder, NewFile, MoreOfFile, Rename};

use host_storage::{FolderFault, Host};
use program_console::{Reason, reason_unwritten};

/// Whether a path exists.
pub(crate) fn is_there<H: Host>(host: &H, path: &str) -> bool
    ensures { CallReturns (Look path.now) (H.state host.now) result (H.state host.now) }
{
    host.is_there(path)
}

/// Makes a folder unless it exists, and returns whether it does then.
pub(crate) fn have_folder<H: Host>(host: &mut H, path: &str) -> bool
    ensures { CallReturns (Folder path.now) (H.state host.old) result (H.state host.new) }
{
    match host.make_folder(path) {
        Ok(()) => true,
        Err(FolderFault::Exists) => true,
        Err(FolderFault::Device) => false,
    }
}

/// Makes a new folder, and returns whether it could be made.
pub(crate) fn make_folder<H: Host>(host: &mut H, path: &str) -> bool
    ensures { CallReturns (NewFolder path.now) (H.state host.old) result (H.state host.new) }
{
    host.make_folder(path).is_ok()
}

/// Makes a new file, with these bytes, and returns whether it could be made.
pub(crate) fn make_file<H: Host>(host: &mut H, path: &[u8], bytes: &[u8]) -> bool
    ensures { CallReturns (NewFile path.now bytes.now) (H.state host.old) result (H.state host.new) }
{
    match str::from_utf8(path) {
        Ok(path) => host.make_file(path, bytes).is_ok(),
        Err(_) => false,
    }
}

/// Appends these bytes to a file, and returns whether they could be appended.
pub(crate) fn extend_file<H: Host>(host: &mut H, path: &[u8], bytes: &[u8]) -> bool
    ensures { CallReturns (MoreOfFile path.now bytes.now) (H.state host.old) result (H.state host.new) }
{
    match str::from_utf8(path) {
        Ok(path) => host.extend_file(path, bytes).is_ok(),
        Err(_) => false,
    }
}

/// Returns why the last call, which was refused, could not be done at this path, as far as the host
/// can say.
pub(crate) fn reason_at<H: Host>(host: &H, path: &[u8]) -> Option<Reason>
    ensures { IsReasonAt (is_utf8 path.now) (H.state host.now).files path.now result }
{
    match str::from_utf8(path) {
        Ok(path) => reason_unwritten(host, path),
        Err(_) => None,
    }
}

/// Gives a folder another path, and returns whether it has that then.
pub(crate) fn rename<H: Host>(host: &mut H, from: &str, to: &str) -> bool
    ensures { CallReturns (Rename from.now to.now) (H.state host.old) result (H.state host.new) }
{
    host.rename_folder(from, to).is_ok()
}
