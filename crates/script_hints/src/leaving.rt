//! What happens to changes that are not saved when a session is left.
ghost use Rattle.std.specs.Prelude.{◌≡◌, IfNone, IfOk, IfSome, option_copied};
ghost use Rattle.script_hints.specs.Leaving.{IsKeptUnder, kept_line, session_name};

use d64_undo::Session;
use host_storage::{Host, push_shown};
use std::alloc::{AllocError, Global};

/// Stores a session under its image's name with `.session` added, if there is an image and nothing
/// has that name, and returns the line that says so.
pub(crate) fn keep_session<H: Host>(
    alloc: Global,
    host: &mut H,
    home: Option<&str>,
    session: &Session,
) -> Option<Vec<u8>>
    ensures kept { IfSome result (λ line. IsKeptUnder (H.state host.old) (option_copied home.entry) session.now line.items (H.state host.new)) }
    ensures unkept { IfNone result ((H.state host.new).files ≡ (H.state host.old).files) }
{
    let name = session_name(alloc, home?).ok()?;
    if host.is_there(name.as_str()) {
        return None;
    }
    let line = kept_line(alloc, name.as_bytes()).ok()?;
    let file = session.keep(alloc).ok()?;
    host.store(alloc, name.as_str(), file.as_slice()).ok()?;
    Some(line)
}

/// The name of an image with `.session` added.
fn session_name(alloc: Global, image: &str) -> Result<String, AllocError>
    ensures { IfOk result (λ name. name.bytes.items ≡ session_name image.now) }
{
    [image, ".session"].concat(alloc)
}

/// The line that says that changes are kept in the file with this name.
fn kept_line(alloc: Global, name: &[u8]) -> Result<Vec<u8>, AllocError>
    ensures { IfOk result (λ line. line.items ≡ kept_line name.now) }
{
    let mut line = Vec::new(alloc);
    line.extend_from_slice(b"d64sh: changes are not saved; they are kept in ")?;
    push_shown(&mut line, name)?;
    line.extend_from_slice(b" (d64sh shell --resume ")?;
    push_shown(&mut line, name)?;
    line.extend_from_slice(b")\n")?;
    Ok(line)
}
