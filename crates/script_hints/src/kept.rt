//! What the host has of a session.
ghost use Rattle.std.specs.Prelude.{◌≡◌, option_copied, option_map};
ghost use Rattle.sha2.specs.Sha256.{sha256};
ghost use Rattle.script_hints.specs.Kept.{effect_of, is_unsaved, kept_after, kept_in, unless_replaced};

use d64_image::Image;
use script_advice::LineParts;
use script_lines::LineCommand;
use sha2::{Digest, Sha256};

/// The image that the host has, and the name of its file, each by its digest. A blank image has no
/// file.
#[derive(Clone, Copy)]
pub(crate) struct Kept {
    image: [u8; 32],
    file: Option<[u8; 32]>,
}

impl Kept {
    /// An image that the file with this name has.
    pub(crate) fn of(image: &Image, name: Option<&[u8]>) -> Kept
        ensures { result ≡ kept_in image.now (option_copied name.entry) }
    {
        Kept {
            image: Sha256::digest(image.bytes()),
            file: digest_of(name),
        }
    }
}

/// The digest of a name, if there is one.
fn digest_of(name: Option<&[u8]>) -> Option<[u8; 32]>
    ensures { result ≡ option_map sha256 (option_copied name.entry) }
{
    match name {
        Some(name) => Some(Sha256::digest(name)),
        None => None,
    }
}

/// What the host has after an accepted line with these arguments, which left this image. `save`
/// stores under `home` by default, and `read` under `found`.
pub(crate) fn kept_after(
    kept: Option<Kept>,
    home: Option<&str>,
    found: &[u8],
    parts: &LineParts<'_>,
    image: &Image,
) -> Option<Kept>
    ensures { result ≡ kept_after kept (effect_of (option_copied home.entry) found.now parts.now) image.now }
{
    match LineCommand::named(parts.command) {
        Some(LineCommand::Save) => {
            if parts.first.is_empty() {
                Some(Kept::of(image, home.map(str::as_bytes)))
            } else {
                Some(Kept::of(image, Some(parts.first.as_bytes())))
            }
        }
        Some(LineCommand::Keep) => Some(Kept::of(image, Some(parts.first.as_bytes()))),
        Some(LineCommand::Read) => {
            if parts.second.is_empty() {
                unless_replaced(kept, found)
            } else {
                unless_replaced(kept, parts.second.as_bytes())
            }
        }
        Some(LineCommand::BlockRead) => unless_replaced(kept, parts.first.as_bytes()),
        _ => kept,
    }
}

/// What the host has after something else was stored in the file with this name.
fn unless_replaced(kept: Option<Kept>, name: &[u8]) -> Option<Kept>
    ensures { result ≡ unless_replaced kept name.now }
{
    match kept {
        Some(kept) => {
            if kept.file == Some(Sha256::digest(name)) {
                None
            } else {
                Some(kept)
            }
        }
        None => None,
    }
}

/// Whether no file has this image.
pub(crate) fn is_unsaved(kept: Option<Kept>, image: &Image) -> bool
    ensures { result ≡ is_unsaved kept image.now }
{
    match kept {
        Some(kept) => kept.image != Sha256::digest(image.bytes()),
        None => true,
    }
}
