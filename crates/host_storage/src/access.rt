//! Who may use a new file in place of an old one: its owner, its group and its permissions.

ghost use Rattle.std.specs.Prelude.{◌≡◌, ◌≢◌, ◌↔◌, ◌&&◌, ◌%◌, true, bit_and, Ok, Err, MatchResult};
ghost use Rattle.std.specs.Fs.{metadata_mode};
ghost use Rattle.host_storage.specs.Access.{kept_mode};

use std::fs::{Metadata, OpenFile, Permissions};
use std::io;
use std::os::fd::AsFd;
use std::os::unix::fs::{MetadataExt, PermissionsExt, fchown};

/// Gives the new file the group, the owner and the permissions of the old one, as far as the system
/// allows it.
pub fn keep_access<F: OpenFile + AsFd>(old: &F, new: &F) -> io::Result<()> {
    let wanted = old.metadata()?;
    let made = new.metadata()?;
    let has_group = made.gid() == wanted.gid() || fchown(new, None, Some(wanted.gid())).is_ok();
    let has_owner = made.uid() == wanted.uid() || fchown(new, Some(wanted.uid()), None).is_ok();
    let mode = kept_mode(wanted.mode(), has_owner, has_group);
    set_mode(new, permissions_of(&made), mode)
}

/// Sets the permissions of a file, unless it has been made with them.
fn set_mode<F: OpenFile>(file: &F, made: u32, wanted: u32) -> io::Result<()> {
    if made == wanted {
        return Ok(());
    }
    or_within(
        file.set_permissions(Permissions::from_mode(wanted)),
        made,
        wanted,
    )
}

/// The permissions that a file has.
fn permissions_of(file: &Metadata) -> u32
    ensures { result ≡ metadata_mode file.now % 0o1000 }
{
    file.mode() % 0o1000
}

/// The outcome of setting permissions. If the system refuses it, as for files that belong to
/// another owner by their mount, the file keeps those that it was made with, if they are no more.
fn or_within(outcome: io::Result<()>, made: u32, wanted: u32) -> io::Result<()>
    ensures { MatchResult outcome (λ _. result ≡ Ok tt) (λ error. (bit_and made wanted ≡ made → result ≡ Ok tt) × (bit_and made wanted ≢ made → result ≡ Err error)) }
{
    match outcome {
        Err(_) if is_within(made, wanted) => Ok(()),
        outcome => outcome,
    }
}

/// Whether these permissions are no more than others.
fn is_within(made: u32, wanted: u32) -> bool
    ensures { (result ≡ true) ↔ (bit_and made wanted ≡ made) }
{
    made & wanted == made
}

/// The mode of the new file: the permissions of the old one. If its owner or its group is another,
/// the group and all others get only what both had.
fn kept_mode(mode: u32, has_owner: bool, has_group: bool) -> u32
    ensures { result ≡ kept_mode mode (has_owner && has_group) }
{
    if has_owner && has_group {
        return mode % 0o1000;
    }
    let owner = mode / 0o100 % 0o10;
    let shared = (mode / 0o10 % 0o10) & (mode % 0o10);
    owner * 0o100 + shared * 0o11
}
