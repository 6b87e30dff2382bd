//! A host over the files of the system.
//!
//! Each function here takes any host and only borrows it, and one test calls them all: so the proof
//! looks once at all that the host over the system is made of. What the host returns is asserted and
//! not passed on by `?`, so that no way out drops anything.

use host_storage::{FolderFault, FolderHost, Host, HostFault};
use std::alloc::Global;
use std::os::unix::fs::{MetadataExt, symlink};
use std::process::Abort;
use std::rt::Files;
use std::{fs, io};

/// Whether a file has these bytes and no more.
fn has(alloc: Global, host: &mut impl Host, name: &str, bytes: &[u8]) -> bool {
    match host.fetch(alloc, name, bytes.len()) {
        Ok(found) => found.as_slice() == bytes,
        Err(_) => false,
    }
}

/// Whether a file has more bytes than these.
fn is_longer(alloc: Global, host: &mut impl Host, name: &str, limit: usize) -> bool {
    match host.fetch(alloc, name, limit) {
        Ok(_) => false,
        Err(fault) => fault == HostFault::TooLong,
    }
}

/// Stores a file twice, extends it, and fetches it.
fn keep_a_file(rt: &(impl Abort + Files), alloc: Global, host: &mut impl Host) {
    let name = "d64-shell-folder-host-test";
    assert!(rt; host.store(alloc, name, &[1, 2, 3]).is_ok());
    assert!(rt; host.store(alloc, name, &[4, 5]).is_ok());
    assert!(rt; host.extend_file(name, &[6]).is_ok());
    assert!(rt; has(alloc, host, name, &[4, 5, 6]));
    assert!(rt; is_longer(alloc, host, name, 2));
    assert!(rt; fs::remove_file(rt, name).is_ok());
}

/// Makes a folder with a file, and gives it another name.
fn rename_a_folder(rt: &(impl Abort + Files), host: &mut impl Host) {
    let folder = "d64-shell-new-folder-test";
    let renamed = "d64-shell-renamed-folder-test";
    let file = "d64-shell-renamed-folder-test/one";
    assert!(rt; host.make_folder(folder).is_ok());
    assert!(rt;
        host.make_file("d64-shell-new-folder-test/one", &[1, 2])
            .is_ok()
    );
    assert!(rt; host.rename_folder(folder, renamed).is_ok());
    assert!(rt; !host.is_there(folder) && host.is_there(file));
    assert!(rt; fs::remove_file(rt, file).is_ok());
    assert!(rt; fs::remove_dir(rt, renamed).is_ok());
}

/// A file, a link to it, and a link to that link.
const FILE: &str = "d64-shell-linked-file-test";

const LINK: &str = "d64-shell-link-to-a-file-test";

const OTHER: &str = "d64-shell-link-to-a-link-test";

/// Makes the links. There is no file yet.
fn make_links(rt: &impl Files) -> io::Result<()> {
    symlink(rt, FILE, LINK)?;
    symlink(rt, LINK, OTHER)
}

/// Returns the inode and the mode of the file.
fn inode_and_mode(rt: &impl Files) -> io::Result<(u64, u32)> {
    let made = fs::metadata(rt, FILE)?;
    Ok((made.ino(), made.mode()))
}

/// Stores bytes through both links, and returns the inode and the mode of the file then.
fn stored(
    rt: &impl Files,
    alloc: Global,
    host: &mut impl Host,
    bytes: &[u8],
) -> Option<(u64, u32)> {
    if host.store(alloc, OTHER, bytes).is_err() {
        return None;
    }
    inode_and_mode(rt).ok()
}

/// Whether there is a link at a path.
fn is_link(rt: &impl Files, path: &str) -> bool {
    match fs::symlink_metadata(rt, path) {
        Ok(found) => found.is_symlink(),
        Err(_) => false,
    }
}

/// Whether a second store through both links leaves another file, of the same mode.
fn is_replaced(rt: &impl Files, alloc: Global, host: &mut impl Host) -> bool {
    match (
        stored(rt, alloc, host, &[1]),
        stored(rt, alloc, host, &[2, 3]),
    ) {
        (Some(first), Some(second)) => first.0 != second.0 && first.1 == second.1,
        _ => false,
    }
}

/// Whether these files are removed.
fn are_removed(rt: &impl Files, paths: &[&str]) -> bool {
    for path in paths {
        if fs::remove_file(rt, path).is_err() {
            return false;
        }
    }
    true
}

/// Stores through links.
fn store_through_links(rt: &(impl Abort + Files), alloc: Global, host: &mut impl Host) {
    assert!(rt; make_links(rt).is_ok());
    assert!(rt; is_replaced(rt, alloc, host));
    assert!(rt; has(alloc, host, FILE, &[2, 3]));
    assert!(rt; is_link(rt, LINK) && is_link(rt, OTHER));
    assert!(rt; are_removed(rt, &[FILE, LINK, OTHER]));
}

/// Makes a whole file, and fails to make two others. The host has counted no failure before.
fn make_whole_files(rt: &(impl Abort + Files), alloc: Global, host: &mut impl Host) {
    let file = "d64-shell-whole-file-test";
    let lost = "d64-shell-whole-file-test-2/one";
    assert!(rt; host.make_whole_file(alloc, file, &[1, 2]).is_ok());
    assert!(rt; host.make_whole_file(alloc, file, &[3]) == Err(FolderFault::Exists));
    assert!(rt; has(alloc, host, file, &[1, 2]));
    assert!(rt; host.make_whole_file(alloc, lost, &[4]) == Err(FolderFault::Device));
    assert!(rt; host.failures() == 1);
    assert!(rt; fs::remove_file(rt, file).is_ok());
}

/// Fails to make a folder and files at a link that leads to nothing.
fn make_nothing_through_a_link(rt: &(impl Abort + Files), host: &mut impl Host) {
    let link = "d64-shell-dangling-link-test";
    assert!(rt; symlink(rt, "d64-shell-no-such-file", link).is_ok());
    assert!(rt; host.is_there(link) && !host.is_there("d64-shell-no-such-file"));
    assert!(rt; host.make_folder(link) == Err(FolderFault::Exists));
    assert!(rt; host.make_file(link, &[1]) == Err(FolderFault::Exists));
    assert!(rt; host.rename_folder(link, link) == Err(FolderFault::Exists));
    assert!(rt; !host.is_there("d64-shell-no-such-file"));
    assert!(rt; fs::remove_file(rt, link).is_ok());
}

/// Does all of this with a host, one after another.
fn use_all(rt: &(impl Abort + Files), alloc: Global, host: &mut impl Host) {
    make_whole_files(rt, alloc, host);
    keep_a_file(rt, alloc, host);
    rename_a_folder(rt, host);
    store_through_links(rt, alloc, host);
    make_nothing_through_a_link(rt, host);
}

#[test]
fn keeps_files_and_folders_of_the_system(rt: HostRuntime) {
    use_all(&rt, rt.alloc(), &mut FolderHost::new(&rt));
}
