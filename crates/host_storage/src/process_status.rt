//! What the system shows of the process in the files below /proc/self.

use std::fs::{self, File};
use std::io::Read;
use std::os::unix::fs::MetadataExt;
use std::rt::Files;
use std::str;

/// The most bytes that are read of such a file, which is shorter.
const STATUS_BYTES: usize = 4096;

/// The number after this label in such a file, or None if there is no number.
pub fn number_after<R: Files>(rt: &R, path: &str, label: &str) -> Option<u64> {
    let mut bytes = [0; STATUS_BYTES];
    match File::open(rt, path) {
        Ok(mut file) => number_in(first_piece(&mut file, &mut bytes), label),
        Err(_) => None,
    }
}

/// What the first read of a file gives, or nothing if it fails.
fn first_piece<'b, F: Read>(file: &mut F, buffer: &'b mut [u8]) -> &'b [u8] {
    match file.read(buffer) {
        Ok(count) => &buffer[..count],
        Err(_) => &[],
    }
}

/// The number after this label in a text, or None if there is no number.
fn number_in(text: &[u8], label: &str) -> Option<u64> {
    let text = str::from_utf8(text).ok()?;
    let (_, rest) = text.split_once(label)?;
    rest.split_whitespace().next()?.parse().ok()
}

/// The device on which the files of processes are, if the system shows them.
pub fn device_of_processes<R: Files>(rt: &R) -> Option<u64> {
    let link = fs::symlink_metadata(rt, "/proc/self").ok()?;
    // The system's own link has no length; one that was copied from it has that of its text.
    if link.is_symlink() && link.len() == 0 {
        Some(link.dev())
    } else {
        None
    }
}
