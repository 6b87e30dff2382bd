//! How the files of the system are opened for writing.

ghost use Rattle.std.specs.Prelude.{◌≡◌, true, false};
ghost use Rattle.std.specs.Fs.{asks_write, asks_append, asks_truncate, asks_create, asks_create_new};

use std::fs::OpenOptions;
use std::os::unix::fs::OpenOptionsExt;

/// To make a file under a name that no file has, with these permissions at most.
pub fn to_make(mode: u32) -> OpenOptions
    ensures { (asks_write result ≡ true) × (asks_create_new result ≡ true) × (asks_append result ≡ false) }
{
    let mut options = OpenOptions::new();
    // No contract says that `mode` leaves the other options as they are.
    options.mode(mode);
    options.write(true).create_new(true).append(false);
    options
}

/// To open a file that is there, which stays as it is until something is written to its end.
pub fn to_append() -> OpenOptions
    ensures { (asks_append result ≡ true) × (asks_truncate result ≡ false) × (asks_create result ≡ false) × (asks_create_new result ≡ false) }
{
    let mut options = OpenOptions::new();
    options.append(true);
    options
}

/// To open a file that is there, which stays as it is until something is written over its
/// beginning.
pub fn to_write() -> OpenOptions
    ensures { (asks_write result ≡ true) × (asks_append result ≡ false) × (asks_truncate result ≡ false) × (asks_create result ≡ false) × (asks_create_new result ≡ false) }
{
    let mut options = OpenOptions::new();
    options.write(true);
    options
}
