//! Names of the host and files of wrong lengths, in words.

use host_storage::push_shown;
use out_messages::{unread_line, wrong_length_line};
use std::alloc::{AllocError, Global};

#[test]
fn names_are_shown_without_controls(rt: HostRuntime) {
    let mut out = Vec::new(rt.alloc());
    let name = b"a\\b\n\x7f\xc2\x9b\xe2\x80\xae\xff\xc3\xa9\xe2\x82";
    assert!(rt; push_shown(&mut out, name).is_ok());
    assert!(rt;
        out.as_slice() == b"a\\\\b\\u{a}\\u{7f}\\u{9b}\\u{202e}\\xff\xc3\xa9\\xe2\\x82".as_slice()
    );
}

/// What is printed of files with this many bytes of 0.
const LENGTHS: [(usize, &[u8]); 9] = [
    (
        174_000,
        b"d64sh: x.d64: wrong length 174000 (a 35-track image cut short)\n",
    ),
    (
        190_000,
        b"d64sh: x.d64: wrong length 190000 (a 40-track image cut short)\n",
    ),
    (206_114, b"d64sh: x.d64: wrong length 206114 (42 tracks)\n"),
    (
        349_696,
        b"d64sh: x.d64: wrong length 349696 (a 1571 image)\n",
    ),
    (
        822_400,
        b"d64sh: x.d64: wrong length 822400 (a 1581 image)\n",
    ),
    (
        176_640,
        b"d64sh: x.d64: wrong length 176640 (a D67 image)\n",
    ),
    (
        1_066_496,
        b"d64sh: x.d64: wrong length 1066496 (a D82 image)\n",
    ),
    (0, b"d64sh: x.d64: wrong length 0 (an empty file)\n"),
    (5, b"d64sh: x.d64: wrong length 5\n"),
];

/// Whether this line is printed of a file with these bytes.
fn is_line_of(alloc: Global, name: &[u8], bytes: &[u8], line: &[u8]) -> bool {
    let mut out = Vec::new(alloc);
    wrong_length_line(&mut out, name, bytes).is_ok() && out.as_slice() == line
}

/// Whether this line is printed of a file with this many bytes of 0.
fn is_line_of_zeros(alloc: Global, length: usize, line: &[u8]) -> bool {
    match vec![in alloc; 0; length] {
        Ok(bytes) => is_line_of(alloc, b"x.d64", bytes.as_slice(), line),
        Err(AllocError) => false,
    }
}

#[test]
fn lengths_are_printed_with_a_guess(rt: HostRuntime) {
    for (length, line) in &LENGTHS {
        assert!(rt; is_line_of_zeros(rt.alloc(), *length, line), "{length}");
    }
}

/// What is printed of files that begin with these bytes.
const BEGINNINGS: [(&[u8], &[u8]); 6] = [
    (b"GCR-1541\0", b"d64sh: x: bad G64\n"),
    (b"PK\x03\x04", b"d64sh: x: wrong length 4 (a zip archive)\n"),
    (b"\x1f\x8b", b"d64sh: x: wrong length 2 (a gzip file)\n"),
    (
        b"C64 tape image file",
        b"d64sh: x: wrong length 19 (a T64 archive)\n",
    ),
    (b"C64File\0x", b"d64sh: x: wrong length 9 (a P00 file)\n"),
    (
        b"MNIB-1541-RAW\x03",
        b"d64sh: x: wrong length 14 (a NIB image)\n",
    ),
];

#[test]
fn first_bytes_are_recognised(rt: HostRuntime) {
    for (bytes, line) in &BEGINNINGS {
        assert!(rt; is_line_of(rt.alloc(), b"x", bytes, line), "{bytes:?}");
    }
}

#[test]
fn a_name_that_cannot_be_read_is_shown(rt: HostRuntime) {
    let mut out = Vec::new(rt.alloc());
    assert!(rt; unread_line(&mut out, b"a\nb").is_ok());
    assert!(rt; out.as_slice() == b"d64sh: a\\u{a}b: cannot be read\n".as_slice());
}
