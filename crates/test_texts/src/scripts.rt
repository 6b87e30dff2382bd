//! The text of scripts and of their output.

use cbm_text::{BasicFault, ListFault};
use d64_files::DirFault;
use host_storage::{HostFault, InputStream, write_bytes};
use script_lines::Status;
use script_text::dump::dump;
use script_text::held_line::HeldLine;
use script_text::number::number;
use script_text::raw_lines::{RawLines, is_skipped, text};
use script_text::script::read_input;
use script_text::words::{NoWords, Words};
use std::alloc::Global;

#[test]
fn shows_sixteen_lines(rt: HostRuntime) {
    let lines = dump(&[1; 256]);
    let shown = lines.as_slice();
    assert!(rt; shown.len() == 832);
    assert!(rt; shown.starts_with(b"00: 01 01 01 01 01 01 01 01 01 01 01 01 01 01 01 01\n10: 01"));
    assert!(rt; shown.ends_with(b"\nf0: 01 01 01 01 01 01 01 01 01 01 01 01 01 01 01 01\n"));
}

/// Whether these words come one after another, and then none.
fn are_next(words: &mut Words<'_>, expected: &[&[u8]]) -> bool {
    for wanted in expected {
        if words.next() != Some(*wanted) {
            return false;
        }
    }
    words.next().is_none()
}

/// Whether a line is split so.
fn are_words(line: &[u8], expected: &[&[u8]]) -> bool {
    match Words::of(line) {
        Ok(mut found) => found.len() == expected.len() && are_next(&mut found, expected),
        Err(NoWords) => false,
    }
}

/// Lines, and what each is split into.
const WORDS: [(&[u8], &[&[u8]]); 6] = [
    (b"", &[]),
    (b"   ", &[]),
    (b"\"\"", &[b""]),
    (b"  undo ", &[b"undo"]),
    (b"block 17  0", &[b"block", b"17", b"0"]),
    (
        b"bread \"my block\" 1 0",
        &[b"bread", b"my block", b"1", b"0"],
    ),
];

#[test]
fn splits_lines(rt: HostRuntime) {
    for (line, words) in &WORDS {
        assert!(rt; are_words(line, words), "{line:?}");
    }
}

/// Lines with misplaced quotes or other bytes.
const NO_WORDS: [&[u8]; 6] = [
    b"save \"a",
    b"a\"b",
    b"\"a\"b",
    b"\"a\"\"b\"",
    b"a\x7f",
    b"a\tb",
];

#[test]
fn refuses_misplaced_quotes_and_other_bytes(rt: HostRuntime) {
    for line in &NO_WORDS {
        assert!(rt; Words::of(line).is_err(), "{line:?}");
    }
}

#[test]
fn refuses_lines_of_more_than_1024_bytes(rt: HostRuntime) {
    assert!(rt; are_words(&[b' '; 1024], &[]) && Words::of(&[b' '; 1025]).is_err());
}

/// The statuses, and the line of each.
const STATUSES: [(Status, &str); 24] = [
    (Status::Done, "00, OK,00,00\n"),
    (
        Status::FilesScratched { count: 2 },
        "01,FILES SCRATCHED,02,00\n",
    ),
    (
        Status::FilesScratched { count: 144 },
        "01,FILES SCRATCHED,144,00\n",
    ),
    (Status::SyntaxError, "30,SYNTAX ERROR,00,00\n"),
    (Status::UnknownCommand, "31,SYNTAX ERROR,00,00\n"),
    (Status::LongLine, "32,SYNTAX ERROR,00,00\n"),
    (Status::BadName, "33,SYNTAX ERROR,00,00\n"),
    (Status::MissingArgument, "34,SYNTAX ERROR,00,00\n"),
    (Status::WriteFileOpen, "60,WRITE FILE OPEN,00,00\n"),
    (Status::FileNotFound, "62,FILE NOT FOUND,00,00\n"),
    (Status::FileExists, "63,FILE EXISTS,00,00\n"),
    (Status::FileTypeMismatch, "64,FILE TYPE MISMATCH,00,00\n"),
    (
        Status::IllegalBlock {
            track: 36,
            sector: 0,
        },
        "66,ILLEGAL TRACK AND SECTOR,36,00\n",
    ),
    (
        Status::IllegalBlock {
            track: 1,
            sector: 21,
        },
        "66,ILLEGAL TRACK AND SECTOR,01,21\n",
    ),
    (
        Status::DirectoryError(DirFault::NoDirectory),
        "71,DIR ERROR,02,00\n",
    ),
    (Status::DiskFull, "72,DISK FULL,00,00\n"),
    (Status::HostFile(HostFault::Device), "80,HOST FILE,02,00\n"),
    (Status::NothingToUndo, "81,NOTHING TO UNDO,00,00\n"),
    (Status::NothingToRedo, "82,NOTHING TO REDO,00,00\n"),
    (Status::NotOneBlock, "83,NOT ONE BLOCK,00,00\n"),
    (
        Status::BasicText(BasicFault::NoNumber { line: 1 }),
        "84,BASIC TEXT,01,01\n",
    ),
    (
        Status::NotBasic(ListFault::NoAddress),
        "85,NOT BASIC,01,00\n",
    ),
    (Status::FileLost, "86,FILE LOST,00,00\n"),
    (Status::OutOfMemory, "90,OUT OF MEMORY,00,00\n"),
];

/// Whether a status has this line, and is accepted if its number says so.
fn is_shown(status: &Status, line: &str) -> bool {
    let shown = status.line();
    shown.as_slice() == line.as_bytes() && status.is_accepted() == (status.number() < 2)
}

#[test]
fn shows_each_status(rt: HostRuntime) {
    for (status, line) in &STATUSES {
        assert!(rt; is_shown(status, line), "{line}");
    }
}

/// Arguments, and the byte that each is.
const NUMBERS: [(&[u8], Option<u8>); 8] = [
    (b"0", Some(0)),
    (b"036", Some(36)),
    (b"255", Some(255)),
    (b"", None),
    (b"256", None),
    (b"0001", None),
    (b"+1", None),
    (b"x", None),
];

#[test]
fn reads_one_to_three_digits_of_a_byte(rt: HostRuntime) {
    for (argument, byte) in &NUMBERS {
        assert!(rt; number(argument) == *byte, "{argument:?}");
    }
}

/// The lines of the text below.
const LINES: [&[u8]; 4] = [b"a\r\n", b"\n", b";\rb\n", b"c\r"];

/// Whether these lines come one after another, and then none.
fn are_lines(lines: &mut RawLines<'_>, expected: &[&[u8]]) -> bool {
    for wanted in expected {
        if lines.next() != Some(*wanted) {
            return false;
        }
    }
    lines.next().is_none()
}

#[test]
fn lines_end_with_a_line_feed(rt: HostRuntime) {
    assert!(rt; are_lines(&mut RawLines(b"a\r\n\n;\rb\nc\r"), &LINES));
}

/// Lines, and their texts.
const TEXTS: [(&[u8], &[u8]); 3] = [(b"a\r\r\n", b"a\r"), (b"\n", b""), (b"c\r", b"c\r")];

#[test]
fn only_the_end_of_a_line_is_no_text(rt: HostRuntime) {
    for (line, wanted) in &TEXTS {
        assert!(rt; text(line) == *wanted, "{line:?}");
    }
}

/// Whether these bytes and a line feed are held as a line of this text.
fn is_held(held: &mut HeldLine, line: &[u8], wanted: Option<&[u8]>) -> bool {
    held.clear();
    held.push(line);
    held.end_with_line_feed();
    held.text() == wanted
}

#[test]
fn a_carriage_return_counts_for_the_length(rt: HostRuntime) {
    let mut line = [b'a'; 1025];
    line[1024] = b'\r';
    let mut held = HeldLine::new();
    assert!(rt; is_held(&mut held, &line[1..], Some(&line[1..1024])));
    assert!(rt; is_held(&mut held, &line, None));
}

#[test]
fn blanks_and_comments_are_skipped(rt: HostRuntime) {
    assert!(rt;
        is_skipped(b"") && is_skipped(b"  ") && is_skipped(b";quit") && is_skipped(b"  ; quit")
    );
    assert!(rt; !is_skipped(b" quit ;") && !is_skipped(b"\t"));
}

/// Whether a script is read as a whole.
fn is_read(alloc: Global, text: &[u8]) -> bool {
    let mut reader = text;
    match read_input(alloc, &mut InputStream::new(&mut reader)) {
        Ok(script) => script.whole && script.bytes.as_slice() == text,
        Err(_) => false,
    }
}

#[test]
fn reads_whole_scripts(rt: HostRuntime) {
    assert!(rt; is_read(rt.alloc(), b"undo\nredo"));
}

/// Whether all bytes are written.
fn is_written(alloc: Global, bytes: &[u8]) -> bool {
    let mut written = Vec::new(alloc);
    write_bytes(&mut written, bytes).is_ok() && written.as_slice() == bytes
}

#[test]
fn writes_what_a_writer_has_room_for(rt: HostRuntime) {
    assert!(rt; is_written(rt.alloc(), b"00, OK,00,00\n"));
    let mut room = [0; 5];
    let mut writer = room.as_mut_slice();
    assert!(rt; write_bytes(&mut writer, b"00, OK").is_err());
    assert!(rt; room == *b"00, O");
}
