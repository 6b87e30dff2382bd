//! The texts of faults and refusals.

use d64_dos::Refusal;
use d64_files::{BadName, DirFault, ReadFault};
use d64_image::ImageFault;
use d64_undo::{NothingToRedo, NothingToUndo, ResumeFault, SessionReadFault};
use std::alloc::{AllocError, Global};
use std::fmt::Display;
use std::process::Abort;

/// Whether this is the text of a fault.
fn is_text_of(alloc: Global, fault: &impl Display, text: &str) -> bool {
    match fault.to_string(alloc) {
        Ok(shown) => shown.as_str() == text,
        Err(AllocError) => false,
    }
}

/// Checks the texts of faults.
fn have_texts<F: Display>(rt: &(impl Abort + AllocGlobal), rows: &[(F, &str)]) {
    for (fault, text) in rows {
        assert!(rt; is_text_of(rt.alloc(), fault, text), "{text}");
    }
}

/// Those of an image.
const IMAGES: [(ImageFault, &str); 2] = [
    (
        ImageFault::WrongLength(174847),
        "an image has 174848 or 196608 bytes, and these are 174847",
    ),
    (ImageFault::Memory(AllocError), "out of memory"),
];

/// Those of a name.
const NAMES: [(BadName, &str); 3] = [
    (
        BadName::Empty,
        "the name is empty: it needs 1 to 16 characters",
    ),
    (
        BadName::TooLong,
        "the name is too long: at most 16 characters fit",
    ),
    (
        BadName::Forbidden,
        "a name can't hold = : , \" or a carriage return or shifted space, and only a pattern can hold * or ?",
    ),
];

/// Those of a disk.
const DISKS: [(DirFault, &str); 6] = [
    (
        DirFault::WrongCounts,
        "the block map's counts of free blocks don't fit its marks: validate the disk",
    ),
    (
        DirFault::NoDirectory,
        "the directory's chain from track 18, sector 1 is broken or loops: repair the links of its blocks",
    ),
    (
        DirFault::UnknownKind,
        "a directory entry has an unknown file type: set its type byte to one of $80 to $84, or to $00 to free it",
    ),
    (
        DirFault::NoChain,
        "the chain of a closed file is broken or loops: repair the links of its blocks, or mark the file as not closed",
    ),
    (
        DirFault::CrossLinked,
        "a block belongs to two files or to a file and the directory: read what can be saved of both, and write it to a new disk",
    ),
    (
        DirFault::MarkedFree,
        "the block map marks a block free that is in use: validate the disk",
    ),
];

/// Those of reading a file.
const FILES: [(ReadFault, &str); 4] = [
    (
        ReadFault::Directory(DirFault::MarkedFree),
        "the disk can't be read: the block map marks a block free that is in use: validate the disk",
    ),
    (
        ReadFault::NotFound,
        "there is no such file: list the directory to see which there are",
    ),
    (
        ReadFault::NotClosed,
        "the file was not closed after it was written",
    ),
    (ReadFault::WrongType, "a DEL entry has no content to read"),
];

#[test]
fn of_disks(rt: HostRuntime) {
    have_texts(&rt, &IMAGES);
    have_texts(&rt, &NAMES);
    have_texts(&rt, &DISKS);
    have_texts(&rt, &FILES);
}

/// Refusals of commands.
const REFUSALS: [(Refusal, &str); 8] = [
    (
        Refusal::NotClosed,
        "the file was not closed after it was written",
    ),
    (Refusal::NotFound, "there is no such file on the disk"),
    (
        Refusal::Exists,
        "there is a file of this name on the disk already",
    ),
    (
        Refusal::WrongType,
        "files of this type can't be written or read",
    ),
    (
        Refusal::Directory(DirFault::UnknownKind),
        "a directory entry has an unknown file type: set its type byte to one of $80 to $84, or to $00 to free it",
    ),
    (Refusal::Lost, "what was deleted under this name is lost"),
    (
        Refusal::DiskFull,
        "there is no room on the disk or in its directory",
    ),
    (Refusal::Memory, "out of memory"),
];

/// Those of a session file.
const SESSION_FILES: [(ResumeFault, &str); 6] = [
    (ResumeFault::NotSession, "this is not a session file"),
    (ResumeFault::Truncated, "the session file is cut short"),
    (
        ResumeFault::Trailing,
        "there is more after the session file's end",
    ),
    (
        ResumeFault::BadCursor,
        "the session file counts more records done than it has",
    ),
    (
        ResumeFault::BadRecord,
        "a record of the session file does not fit its image",
    ),
    (ResumeFault::Memory(AllocError), "out of memory"),
];

/// Those of reading one.
const SESSION_READS: [(SessionReadFault, &str); 3] = [
    (SessionReadFault::Device, "a read failed"),
    (SessionReadFault::TooLong, "the session file is too long"),
    (
        SessionReadFault::Resume(ResumeFault::Trailing),
        "there is more after the session file's end",
    ),
];

#[test]
fn of_commands_and_sessions(rt: HostRuntime) {
    have_texts(&rt, &REFUSALS);
    have_texts(&rt, &[(NothingToUndo, "nothing to undo")]);
    have_texts(&rt, &[(NothingToRedo, "nothing to redo")]);
    have_texts(&rt, &SESSION_FILES);
    have_texts(&rt, &SESSION_READS);
}
