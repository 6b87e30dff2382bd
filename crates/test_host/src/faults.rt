//! The texts of faults that no host and no arguments make when they are asked to.

use host_storage::{FolderFault, HostFault, WriteFault};
use program_arguments::JobFault;
use std::alloc::{AllocError, Global};
use std::fmt::Display;

/// The faults of a host, and their texts.
const FAULTS: [(HostFault, &str); 4] = [
    (
        HostFault::Missing,
        "no such file; check the name, and the folder that the shell was started in",
    ),
    (
        HostFault::Device,
        "the file cannot be read or written; check that it is a file, and that you may use it and its folder",
    ),
    (
        HostFault::TooLong,
        "the file is too long for this; choose a shorter one",
    ),
    (HostFault::Memory(AllocError), "out of memory"),
];

/// Whether this is the text of a fault.
fn is_text_of(alloc: Global, fault: &impl Display, text: &str) -> bool {
    match fault.to_string(alloc) {
        Ok(shown) => shown.as_str() == text,
        Err(AllocError) => false,
    }
}

#[test]
fn faults_say_what_to_do(rt: HostRuntime) {
    for (fault, text) in &FAULTS {
        assert!(rt; is_text_of(rt.alloc(), fault, text), "{text}");
    }
}

#[test]
fn other_faults_say_what_is_wrong(rt: HostRuntime) {
    assert!(rt; is_text_of(rt.alloc(), &FolderFault::Exists, "is there already"));
    assert!(rt; is_text_of(rt.alloc(), &FolderFault::Device, "cannot be written"));
    assert!(rt; is_text_of(rt.alloc(), &JobFault::Memory, "out of memory"));
    assert!(rt; is_text_of(rt.alloc(), &WriteFault, "the output took no more bytes"));
}
