//! Session files from readers that fail.

use d64_undo::{ReadNote, ResumeFault, SessionReadFault, resume_from};
use std::alloc::Global;
use std::io::{self, ErrorKind, Read};
use std::process::Abort;
use std::test::Fail;

/// A reader that gives bytes in pieces, and then fails or is at its end.
#[derive(Drop)]
struct Pieces<'a> {
    left: &'a [u8],
    fails: bool,
}

impl<'a> Read for Pieces<'a> {
    fn read(&mut self, buffer: &mut [u8]) -> io::Result<usize> {
        if self.fails && self.left.is_empty() {
            return Err(io::Error::from(ErrorKind::Other));
        }
        let room = buffer.len().min(4096);
        self.left.read(&mut buffer[..room])
    }
}

/// Returns why these bytes, after which reading fails or ends, are no session file.
fn fault_of(alloc: Global, bytes: &[u8], fails: bool, limit: u32) -> Option<SessionReadFault> {
    let mut reader = Pieces { left: bytes, fails };
    resume_from(alloc, &mut reader, &mut ReadNote::new(), limit).err()
}

/// Checks that a read that fails is reported, whatever came before it.
fn report_the_read(rt: &(impl Abort + AllocGlobal), other: &[u8]) {
    for bytes in [other, b"D64S", b""] {
        assert!(rt; fault_of(rt.alloc(), bytes, true, 600_000) == Some(SessionReadFault::Device));
    }
}

/// Checks that one byte more than the limit is reported, and that none more is not.
fn report_the_length(rt: &(impl Abort + AllocGlobal), other: &[u8]) {
    let no_session = Some(SessionReadFault::Resume(ResumeFault::NotSession));
    assert!(rt; fault_of(rt.alloc(), other, false, 499_999) == Some(SessionReadFault::TooLong));
    assert!(rt; fault_of(rt.alloc(), other, false, 500_000) == no_session);
}

/// Returns bytes that are no session file.
fn other_bytes(alloc: Global) -> Result<Vec<u8>, Fail> {
    Ok(vec![in alloc; 0x44u8; 500_000]?)
}

#[test]
fn a_read_that_fails_comes_before_other_faults(rt: HostRuntime) -> Result<(), Fail> {
    report_the_read(&rt, &other_bytes(rt.alloc())?);
    Ok(())
}

#[test]
fn a_byte_too_many_comes_before_other_bytes(rt: HostRuntime) -> Result<(), Fail> {
    report_the_length(&rt, &other_bytes(rt.alloc())?);
    Ok(())
}
