//! Reading and writing that goes on after a signal interrupts it.

use host_storage::Retrying;
use std::io::{self, ErrorKind, Read, Write};

/// A stream that fails once with an error of some kind, and then gives or takes one byte a call.
#[derive(Drop)]
struct FailsOnce {
    kind: Option<ErrorKind>,
}

impl Read for FailsOnce {
    fn read(&mut self, buffer: &mut [u8]) -> io::Result<usize> {
        match self.kind.take() {
            Some(kind) => Err(io::Error::from(kind)),
            None => b"a".as_slice().read(buffer),
        }
    }
}

impl Write for FailsOnce {
    fn write(&mut self, bytes: &[u8]) -> io::Result<usize> {
        match self.kind.take() {
            Some(kind) => Err(io::Error::from(kind)),
            None => Ok(bytes.len().min(1)),
        }
    }

    fn flush(&mut self) -> io::Result<()> {
        Ok(())
    }
}

/// The kinds of errors after which nothing is read, and those after which nothing is written.
const READ_ERRORS: [ErrorKind; 4] = [
    ErrorKind::BrokenPipe,
    ErrorKind::PermissionDenied,
    ErrorKind::Other,
    ErrorKind::UnexpectedEof,
];

const WRITE_ERRORS: [ErrorKind; 4] = [
    ErrorKind::BrokenPipe,
    ErrorKind::StorageFull,
    ErrorKind::Other,
    ErrorKind::WriteZero,
];

/// Reads from a stream that first fails with an error of this kind, and returns how many bytes
/// came, or the kind of the error.
fn read_after(kind: ErrorKind) -> Result<usize, ErrorKind> {
    let mut stream = Retrying(FailsOnce { kind: Some(kind) });
    match stream.read(&mut [0; 4]) {
        Ok(count) => Ok(count),
        Err(error) => Err(error.kind()),
    }
}

#[test]
fn reads_on_after_an_interrupt_alone(rt: HostRuntime) {
    assert!(rt; read_after(ErrorKind::Interrupted) == Ok(1));
    for kind in READ_ERRORS {
        assert!(rt; read_after(kind) == Err(kind), "{kind:?}");
    }
}

/// Writes two bytes to such a stream, and returns how many it took, or the kind of the error.
fn write_after(kind: ErrorKind) -> Result<usize, ErrorKind> {
    let mut stream = Retrying(FailsOnce { kind: Some(kind) });
    match stream.write(b"ab") {
        Ok(count) => Ok(count),
        Err(error) => Err(error.kind()),
    }
}

#[test]
fn writes_on_after_an_interrupt_alone(rt: HostRuntime) {
    assert!(rt; write_after(ErrorKind::Interrupted) == Ok(1));
    for kind in WRITE_ERRORS {
        assert!(rt; write_after(kind) == Err(kind), "{kind:?}");
    }
}

/// A reader that gives one byte a read, and each of whose reads is interrupted once.
#[derive(Drop)]
struct Stutter {
    left: u8,
    interrupted: bool,
}

impl Read for Stutter {
    fn read(&mut self, buf: &mut [u8]) -> io::Result<usize> {
        self.interrupted = !self.interrupted;
        if self.interrupted {
            return Err(io::Error::from(ErrorKind::Interrupted));
        }
        if self.left == 0 || buf.is_empty() {
            return Ok(0);
        }
        buf[0] = self.left;
        self.left -= 1;
        Ok(1)
    }
}

#[test]
fn reads_on_where_each_read_is_interrupted(rt: HostRuntime) {
    let mut reader = Retrying(Stutter {
        left: 3,
        interrupted: false,
    });
    let mut buffer = [0; 1];
    for byte in [3, 2, 1] {
        assert!(rt;
            matches!(reader.read(&mut buffer), Ok(1)) && buffer[0] == byte,
            "{byte}"
        );
    }
    assert!(rt; matches!(reader.read(&mut buffer), Ok(0)));
}
