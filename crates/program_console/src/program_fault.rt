//! `ProgramFault`: what stops the program, and the lines that report it.
ghost use Rattle.std.specs.Prelude.{◌≡◌, ◌≢◌, ◌↔◌, ◌≤◌, ◌+◌, ◌++◌, Bool, false, length};
ghost use Rattle.arrayvec.specs.ArrayVec.{array_vec_len};
ghost use Rattle.program_console.specs.Outside.{account_at};
ghost use Rattle.host_storage.specs.Output.{account_of};
ghost use Rattle.program_console.specs.Faults.{Reports, ReportsText, fault_of_file, fault_of_stream, program_fault_text, fault_begin, line_with};
ghost use Rattle.program_console.specs.declared.program_fault.ProgramFault.TheVariants.{Memory, UnreadableArgument};

use crate::exit_status::NOT_RUN;
use crate::stream_fault::StreamFault;
use arrayvec::ArrayVec;
use host_storage::{HostFault, OutputStream};
use itoa::Buffer;
use std::alloc::AllocError;
use std::io::{ErrorKind, Write};
use thiserror::Error;

/// The most bytes of the line that reports a fault.
const MAX_FAULT_LINE: usize = 64;

/// Why the program ends with status 2, beside faults of its arguments. Each is reported by one line
/// on the standard error.
#[derive(Clone, Copy, Debug, PartialEq, Eq, Error)]
#[error("{}", self.text())]
pub enum ProgramFault {
    /// The arguments of the process are not UTF-8.
    UnreadableArgument,
    /// The image file has this many bytes; an image has 174,848 or 196,608.
    #[error("{}{}", self.text(), .0)]
    WrongLength(usize),
    /// The image file is missing, cannot be read, or has more than 16,777,216 bytes.
    UnreadableImage,
    /// The session file is missing, cannot be read, or has more than 67,108,864 bytes.
    UnreadableSession,
    /// The bytes of the session file are not a session; the number says what is wrong with them.
    #[error("{}{}", self.text(), .0)]
    NoSession(u8),
    /// The input cannot be read to its end, or a tool's file cannot be read. The lines of a script
    /// that were ended before have run.
    Read,
    /// The output takes no more bytes.
    Write,
    Memory,
}

impl ProgramFault {
    /// Writes the line that reports the fault, and returns the exit status. If a write fails or
    /// takes nothing, the rest of the line is dropped. A contract cannot say of a plain writer
    /// whether one has: `report_on` is for a stream, of which it can.
    pub fn report<F: Write>(self, faults: &mut F) -> u8
        ensures { (failed : Bool) × Reports self (account_of (F.contents faults.old) false) (account_of (F.contents faults.new) failed) result }
    {
        let mut stream = OutputStream::new(faults);
        self.report_on(&mut stream)
    }

    /// Writes the line that reports the fault, whole unless writing it fails, and returns the exit
    /// status.
    pub fn report_on<F: Write>(self, faults: &mut OutputStream<'_, F>) -> u8
        ensures faults { faults.new.writer.ghost_name ≡ faults.old.writer.ghost_name }
        ensures reported { Reports self (account_at F.contents faults.old)
            (account_at F.contents faults.new) result }
    {
        let _ = faults.write(self.line().as_slice());
        NOT_RUN
    }

    /// Returns the line that reports the fault, with its line feed. It takes no memory.
    #[tactic(auto, unfolding(crate::specs::Faults::program_fault_text))]
    fn line(self) -> ArrayVec<u8, MAX_FAULT_LINE>
        ensures { result.items ≡ line_with (program_fault_text self) }
    {
        match self {
            ProgramFault::WrongLength(length) => {
                line_of(self.text(), Buffer::new().format(length))
            }
            ProgramFault::NoSession(fault) => line_of(self.text(), Buffer::new().format(fault)),
            _ => line_of(self.text(), ""),
        }
    }

    /// Returns the text of the fault, without its number if it has one.
    fn text(self) -> &'static str
        ensures text { result.now ≡ fault_begin self }
        ensures fits { length result.now ≤ 36 }
    {
        match self {
            ProgramFault::UnreadableArgument => "usage: an argument is not UTF-8",
            ProgramFault::WrongLength(_) => "image: wrong length ",
            ProgramFault::UnreadableImage => "image: cannot be read",
            ProgramFault::UnreadableSession => "session: cannot be read",
            ProgramFault::NoSession(_) => "session: fault ",
            ProgramFault::Read => "read fault",
            ProgramFault::Write => "write fault",
            ProgramFault::Memory => "out of memory",
        }
    }

    /// Returns the fault for arguments of the process that cannot be had, by the kind of the
    /// system's error: memory ran out, or one of them is not UTF-8.
    pub fn of_arguments(kind: ErrorKind) -> ProgramFault
        ensures memory { (result ≡ Memory) ↔ (kind ≡ ErrorKind.OutOfMemory) }
        ensures text { kind ≢ ErrorKind.OutOfMemory → result ≡ UnreadableArgument }
    {
        match kind {
            ErrorKind::OutOfMemory => ProgramFault::Memory,
            _ => ProgramFault::UnreadableArgument,
        }
    }

    /// Returns the fault for a file that cannot be fetched: `unreadable`, or that memory ran out.
    pub fn of_file(fault: HostFault, unreadable: ProgramFault) -> ProgramFault
        ensures { result ≡ fault_of_file unreadable fault }
    {
        match fault {
            HostFault::Memory(_) => ProgramFault::Memory,
            HostFault::Missing | HostFault::Device | HostFault::TooLong => unreadable,
        }
    }
}

/// Writes the line with this text, whole unless writing it fails, and returns the exit status.
pub(crate) fn report_text<F: Write>(text: &str, faults: &mut OutputStream<'_, F>) -> u8
    requires { length text.now ≤ 56 }
    ensures faults { faults.new.writer.ghost_name ≡ faults.old.writer.ghost_name }
    ensures reported { ReportsText text.now (account_at F.contents faults.old)
        (account_at F.contents faults.new) result }
{
    let _ = faults.write(line_of(text, "").as_slice());
    NOT_RUN
}

/// Returns the line of a fault's text and the number after it.
fn line_of(text: &str, number: &str) -> ArrayVec<u8, MAX_FAULT_LINE>
    requires { length text.now + length number.now ≤ 56 }
    ensures { result.items ≡ line_with (text.now ++ number.now) }
{
    let mut line = ArrayVec::new();
    push_bytes(&mut line, b"d64sh: ");
    push_bytes(&mut line, text.as_bytes());
    push_bytes(&mut line, number.as_bytes());
    push_bytes(&mut line, b"\n");
    line
}

/// Appends bytes that the line has space for.
fn push_bytes(line: &mut ArrayVec<u8, MAX_FAULT_LINE>, bytes: &[u8])
    requires { array_vec_len line.old + length bytes.now ≤ 64 }
    ensures bytes { line.new.items ≡ line.old.items ++ bytes.now }
    ensures len { array_vec_len line.new ≡ array_vec_len line.old + length bytes.now }
{
    let _ = line.try_extend_from_slice(bytes);
}

impl From<AllocError> for ProgramFault {
    ghost from_gives = { λ _ fault. fault ≡ Memory };

    fn from(_error: AllocError) -> ProgramFault {
        ProgramFault::Memory
    }
}

impl From<StreamFault> for ProgramFault {
    ghost from_gives = { λ fault reported. reported ≡ fault_of_stream fault };

    fn from(fault: StreamFault) -> ProgramFault {
        match fault {
            StreamFault::Read => ProgramFault::Read,
            StreamFault::Write => ProgramFault::Write,
            StreamFault::Memory => ProgramFault::Memory,
        }
    }
}
