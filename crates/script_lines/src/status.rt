//! The statuses of lines, and the status line of each.
ghost use Rattle.std.specs.Prelude.{◌≡◌, ◌+◌, ◌≤◌, ◌++◌, length};
ghost use Rattle.arrayvec.specs.ArrayVec.{array_vec_len};
ghost use Rattle.script_lines.specs.Status.{is_accepted, status_row, status_details, status_line, two_digits};

use arrayvec::ArrayVec;
use cbm_text::{BasicFault, ListFault};
use d64_files::DirFault;
use host_storage::HostFault;
use itoa::Buffer;
use std::alloc::AllocError;

/// How many bytes a status line takes at most.
pub const MAX_STATUS_LINE: usize = 128;

/// The least number of a refused line.
const FIRST_REFUSAL: u8 = 30;

/// The status of a line of a script. The numbers up to 72 are those of the drive's error channel
/// (1541 User's Guide); those from 80 on are this project's own.
#[derive(Clone, Copy, PartialEq, Eq)]
pub enum Status {
    /// 00: the line was accepted.
    Done,
    /// 01: the line was accepted, and this many files were deleted.
    FilesScratched { count: usize },
    /// 30: the line has a byte or a quote that no line has, too many arguments, or an argument that
    /// its command does not take.
    SyntaxError,
    /// 31: there is no such command.
    UnknownCommand,
    /// 32: the line is longer than 1,024 bytes.
    LongLine,
    /// 33: a name, a pattern, an id or the name of a host file is not valid.
    BadName,
    /// 34: the command takes more arguments.
    MissingArgument,
    /// 60: the file was never closed.
    WriteFileOpen,
    /// 62: there is no such file on the disk.
    FileNotFound,
    /// 63: there is a file of this name on the disk.
    FileExists,
    /// 64: files of this type can't be written or read.
    FileTypeMismatch,
    /// 66: the disk has no such block.
    IllegalBlock { track: u8, sector: u8 },
    /// 71: the disk fails this condition of a sound disk.
    DirectoryError(DirFault),
    /// 72: the disk or its directory is full.
    DiskFull,
    /// 80: the host refuses the file with this fault.
    HostFile(HostFault),
    /// 81: no command comes before the present image.
    NothingToUndo,
    /// 82: no command was undone.
    NothingToRedo,
    /// 83: the host file isn't 256 bytes long.
    NotOneBlock,
    /// 84: the text isn't a BASIC program, because of this fault.
    BasicText(BasicFault),
    /// 85: the file isn't a BASIC program, because of this fault.
    NotBasic(ListFault),
    /// 86: what was deleted under this name can't be brought back.
    FileLost,
    /// 90: out of memory.
    OutOfMemory,
}

impl From<AllocError> for Status {
    ghost use Rattle.std.specs.Prelude.{◌≡◌};
    ghost use Rattle.script_lines.specs.declared.status.Status.TheVariants.{OutOfMemory};

    ghost from_gives = { λ _ status. status ≡ OutOfMemory };

    fn from(_error: AllocError) -> Status {
        Status::OutOfMemory
    }
}

impl Status {
    /// The number at the beginning of the status line.
    pub fn number(&self) -> u8
        ensures { result ≡ (status_row self.now).0 }
    {
        self.row().0
    }

    /// Whether the line was accepted: the numbers below 30.
    pub fn is_accepted(&self) -> bool
        ensures { result ≡ is_accepted self.now }
    {
        self.number() < FIRST_REFUSAL
    }

    /// The status line `NN,TEXT,TT,SS` with its line feed. It allocates nothing.
    pub fn line(&self) -> ArrayVec<u8, MAX_STATUS_LINE>
        ensures { result.items ≡ status_line self.now }
    {
        let (number, text) = self.row();
        let (first, second) = self.details();
        let mut line = ArrayVec::new();
        push_number(&mut line, u64::from(number));
        push_bytes(&mut line, b",");
        push_bytes(&mut line, text);
        push_bytes(&mut line, b",");
        push_number(&mut line, first);
        push_bytes(&mut line, b",");
        push_number(&mut line, second);
        push_bytes(&mut line, b"\n");
        line
    }

    /// The number at the beginning of the status line, and its text.
    fn row(&self) -> (u8, &'static [u8])
        ensures number { result.0 ≡ (status_row self.now).0 }
        ensures text { result.1.now ≡ (status_row self.now).1 }
        ensures short { length result.1.now ≤ 24 }
    {
        match self {
            Status::Done => (0, b" OK"),
            Status::FilesScratched { .. } => (1, b"FILES SCRATCHED"),
            Status::SyntaxError => (30, b"SYNTAX ERROR"),
            Status::UnknownCommand => (31, b"SYNTAX ERROR"),
            Status::LongLine => (32, b"SYNTAX ERROR"),
            Status::BadName => (33, b"SYNTAX ERROR"),
            Status::MissingArgument => (34, b"SYNTAX ERROR"),
            Status::WriteFileOpen => (60, b"WRITE FILE OPEN"),
            Status::FileNotFound => (62, b"FILE NOT FOUND"),
            Status::FileExists => (63, b"FILE EXISTS"),
            Status::FileTypeMismatch => (64, b"FILE TYPE MISMATCH"),
            Status::IllegalBlock { .. } => (66, b"ILLEGAL TRACK AND SECTOR"),
            Status::DirectoryError(_) => (71, b"DIR ERROR"),
            Status::DiskFull => (72, b"DISK FULL"),
            Status::HostFile(_) => (80, b"HOST FILE"),
            Status::NothingToUndo => (81, b"NOTHING TO UNDO"),
            Status::NothingToRedo => (82, b"NOTHING TO REDO"),
            Status::NotOneBlock => (83, b"NOT ONE BLOCK"),
            Status::BasicText(_) => (84, b"BASIC TEXT"),
            Status::NotBasic(_) => (85, b"NOT BASIC"),
            Status::FileLost => (86, b"FILE LOST"),
            Status::OutOfMemory => (90, b"OUT OF MEMORY"),
        }
    }

    /// The numbers in the last two columns.
    fn details(&self) -> (u64, u64)
        ensures { result ≡ status_details self.now }
    {
        match *self {
            Status::FilesScratched { count } => (count as u64, 0),
            Status::IllegalBlock { track, sector } => (u64::from(track), u64::from(sector)),
            Status::DirectoryError(fault) => (u64::from(fault.number()), 0),
            Status::HostFile(fault) => (u64::from(fault.number()), 0),
            Status::BasicText(fault) => {
                (u64::from(fault.number()), fault.line().unwrap_or(0) as u64)
            }
            Status::NotBasic(fault) => (u64::from(fault.number()), 0),
            _ => (0, 0),
        }
    }
}

/// Appends a number in decimal with at least two digits.
fn push_number(line: &mut ArrayVec<u8, MAX_STATUS_LINE>, number: u64)
    requires { array_vec_len line.old + 20 ≤ 128 }
    ensures digits { line.new.items ≡ line.old.items ++ two_digits number }
    ensures short { array_vec_len line.new ≤ array_vec_len line.old + 20 }
{
    if number < 10 {
        push_bytes(line, b"0");
    }
    let mut buffer = Buffer::new();
    push_bytes(line, buffer.format(number).as_bytes());
}

/// Appends bytes for which there is room.
fn push_bytes(line: &mut ArrayVec<u8, MAX_STATUS_LINE>, bytes: &[u8])
    requires { array_vec_len line.old + length bytes.now ≤ 128 }
    ensures bytes { line.new.items ≡ line.old.items ++ bytes.now }
    ensures len { array_vec_len line.new ≡ array_vec_len line.old + length bytes.now }
{
    let _ = line.try_extend_from_slice(bytes);
}
