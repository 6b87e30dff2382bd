//! The status of each fault, refusal and reply.
ghost use Rattle.std.specs.Prelude.{◌≡◌};
ghost use Rattle.script_lines.specs.Act.{status_of_fault};
ghost use Rattle.script_lines.specs.Arguments.{status_of_text};
ghost use Rattle.script_lines.specs.BasicFiles.{status_of_basic, status_of_listing};
ghost use Rattle.script_lines.specs.Line.{status_of_refusal, status_of_reply};

use crate::status::Status;
use cbm_text::{BasicFault, ListFault};
use d64_dos::{Refusal, Reply};
use host_storage::HostFault;
use petscii::TextFault;

impl From<HostFault> for Status {
    ghost from_gives = { λ fault status. status ≡ status_of_fault fault };

    fn from(fault: HostFault) -> Status {
        match fault {
            HostFault::Memory(_) => Status::OutOfMemory,
            fault => Status::HostFile(fault),
        }
    }
}

impl From<TextFault> for Status {
    ghost from_gives = { λ fault status. status ≡ status_of_text fault };

    fn from(fault: TextFault) -> Status {
        match fault {
            TextFault::Memory(_) => Status::OutOfMemory,
            TextFault::UnknownName { .. }
            | TextFault::OpenBrace { .. }
            | TextFault::BadByte { .. } => Status::BadName,
        }
    }
}

impl From<BasicFault> for Status {
    ghost from_gives = { λ fault status. status ≡ status_of_basic fault };

    fn from(fault: BasicFault) -> Status {
        match fault {
            BasicFault::Memory(_) => Status::OutOfMemory,
            fault => Status::BasicText(fault),
        }
    }
}

impl From<ListFault> for Status {
    ghost from_gives = { λ fault status. status ≡ status_of_listing fault };

    fn from(fault: ListFault) -> Status {
        match fault {
            ListFault::Memory(_) => Status::OutOfMemory,
            fault => Status::NotBasic(fault),
        }
    }
}

impl From<Refusal> for Status {
    ghost from_gives = { λ refusal status. status ≡ status_of_refusal refusal };

    fn from(refusal: Refusal) -> Status {
        match refusal {
            Refusal::NotClosed => Status::WriteFileOpen,
            Refusal::NotFound => Status::FileNotFound,
            Refusal::Exists => Status::FileExists,
            Refusal::WrongType => Status::FileTypeMismatch,
            Refusal::Directory(fault) => Status::DirectoryError(fault),
            Refusal::Lost => Status::FileLost,
            Refusal::DiskFull => Status::DiskFull,
            Refusal::Memory => Status::OutOfMemory,
        }
    }
}

impl From<Reply> for Status {
    ghost from_gives = { λ reply status. status ≡ status_of_reply reply };

    fn from(reply: Reply) -> Status {
        match reply {
            Reply::Done => Status::Done,
            Reply::Scratched(count) => Status::FilesScratched { count },
        }
    }
}
