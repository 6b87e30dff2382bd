//! The faults of images, sessions and scripts as those of the program.
ghost use Rattle.std.specs.Prelude.{◌≡◌};
ghost use Rattle.cmd_shell.specs.ShellFaults.{fault_of_image, fault_of_resume, fault_of_run};

use crate::runner::ShellFault;
use d64_image::ImageFault;
use d64_undo::ResumeFault;
use program_console::ProgramFault;

/// Returns the program's fault for the bytes of an image file.
pub(crate) fn fault_of_image(fault: ImageFault) -> ProgramFault
    ensures { result ≡ fault_of_image fault }
{
    match fault {
        ImageFault::WrongLength(length) => ProgramFault::WrongLength(length),
        ImageFault::Memory(_) => ProgramFault::Memory,
    }
}

/// Returns the program's fault for the bytes of a session file.
pub(crate) fn fault_of_resume(fault: ResumeFault) -> ProgramFault
    ensures { result ≡ fault_of_resume fault }
{
    match fault {
        ResumeFault::Memory(_) => ProgramFault::Memory,
        fault => ProgramFault::NoSession(fault.number()),
    }
}

/// Returns the program's fault for a fault that stopped a script.
pub(crate) fn fault_of_run(fault: ShellFault) -> ProgramFault
    ensures { result ≡ fault_of_run fault }
{
    match fault {
        ShellFault::Read => ProgramFault::Read,
        ShellFault::Write => ProgramFault::Write,
        ShellFault::Memory(_) => ProgramFault::Memory,
    }
}
