//! The program as a function, from its arguments to its exit status: it chooses what each
//! subcommand runs, and exports what its callers need of the libraries below.
#![tactic(auto)]

mod entry;

pub use cmd_basic::{ToolFault, crunch_run, petcat_run};
pub use cmd_shell::{Outcome, ShellFault, laws, run};
pub use d64_dos::{Command, Refusal, Reply};
pub use d64_undo::laws::{
    memory_alone_is_free, memory_for_acceptance, redo_after_undo, retraced, undo_after_command,
};
pub use d64_undo::{NothingToRedo, NothingToUndo, Request, RequestOutcome, Session, run_all};
pub use entry::{ObservedProgram, program};
pub use host_memory::MemoryHost;
pub use host_storage::{FolderHost, Host, HostFault};
pub use program_arguments::{Job, JobFault, Subcommand, job};
pub use program_console::{Console, ProgramFault};
pub use script_commands::{Nobody, Observer};
