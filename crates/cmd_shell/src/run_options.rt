//! `RunOptions`: where `save` stores by default, and whether a refused line ends the script.
ghost use Rattle.std.specs.Prelude.{◌≡◌, option_copied};
ghost use Rattle.cmd_shell.specs.Transcript.{ends_script, home_of};

use script_commands::Refusals;
use script_lines::Status;

/// How a script is run.
#[derive(Clone, Copy)]
pub struct RunOptions<'n> {
    /// The name of the host file in which `save` stores by default, if there is one.
    pub home: Option<&'n str>,
    /// The effect of a refused line.
    pub refusals: Refusals,
}

/// Returns this name of a host file, or None if it is empty.
pub fn home_of(name: &str) -> Option<&str>
    ensures { option_copied result ≡ home_of name.now }
{
    if name.is_empty() { None } else { Some(name) }
}

/// Whether a line of this status ends its script: it does if the line is refused and refused lines
/// stop.
pub(crate) fn ends_script(refusals: Refusals, status: &Status) -> bool
    ensures { result ≡ ends_script refusals status.now }
{
    match refusals {
        Refusals::GoOn => false,
        Refusals::Stop => !status.is_accepted(),
    }
}
