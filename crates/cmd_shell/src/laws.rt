//! Laws of scripts: each function's contract is a law, and its body is empty.
ghost use Rattle.cmd_shell.specs.ScriptLaws.{ScriptsAreRuns, ScriptsKeepDisksSound};

/// A script changes the history as a run of requests does, with at most one request for each line,
/// so that what `run_all` promises of requests holds of scripts.
pub fn scripts_are_runs()
    ensures { ScriptsAreRuns }
{}

/// A script without block writes leaves a history of sound disks sound, whatever the host does.
pub fn scripts_keep_disks_sound()
    ensures { ScriptsKeepDisksSound }
{}
