//! Laws of histories and of runs: each function's contract is a law, and its body is empty.
//!
//! A caller whose proof needs a law calls the function.
ghost use Rattle.d64_undo.specs.Request.{MemoryAloneIsFree, MemoryForAcceptance};

pub use d64_history::laws::{
    kept_is_resumed, redo_after_undo, retraced, session_files_are_faultless, session_files_decide,
    undo_after_command,
};

/// As long as memory suffices, the results of a run of requests depend only on the history and the
/// requests.
pub fn memory_alone_is_free()
    ensures { MemoryAloneIsFree }
{}

/// Only a command that would be accepted can run out of memory, and then the history is unchanged.
pub fn memory_for_acceptance()
    ensures { MemoryForAcceptance }
{}
