//! Laws of histories and of session files: each function's contract is a law, and its body is empty.
//!
//! A caller whose proof needs a law calls the function.
ghost use Rattle.d64_history.specs.HistoryLaws.{UndoAfterCommand, RedoAfterUndo, Retraced};
ghost use Rattle.d64_history.specs.SessionFileLaws.{FilesDecide, FilesAreFaultless, FaultlessAreFiles, KeptIsResumed};

/// Undo after an accepted command gives the image from before it.
pub fn undo_after_command()
    ensures { UndoAfterCommand }
{}

/// Redo after undo gives back the history, and so does undo after redo.
pub fn redo_after_undo()
    ensures { RedoAfterUndo }
{}

/// Undos after accepted commands, and then redos, go through each image again.
pub fn retraced()
    ensures { Retraced }
{}

/// Bytes are the session file of at most one history.
pub fn session_files_decide()
    ensures { FilesDecide }
{}

/// The file of each history has no fault, and bytes without a fault are the file of a history.
pub fn session_files_are_faultless()
    ensures faultless { FilesAreFaultless }
    ensures files { FaultlessAreFiles }
{}

/// What was kept is resumed with the same history and cursor, or memory is out: for the file of a
/// history, nothing else meets the contract of `resume`.
pub fn kept_is_resumed()
    ensures { KeptIsResumed }
{}
