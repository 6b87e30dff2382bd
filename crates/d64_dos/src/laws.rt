//! Laws of the commands: each function's contract is a law, and its body is empty.
//!
//! A caller whose proof needs a law calls the function.
ghost use Rattle.d64_dos.specs.Listing.{FormattedDiskLists};
ghost use Rattle.d64_dos.specs.Step.{FileCommandsKeepDisksSound};
ghost use Rattle.d64_dos.specs.UndeleteLaws.{ReasonsDecide, UndeletingAddsOneFile, UndeletingUndoesDeleting};

/// An accepted file command leaves a sound disk, which shows the command's change and nothing else.
pub fn file_commands_keep_disks_sound()
    ensures { FileCommandsKeepDisksSound }
{}

/// A formatted disk lists its name, its id, the DOS version `2A`, no file, and 664 free blocks on
/// 35 tracks or 749 on 40.
pub fn formatted_disk_lists()
    ensures { FormattedDiskLists }
{}

/// On a sound disk an accepted undeletion adds one file, in a slot that wasn't used, and no other;
/// every file that was there keeps its slot, its blocks and its content.
pub fn undeleting_adds_one_file()
    ensures { UndeletingAddsOneFile }
{}

/// If patterns delete one closed file of a sound disk, which isn't locked, has as many blocks as
/// its slot shows, and is the only one of its name, used or deleted, an undeletion with its name
/// and its kind brings it back: both commands are accepted, and the disk is the one from before,
/// but for its map, which is written anew.
pub fn undeleting_undoes_deleting()
    ensures { UndeletingUndoesDeleting }
{}

/// On a sound disk a deleted file is left, or whole, if and only if the reasons of `d64_scratched`
/// say so.
pub fn reasons_decide_what_comes_back()
    ensures { ReasonsDecide }
{}
