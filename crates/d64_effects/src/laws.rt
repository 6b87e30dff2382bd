//! Laws of the commands' effects: each function's contract is a law, and its body is empty.
//!
//! A caller whose proof needs a law calls the function.
ghost use Rattle.d64_effects.specs.Laws.{FormattedIsImage, FormattedIsFree, FormattedCountsFit, FormattedShowsItsFree};
ghost use Rattle.d64_effects.specs.Laws.{FormattedIsSound, FormattedShows};
ghost use Rattle.d64_effects.specs.Laws.{WrittenIsImage, WrittenIsSound, WrittenShows};
ghost use Rattle.d64_effects.specs.Laws.{RenamedIsImage, RenamedIsSound, RenamedShows};
ghost use Rattle.d64_effects.specs.Laws.{NamedIsImage, NamedIsSound, NamedShows};
ghost use Rattle.d64_effects.specs.Laws.{ScratchedIsImage, ScratchedIsSound, ScratchedShows, ScratchedAreCounted};
ghost use Rattle.d64_effects.specs.Laws.{ValidatedIsImage, ValidatedIsSound, ValidatedShows};
ghost use Rattle.d64_effects.specs.Laws.{UndeletedIsImage, UndeletedIsSound, UndeletedShows};
ghost use Rattle.d64_effects.specs.UndeleteLaws.{DeletedFileComesBack};
ghost use Rattle.d64_effects.specs.ClearLaws.{ClearingKeepsTheImage, ClearingKeepsTheDirectory, ClearingKeepsTheNumberOfSlots};
ghost use Rattle.d64_effects.specs.ClearLaws.{OneMoreSlotCounts, SlotsWhereAreSlots};
ghost use Rattle.d64_effects.specs.KeepingLaws.{WritingKeepsFiles, DeletingKeepsOtherFiles, RenamingKeepsOtherFiles, NamingKeepsFiles, ValidatingKeepsClosedFiles, UndeletingKeepsFiles};
ghost use Rattle.d64_effects.specs.ContentsLaws.{FormattedListsNothing, WrittenListsTheFile, ScratchedListsTheOthers};
ghost use Rattle.d64_effects.specs.ContentsLaws.{RenamedListsTheName, NamedListsTheSame, ValidatedListsTheClosed, UndeletedListsTheFile};
ghost use Rattle.d64_effects.specs.ContentsLaws.{FormattedDiskHasNoFiles, WrittenDiskLists, ScratchedDiskLists, RenamedDiskLists, NamedDiskLists, ValidatedDiskLists, UndeletedDiskLists};

/// A formatted disk is a sound image with 664 blocks free on 35 tracks, or 749 on 40, which shows
/// its name and id and no file.
pub fn formatted_disk_is_sound_and_empty()
    ensures image { FormattedIsImage }
    ensures free { FormattedIsFree }
    ensures counts { FormattedCountsFit }
    ensures blocks_free { FormattedShowsItsFree }
    ensures sound { FormattedIsSound }
    ensures view { FormattedShows }
{}

/// A sound image with room for a file is still sound after the file is written, and shows that file
/// beside all that it showed before.
pub fn written_disk_is_sound()
    ensures image { WrittenIsImage }
    ensures sound { WrittenIsSound }
    ensures view { WrittenShows }
{}

/// A sound image is still sound after a file is renamed, and shows the other name and nothing else
/// that is new. If no file has the old name, nothing changes.
pub fn renamed_disk_is_sound()
    ensures image { RenamedIsImage }
    ensures sound { RenamedIsSound }
    ensures view { RenamedShows }
{}

/// Giving the disk another name, and another id, leaves an image, and leaves a sound image sound,
/// which shows them and nothing else that is new.
pub fn named_disk_is_sound()
    ensures image { NamedIsImage }
    ensures sound { NamedIsSound }
    ensures view { NamedShows }
{}

/// While slots of an image are cleared one after another, it stays an image, and its directory
/// keeps its blocks and the number of its slots; the slots that pass a test are found slot by slot.
pub fn clearing_keeps_the_directory()
    ensures image { ClearingKeepsTheImage }
    ensures directory { ClearingKeepsTheDirectory }
    ensures slots { ClearingKeepsTheNumberOfSlots }
    ensures one_more { OneMoreSlotCounts }
    ensures below { SlotsWhereAreSlots }
{}

/// A sound image is still sound after files are deleted. It shows empty slots in their places, and
/// their blocks, including those of their side chains, among the free ones. The number of deleted
/// files is that of the files of the directory's list that are closed, not locked, and matched.
pub fn scratched_disk_is_sound()
    ensures image { ScratchedIsImage }
    ensures sound { ScratchedIsSound }
    ensures view { ScratchedShows }
    ensures count { ScratchedAreCounted }
{}

/// A validation makes a sound image of any that meets conditions 2 to 5 of a sound one, whatever
/// its map says. It drops the unclosed files, and frees exactly the blocks that have no owner.
pub fn validated_disk_is_sound()
    ensures image { ValidatedIsImage }
    ensures sound { ValidatedIsSound }
    ensures view { ValidatedShows }
{}

/// A sound image is still sound after a deleted file comes back whose slot isn't used and whose
/// chain is free, and shows that file in its slot beside all that it showed before.
pub fn undeleted_disk_is_sound()
    ensures image { UndeletedIsImage }
    ensures sound { UndeletedIsSound }
    ensures view { UndeletedShows }
{}

/// If one closed file of a sound disk was deleted, it can come back, and with its kind the disk is
/// the one from before, byte for byte except for its map, which is written anew and marks the same.
pub fn deleted_file_comes_back()
    ensures { DeletedFileComesBack }
{}

/// A file that a command doesn't name keeps its slot, its blocks and its content, and all else that
/// a disk shows of it. When a file is written, every file is kept; when files are deleted, those
/// that are locked, not closed or matched by no pattern; when a file is renamed, those of other
/// names; when the disk gets a new name, every file; by a validation, those that are closed; and
/// when a deleted file comes back, every file, and no other comes.
pub fn files_that_are_not_named_stay()
    ensures writing { WritingKeepsFiles }
    ensures deleting { DeletingKeepsOtherFiles }
    ensures renaming { RenamingKeepsOtherFiles }
    ensures naming { NamingKeepsFiles }
    ensures validating { ValidatingKeepsClosedFiles }
    ensures undeleting { UndeletingKeepsFiles }
{}

/// The step of each file command on what a disk shows is its step on the directory's list of names
/// and contents.
pub fn steps_change_the_list_of_files()
    ensures formatted { FormattedListsNothing }
    ensures written { WrittenListsTheFile }
    ensures scratched { ScratchedListsTheOthers }
    ensures renamed { RenamedListsTheName }
    ensures named { NamedListsTheSame }
    ensures validated { ValidatedListsTheClosed }
    ensures undeleted { UndeletedListsTheFile }
{}

/// Each file command changes the directory's list of names and contents as it says, on a sound
/// disk: a formatted disk lists nothing; a written file comes at the place of the first empty slot,
/// or at the end; deleted files are gone, a renamed one has its new name, after a validation the
/// closed files are left, and one that is undeleted comes behind the files of the slots before its
/// own. The other files of the list stay as they were, in order, and so do all files when the disk
/// gets a new name.
pub fn commands_change_the_list_of_files()
    ensures formatted { FormattedDiskHasNoFiles }
    ensures written { WrittenDiskLists }
    ensures scratched { ScratchedDiskLists }
    ensures renamed { RenamedDiskLists }
    ensures named { NamedDiskLists }
    ensures validated { ValidatedDiskLists }
    ensures undeleted { UndeletedDiskLists }
{}
