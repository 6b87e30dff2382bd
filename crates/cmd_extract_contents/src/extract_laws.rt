//! Laws of what is written: each function's contract is a law, and its body is empty.
//!
//! A caller whose proof needs a law calls the function.
ghost use Rattle.cmd_extract_contents.specs.ExtractLaws.{WrittenIsWhatIsRead, NothingOfUnclosed, PartsChangeNoContent, WrittenFits};

use d64_inventory::content_laws::contents_are_what_is_read;

/// If parts are not wanted, a file is written if and only if reading it is not refused, with what
/// is read; so no file that was not closed is written.
pub fn contents_are_written()
    ensures read { WrittenIsWhatIsRead }
    ensures unclosed { NothingOfUnclosed }
{
    contents_are_what_is_read();
}

/// A file that has content is written alike, whether or not parts are wanted.
pub fn parts_change_no_content()
    ensures { PartsChangeNoContent }
{}

/// The files that are written have together no more bytes than they may.
pub fn written_files_fit()
    ensures { WrittenFits }
{}
