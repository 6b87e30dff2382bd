//! Finding slots of the directory by their names.
ghost use Rattle.std.specs.Prelude.{◌≡◌, find, IfOk, MatchResult};
ghost use Rattle.d64_files.specs.Slot.{EntryView};
ghost use Rattle.d64_files.specs.Directory.{slots, entries, is_named, first_named, AllHold, IsFirstFault};

use crate::dir_fault::DirFault;
use crate::directory_blocks::Directory;
use crate::entry::{Entry, SlotNo};
use crate::pattern::{Pattern, matches};
use d64_image::Image;

impl<'a> Directory<'a> {
    /// The entry of the first used slot whose name the pattern matches, or None if there is no such
    /// slot.
    pub fn named(&self, pattern: &Pattern) -> Option<Entry<'a>>
        ensures { result ≡ find (λ (entry : EntryView). is_named pattern.now entry.bytes) (entries self.now (slots self.now)) }
    {
        for entry in self.slots() {
            if entry.used() && matches(pattern, entry.name()) {
                return Some(entry);
            }
        }
        None
    }
}

/// The first used slot whose name the pattern matches, or None if there is no such slot. It
/// allocates nothing.
///
/// The error is `NoDirectory` if there is no chain of blocks from track 18, sector 1, and otherwise
/// `UnknownKind` if the low four bits of a slot's type byte are above 4.
pub fn find(image: &Image, pattern: &Pattern) -> Result<Option<SlotNo>, DirFault>
    ensures slot { IfOk result (λ slot. slot ≡ first_named pattern.now (slots image.now)) }
    ensures conditions { MatchResult result (λ _. AllHold image.now 2 3) (IsFirstFault image.now 2 3) }
{
    match Directory::of(image)?.named(pattern) {
        Some(entry) => Ok(Some(entry.slot())),
        None => Ok(None),
    }
}
