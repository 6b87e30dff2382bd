//! Scratched slots: what the directory still says of deleted files, and why one of these isn't
//! whole.
#![tactic(auto)]

mod loss;
mod loss_laws;
mod lowest;
mod scratched;

pub use loss::{Loss, is_lost};
pub use loss_laws::{files_that_are_not_lost_can_be_restored, whole_files_are_untouched};
pub use scratched::{LOSSES, ScratchedSlots, is_scratched};
