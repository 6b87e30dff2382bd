//! One dump of several dumps of one disk, block by block: which copies of a block are good, what
//! becomes of it, and the bytes of the dump that is made.
#![tactic(auto)]

mod choice;
mod copy;
pub mod laws;
mod left;
mod merging;
mod outcome;

pub use choice::{Choice, choose};
pub use copy::{has_block, known_code};
pub use left::list_left;
pub use merging::{choices, count_of, is_outcome, keeps_codes, merged_bytes, merged_tracks};
pub use outcome::{BlockOutcome, Preference, dump_at};
