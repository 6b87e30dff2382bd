//! Plain English about images and files: the state of a disk, what faults, doubts and files that
//! are not whole are called, and the lines on standard error of files that cannot be read or
//! written.
#![tactic(auto)]

mod doubt_text;
mod fault_line;
mod fault_text;
mod file_text;
mod first_characters;
mod guess;
mod number;
mod owner_text;
mod state_text;
mod words;

pub use doubt_text::push_unowned_text;
pub use fault_line::{
    present_line, push_no_dump, skipped_line, too_much_line, unread_line, unwritten_line,
    wrong_length_line,
};
pub use fault_text::{push_fault, push_read_error, push_status};
pub use file_text::{blocks_there, kind_letters, letters_of, locked_text, push_flaws};
pub use first_characters::shown_start;
pub use guess::{Guess, guess_of, guess_text};
pub use number::push_number;
pub use owner_text::push_owners;
pub use state_text::{push_contents, push_label, push_state};
pub use words::{push_block, push_count, push_quoted};
