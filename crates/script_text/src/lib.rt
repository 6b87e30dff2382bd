//! The text of a script and of its output: an input that is cut into parts as it is read, the lines,
//! words and numbers of a script, and the lines that show a block.
//!
//! Images, sessions and the files of hosts are the subject of other crates.
#![tactic(auto)]

pub mod dump;
pub mod held_line;
pub mod number;
pub mod part_handler;
pub mod parts;
pub mod raw_lines;
pub mod script;
pub mod words;
