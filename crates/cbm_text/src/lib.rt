//! BASIC V2 programs as text, both ways: keywords and tokens, the lines of a program, and what is
//! wrong with a faulty text.
//!
//! `crunch` makes a program file of a text, as the tokeniser of a Commodore 64 does, and `list`
//! writes the text of a program file, as the command `LIST` shows it. The Commodore 64 Programmer's
//! Reference Guide has the keywords and their tokens, and in its chapter on BASIC the lines of a
//! program in memory; how bytes are written as text is this project's own (`petscii`).
#![tactic(auto)]

mod cause;
mod codes;
mod crunching;
mod fault;
mod faulty_text;
mod keyword;
mod laws;
mod listing;
mod mode;
mod program;
mod text_line;

pub use cause::Cause;
pub use crunching::{PROGRAM_START, crunch};
pub use fault::{BasicFault, ListFault};
pub use faulty_text::{FaultyLine, FaultyLines, faulty_lines};
pub use laws::{line_comes_back, one_program, text_comes_back};
pub use listing::list;
