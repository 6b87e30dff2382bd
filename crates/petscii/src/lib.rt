//! The text form of PETSCII, as listings and scripts write it: text for bytes, and the bytes of a
//! text.
//!
//! A byte that shows as a character of its own is that character: `$41` is `a` and `$C1` is `A`, as
//! on a Commodore 64 in its second character set. A control code is a name in braces, as `{clr}`,
//! and every other byte is its value, as `{$07}`. The Commodore 64 Programmer's Reference Guide
//! describes the codes; the names are this project's.
#![tactic(auto)]

mod character;
mod control;
mod fault;
mod laws;
mod text;
mod unit;

pub use fault::TextFault;
pub use laws::{one_outcome, spelling_is_ascii, spelling_reads_back};
pub use text::{from_text, push_spelling, to_text};
