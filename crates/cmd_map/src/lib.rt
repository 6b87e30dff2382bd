//! `d64sh map`: the blocks of a disk as text and as a picture in SVG, with their owners and what is
//! wrong with them.
//!
//! `draw_map` does all of it, from the request of the arguments to the exit status.
#![tactic(auto)]

mod job;
mod map_printer;
mod text;

pub use job::draw_map;
pub use text::map_text;
