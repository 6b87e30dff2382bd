//! The blocks of a disk as a picture in SVG, which is a file of its own or a part of a page, and the
//! state that a picture or a text shows of each block.
#![tactic(auto)]

mod block_state;
mod cells;
mod colour;
mod legend;
mod page_picture;
mod region;
mod shapes;
mod style;
mod svg;

pub use block_state::{BlockState, state_of};
pub use page_picture::page_svg;
pub use style::push_picture_rules;
pub use svg::map_svg;
