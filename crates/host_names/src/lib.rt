//! The names and the folders that the files of images get on a host.
#![tactic(auto)]

mod ending;
mod image_place;
pub mod laws;
mod paths;
mod stem;
mod taken_names;

pub use ending::Ending;
pub use image_place::ImagePlace;
pub use paths::{done_path, partial_path, path_inside, put_path};
pub use taken_names::TakenNames;
