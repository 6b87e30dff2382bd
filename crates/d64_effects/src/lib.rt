//! The effect of each command on an image, block by block, and on what the disk shows, its view:
//! definitions and their laws, without code.
#![tactic(auto)]

pub mod laws;
