//! What was probably meant by arguments that are refused, and the tip that shows it.
#![tactic(auto)]

mod meant;
mod message;
mod tip;

pub use meant::Meant;
pub use message::message_with;
