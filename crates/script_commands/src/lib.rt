//! The commands of a script: the effect of each on the session and the host, and the lines that it
//! prints; and what observes them, line by line.
#![tactic(auto)]

mod execution;
mod handlers;
mod history_text;
mod observer;

pub use execution::execute_line;
pub use observer::{Nobody, Observer, Opening, Refusals};
