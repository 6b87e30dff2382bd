//! `d64sh petcat` and `d64sh crunch`: from a file or the input to a file or the output, and what is
//! printed of an input that is refused.
#![tactic(auto)]

mod refusal_line;
mod refused_text;
mod stored_tool;
mod tool_job;
mod tools;

pub use tool_job::ToolJob;
pub use tools::{Tool, ToolFault, crunch_run, petcat_run};
