//! What a person sees beside the status lines of a script: the prompt, `help`, the advice on a line,
//! which change was undone, and what happens to changes that are not saved.
#![tactic(auto)]

mod advisor;
mod help;
mod kept;
mod leaving;
mod line_start;
mod past;
mod prompt;
mod unfit;

pub use advisor::Advisor;
