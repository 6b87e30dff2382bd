//! The arguments of `d64sh`, read by `clap`: its subcommands, their options and help, and why
//! arguments are refused.
#![tactic(auto)]

mod arguments;
mod command;
mod dumps;
mod forms;
mod help;
mod jobs;
mod merging;
mod reading;
mod refusals;
mod rows;
mod subcommand;
mod surveys;
mod values;

pub use jobs::{
    DiffForm, Extraction, Format, Job, JobFault, Leftovers, Merging, Names, Page, PictureForm,
    Separator,
};
pub use reading::job;
pub use subcommand::Subcommand;
