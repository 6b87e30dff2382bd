//! Case files: the steps of a worked example as a file gives them, for the program
//! `test_worked_examples`, which plays them.
//!
//! docs/TESTING.md says how a case is written.
#![tactic(auto)]

mod actions;
mod case;
mod fault;
mod notation;
mod reading;
mod run_options;
mod script;

pub use case::{Action, Place, Run, RunOptions, Step, WhenFull};
pub use fault::CaseFault;
pub use reading::{Unread, steps_of};
pub use script::{Mark, Script};
