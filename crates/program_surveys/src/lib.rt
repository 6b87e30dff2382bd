//! A run over many files, given or listed, and the survey of disks: each file is read, reported and
//! flushed before the next one, a `Printer` prints what a subcommand shows of it as a dump, and the
//! worst verdict is the exit status; and tasks that are done once for all of their files, as `diff`
//! and `merge` are.
//!
//! The buffers of a result are used for one file after another. `batch` and `list_batch` know
//! nothing of what the files hold: a `FileTask` prints what there is to say of one.
#![tactic(auto)]

mod asked;
mod batch;
mod dump_buffer;
mod file_contents;
mod file_names;
mod list_batch;
mod open_name;
mod printer;
mod refilling;
mod report;
mod survey_job;
mod survey_report;
mod task;
mod whole_task;

pub use batch::Batch;
pub use dump_buffer::DumpBuffer;
pub use file_contents::{print_fault, push_fault_line, read_contents};
pub use file_names::FileNames;
pub use printer::Printer;
pub use refilling::refill_from;
pub use report::{ReportBuffer, Verdict};
pub use survey_job::SurveyJob;
pub use survey_report::SurveyReport;
pub use task::FileTask;
pub use whole_task::{WholeTask, run_whole};
