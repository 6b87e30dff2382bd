//! What is said of the lines of a script in plain English: what is wrong with a refused one, and
//! what else a person at a terminal may want to know.
#![tactic(auto)]

mod advice;
mod faults;
mod found;
mod hint;
mod host_reason;
mod line_parts;
mod lost;
mod near;
mod refusal;
mod remarks;
mod text_cause;

pub use found::{default_name, file_count};
pub use line_parts::LineParts;
pub use refusal::write_refusal;
pub use remarks::remark;
