//! Calls on the program's arguments.

use crate::end::{Bench, End};
use program_arguments::JobFault;
use std::test::Fail;

/// Reads the job of some arguments, the first of which is the program's name.
pub fn job(bench: &Bench, arguments: &str) -> Result<End, Fail> {
    let arguments: Vec<&str> = arguments.split(' ').collect(bench.alloc())?;
    bench.begin();
    Ok(
        match program_arguments::job(bench.alloc(), arguments.as_slice()) {
            Ok(_) => End::Accepted,
            Err(JobFault::Memory) => End::OutOfMemory,
            Err(_) => End::Refused,
        },
    )
}
