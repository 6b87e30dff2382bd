//! A program that makes each call of the libraries by its name, so that each growth of memory in it
//! can be refused.
//!
//! Each argument of the program names a call, with its input after a space. First all that the call
//! is lent is made; then the name is printed, the call is made, and how it ended is printed after
//! the name. So only the call itself asks for memory between the two prints, and
//! `scripts/sweep-calls` refuses each such growth in turn. The file `args` has all calls that are
//! swept.
#![tactic(auto)]

mod arguments;
mod commands;
mod disk;
mod end;
mod hosts;
mod images;
mod looks;
mod scripts;
mod sessions;
mod texts;
mod without_memory;
mod writers;

use end::{Bench, End};
use hosts::HostCall;
use images::Maker;
use looks::Look;
use std::env;
use std::test::Fail;
use texts::TextCall;
use writers::Writer;

fn main(rt: HostRuntime) -> Result<(), Fail> {
    for name in env::args(&rt)?.skip(1) {
        let end = end_of_call(&Bench::new(&rt, name.as_str()))?;
        println!(rt; "{end}")?;
    }
    Ok(())
}

/// Makes the call that the bench names, and returns how it ended.
fn end_of_call(bench: &Bench) -> Result<End, Fail> {
    let (call, given) = bench.name_and_arguments();
    if let Some(call) = Look::of(call) {
        return looks::looked_at(bench, call);
    }
    if let Some(writer) = Writer::of(call) {
        return writers::written(bench, writer);
    }
    if let Some(maker) = Maker::of(call) {
        return images::made(bench, maker);
    }
    if let Some(call) = HostCall::of(call) {
        return hosts::called(bench, call);
    }
    if let Some(call) = TextCall::of(call) {
        return Ok(texts::made(bench, call));
    }
    end_of_other(bench, call, given)
}

/// Makes a call of those that share nothing that they are lent.
fn end_of_other(bench: &Bench, call: &str, given: &str) -> Result<End, Fail> {
    match call {
        "Patch::write" => images::patch_write(bench),
        "apply" => commands::apply(bench, given),
        "MemoryHost::put" => Ok(hosts::put(bench)),
        "run" => scripts::run(bench, given),
        "petcat_run" => scripts::petcat_run(bench),
        "crunch_run" => scripts::crunch_run(bench),
        "ShellFault,ToolFault,JobFault,ProgramFault" => Ok(scripts::fault_texts(bench)),
        "job" => arguments::job(bench, given),
        _ => end_of_session_call(bench, call, given),
    }
}

/// Makes a call of a session, or one that takes no memory.
fn end_of_session_call(bench: &Bench, call: &str, given: &str) -> Result<End, Fail> {
    match call {
        "Session::run" => sessions::run(bench, given),
        "Session::new,run" => sessions::first_block_write(bench),
        "Session::keep" => sessions::keep(bench),
        "resume" => sessions::resumed(bench, false),
        "resume_from" => sessions::resumed(bench, true),
        "Session::new" => sessions::begun(bench),
        "Session" => sessions::without_memory(bench),
        _ => without_memory::end_of_call(bench, call),
    }
}
