//! A program that plays the worked examples of the shell, from script bytes to output bytes, with
//! expected values that were worked out by hand.
//!
//! Each file `NAME.case` of the current folder is a case; docs/TESTING.md says how one is written.
//! A line is printed for each difference and for each case that cannot be read, and at the end how
//! many cases there were.
#![tactic(auto)]

mod call;
mod differences;
mod scene;
mod streams;

use scene::play;
use std::os::fd::AsFd;
use std::rt::Files;
use std::{fs, io};
use test_cases::{Unread, steps_of};

/// How many cases were played, found differences, and could not be read.
#[derive(Clone, Copy, Debug, PartialEq, Eq)]
struct Tally {
    played: u64,
    differ: u64,
    unread: u64,
}

fn main(rt: HostRuntime) -> io::Result<()> {
    let mut tally = Tally {
        played: 0,
        differ: 0,
        unread: 0,
    };
    for name in case_names(&rt)? {
        play_file(&rt, name.as_str(), &mut tally)?;
    }
    let Tally {
        played,
        differ,
        unread,
    } = tally;
    println!(rt; "{played} cases played, {differ} with differences; {unread} more not read")
}

/// Returns the names of the cases in the current folder, in the order of their bytes.
fn case_names<R: Files + AllocGlobal + Clone + Drop>(rt: &R) -> io::Result<Vec<String>> {
    let mut names = Vec::new(rt.alloc());
    for entry in fs::read_dir(rt, ".")? {
        let entry = entry?;
        if entry.file_name().ends_with(".case") {
            names.push(String::from_str(rt.alloc(), entry.file_name())?)?;
        }
    }
    names.sort()?;
    Ok(names)
}

/// Plays the case of a file, and prints what it finds.
fn play_file<R: Files + AllocGlobal + Print>(
    rt: &R,
    name: &str,
    tally: &mut Tally,
) -> io::Result<()>
where
    R::File: AsFd,
{
    let text = fs::read_to_string(rt, name)?;
    let outcome = match steps_of(rt, text.as_str()) {
        Ok(steps) => play(rt, steps.as_slice()),
        Err(unread) => Err(unread),
    };
    match outcome {
        Ok(differences) => {
            tally.played = tally.played.saturating_add(1);
            if differences.is_any() {
                tally.differ = tally.differ.saturating_add(1);
            }
            print_all(rt, name, differences.lines())
        }
        Err(Unread { line, fault }) => {
            tally.unread = tally.unread.saturating_add(1);
            println!(rt; "{name}: line {line}: {fault}")
        }
    }
}

/// Prints the differences of a case, one on each line.
fn print_all<R: Print>(rt: &R, name: &str, differences: &[String]) -> io::Result<()> {
    for difference in differences {
        println!(rt; "{name}: {difference}")?;
    }
    Ok(())
}
