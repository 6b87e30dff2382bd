//! Tests of the libraries of disks, from images to sessions: the texts of faults, a reader that
//! fails, and rows that check the definitions on blocks, names and the order of search.
//!
//! They are in a crate of their own, since a crate with tests is proved twice. What a contract says
//! is not tested again, and what a script can reach is a worked example.
#![tactic(auto)]

#[cfg(test)]
mod blocks;
#[cfg(test)]
mod faults;
#[cfg(test)]
mod names;
#[cfg(test)]
mod readers;
#[cfg(test)]
mod search;
