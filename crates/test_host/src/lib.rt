//! Tests of what is around the libraries: the host over the files of the system, streams that are
//! interrupted, and the program's arguments.
//!
//! They are in a crate of their own, since a crate with tests is proved twice. What a contract says
//! is not tested again, and what a script can reach is a worked example.
#![tactic(auto)]

#[cfg(test)]
mod arguments;
#[cfg(test)]
mod faults;
#[cfg(test)]
mod folder_host;
#[cfg(test)]
mod retrying;
