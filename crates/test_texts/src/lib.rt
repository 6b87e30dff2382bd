//! Tests of texts through public calls: text form and BASIC programs, the lines and statuses of
//! scripts, and names of the host. Expected values are worked out by hand from the rules.
//!
//! They are in a crate of their own, since a crate with tests is proved twice. What a contract says
//! is not tested again, and what a script can reach is a worked example.
#![tactic(auto)]

#[cfg(test)]
mod basic;
#[cfg(test)]
mod image_place;
#[cfg(test)]
mod scripts;
#[cfg(test)]
mod shown;
#[cfg(test)]
mod spellings;
#[cfg(test)]
mod taken_names;
#[cfg(test)]
mod wording;
