//! Laws of faults: each function's contract is a law, and its body is empty.
//!
//! A caller whose proof needs a law calls the function.
ghost use Rattle.d64_survey.specs.FaultLaws.{NoFaultWhereSound, FirstFaultIsTheLeast, WaysAreChainsWhereSound};

/// An image has no fault exactly if it is sound, and its first fault has the number of the first
/// condition that fails.
pub fn first_fault_is_the_least()
    ensures none { NoFaultWhereSound }
    ensures first { FirstFaultIsTheLeast }
{}

/// If an image has no fault, the ways of its directory and of its slots are their chains, and the
/// blocks with an owner are those that they own.
pub fn ways_are_chains_where_no_fault_is()
    ensures { WaysAreChainsWhereSound }
{}
