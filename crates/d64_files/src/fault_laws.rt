//! Laws of the conditions of a sound image: each function's contract is a law, and its body is
//! empty.
//!
//! A caller whose proof needs a law calls the function.
ghost use Rattle.d64_files.specs.FirstFault.{reading_conditions, owning_conditions, sound_conditions};
ghost use Rattle.d64_files.specs.FirstFaultLaws.{ReportsFirst};

/// The tests of the conditions find a fault exactly if a condition fails, and find the first that
/// fails.
pub fn first_fault_is_the_first()
    ensures sound { ReportsFirst sound_conditions 1 6 }
    ensures owning { ReportsFirst owning_conditions 2 5 }
    ensures reading { ReportsFirst reading_conditions 2 3 }
{}
