//! A law of names as they are shown: an empty function, whose contract is the law.
ghost use Rattle.host_storage.specs.Shown.{NoNameMakesALine};

/// No name of the host shows a control byte, and no line of JSON does, so that no name controls a
/// terminal or begins a new line.
#[inline]
pub fn no_name_makes_a_line()
    ensures { NoNameMakesALine }
{}
