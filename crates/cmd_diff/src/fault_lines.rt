//! What is reported of two files that cannot be compared.
ghost use Rattle.std.specs.Prelude.{◌≡◌, ◌++◌, [], OnOk};
ghost use Rattle.program_surveys.specs.FileContents.{contents_by, contents_fault_line};

use program_console::Reason;
use program_surveys::push_fault_line;
use std::alloc::{AllocError, Global};

/// Puts the lines on standard error of two files into an empty buffer, for each that is not
/// compared.
pub(crate) fn push_fault_lines(
    alloc: Global,
    out: &mut Vec<u8>,
    old_name: &[u8],
    old: Result<&[u8], Option<Reason>>,
    new_name: &[u8],
    new: Result<&[u8], Option<Reason>>,
) -> Result<(), AllocError>
    ensures { out.old.items ≡ [] → OnOk result (out.new.items ≡ contents_fault_line old_name.now (contents_by (λ bytes. bytes.now) old.entry) ++ contents_fault_line new_name.now (contents_by (λ bytes. bytes.now) new.entry)) }
{
    push_fault_line(out, old_name, old)?;
    let mut line = Vec::new(alloc);
    push_fault_line(&mut line, new_name, new)?;
    out.extend_from_slice(line.as_slice())
}
