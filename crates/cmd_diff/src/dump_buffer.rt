//! The dumps that are compared: how each is read into its buffers, and whether both are the same.
ghost use Rattle.std.specs.Prelude.{◌≡◌, if◌then◌else◌, Some, None, IfOk};
ghost use Rattle.d64_survey.specs.Dump.{code_bytes};
ghost use Rattle.d64_g64.specs.DumpOf.{dump_of};
ghost use Rattle.cmd_diff.specs.Differences.{are_same};

use d64_survey::{Dump, DumpFault};
use program_surveys::DumpBuffer;
use std::alloc::AllocError;

/// Replaces the dump by the one with these bytes, and returns whether there is such a dump.
pub(crate) fn refill(buffer: &mut DumpBuffer, bytes: &[u8]) -> Result<bool, AllocError>
    ensures { IfOk result (λ is_dump. dump_of bytes.now ≡ (if is_dump then Some buffer.new.dump else None)) }
{
    match buffer.refill(bytes) {
        Ok(()) => Ok(true),
        Err(DumpFault::WrongLength(_)) => Ok(false),
        Err(DumpFault::Memory(error)) => Err(error),
    }
}

/// Returns the read codes of a dump; empty if it has none.
fn codes_of(dump: &Dump) -> &[u8]
    ensures { result.now ≡ code_bytes dump.now.codes }
{
    match dump.codes() {
        Some(codes) => codes,
        None => &[],
    }
}

/// Whether two dumps have the same bytes.
pub(crate) fn are_same(old: &Dump, new: &Dump) -> bool
    ensures { result ≡ are_same old.now new.now }
{
    old.image().bytes() == new.image().bytes() && codes_of(old) == codes_of(new)
}
