//! The dump that a file is read as: a D64, or else a G64.
ghost use Rattle.std.specs.Prelude.{◌≡◌, if◌then◌else◌, Some, None, OnOk, OnErr, is_some, length};
ghost use Rattle.d64_survey.specs.Dump.{wrong_dump_length};
ghost use Rattle.d64_g64.specs.DumpOf.{dump_of};

use d64_g64::refill_from_g64;
use d64_survey::{Dump, DumpFault};
use std::alloc::Global;

/// Replaces a dump by the one that a file is, by its bytes: a D64 of one of the four lengths, or a
/// G64. The error `WrongLength` has the number of bytes if they are neither, or a bad G64, and then
/// the dump is unchanged.
pub fn refill_from(dump: &mut Dump, alloc: Global, file: &[u8]) -> Result<(), DumpFault>
    ensures refused { wrong_dump_length result ≡ (if is_some (dump_of file.now) then None else Some (length file.now)) }
    ensures filled { OnOk result (dump_of file.now ≡ Some dump.new) }
    ensures unchanged { OnErr result (dump.new ≡ dump.old) }
{
    match dump.refill(file) {
        Ok(()) => Ok(()),
        Err(DumpFault::WrongLength(_)) => refill_from_g64(dump, alloc, file),
        Err(DumpFault::Memory(error)) => Err(DumpFault::Memory(error)),
    }
}
