//! The dump that a G64 is read as, and which files are dumps.
ghost use Rattle.std.specs.Prelude.{◌≡◌, if◌then◌else◌, Some, None, OnOk, OnErr, is_some, length};
ghost use Rattle.d64_survey.specs.Dump.{wrong_dump_length, image_bytes};
ghost use Rattle.d64_g64.specs.File.{is_g64};
ghost use Rattle.d64_g64.specs.Dump.{g64_dump};
ghost use Rattle.d64_g64.specs.DumpOf.{dump_of, dump_of_g64};

use crate::dump::read_g64;
use crate::fault::G64Fault;
use crate::file::{begins_as_g64, is_g64};
use d64_survey::{Dump, DumpFault, image_bytes};
use std::alloc::Global;

/// Whether a D64 can have this many bytes.
pub(crate) fn is_d64_length(length: usize) -> bool
    ensures { result ≡ is_some (image_bytes length) }
{
    image_bytes(length).is_some()
}

/// Whether a file is a dump, by its bytes: a D64 of one of the four lengths, or a G64.
pub fn is_dump(file: &[u8]) -> bool
    ensures { result ≡ is_some (dump_of file.now) }
{
    if is_d64_length(file.len()) {
        return true;
    }
    begins_as_g64(file) && is_g64(file)
}

/// Replaces a dump by that of a file that begins as a G64.
fn refill_from_bits(dump: &mut Dump, alloc: Global, file: &[u8]) -> Result<(), DumpFault>
    ensures refused { wrong_dump_length result ≡ (if is_g64 file.now then None else Some (length file.now)) }
    ensures filled { OnOk result (dump.new ≡ g64_dump file.now) }
    ensures unchanged { OnErr result (dump.new ≡ dump.old) }
{
    match read_g64(alloc, file) {
        Ok(bytes) => dump.refill(&bytes),
        Err(G64Fault::Bad) => Err(DumpFault::WrongLength(file.len())),
        Err(G64Fault::Memory(error)) => Err(DumpFault::Memory(error)),
    }
}

/// Replaces a dump by that of a G64. The error `WrongLength` has the number of bytes if they are no
/// G64, or a bad one, and then the dump is unchanged.
pub fn refill_from_g64(dump: &mut Dump, alloc: Global, file: &[u8]) -> Result<(), DumpFault>
    ensures refused { wrong_dump_length result ≡ (if is_some (dump_of_g64 file.now) then None else Some (length file.now)) }
    ensures filled { OnOk result (dump_of_g64 file.now ≡ Some dump.new) }
    ensures unchanged { OnErr result (dump.new ≡ dump.old) }
{
    if begins_as_g64(file) {
        refill_from_bits(dump, alloc, file)
    } else {
        Err(DumpFault::WrongLength(file.len()))
    }
}
