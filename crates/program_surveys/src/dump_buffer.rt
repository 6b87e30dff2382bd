//! `DumpBuffer`: buffers in which one file after another is read as a dump, and its lists are made.
ghost use Rattle.std.specs.Prelude.{◌≡◌, if◌then◌else◌, Some, None, OnOk, OnErr, is_some, length};
ghost use Rattle.d64_survey.specs.Dump.{wrong_dump_length};
ghost use Rattle.d64_g64.specs.DumpOf.{dump_of};

use crate::refilling::refill_from;
use d64_image::Image;
use d64_survey::{Dump, DumpFault, Fault, ReadError};
use std::alloc::{AllocError, Global};

/// A dump and the lists of its inspection, in buffers that are used for one file after another.
#[derive(Drop)]
pub struct DumpBuffer {
    alloc: Global,
    pub dump: Dump,
    pub faults: Vec<Fault>,
    pub errors: Vec<ReadError>,
}

impl DumpBuffer {
    /// Returns the buffers, with a blank dump, which the first file takes the place of.
    pub fn new(alloc: Global) -> Result<DumpBuffer, AllocError> {
        Ok(DumpBuffer {
            alloc,
            dump: Dump::from_image(alloc, Image::zeroed(alloc)?),
            faults: Vec::new(alloc),
            errors: Vec::new(alloc),
        })
    }

    /// Replaces the dump by the one that these bytes are. If they are no dump, the error is
    /// `WrongLength`, and the dump is unchanged.
    pub fn refill(&mut self, bytes: &[u8]) -> Result<(), DumpFault>
        ensures refused { wrong_dump_length result ≡ (if is_some (dump_of bytes.now) then None else Some (length bytes.now)) }
        ensures filled { OnOk result (dump_of bytes.now ≡ Some self.new.dump) }
        ensures unchanged { OnErr result (self.new.dump ≡ self.old.dump) }
    {
        refill_from(&mut self.dump, self.alloc, bytes)
    }
}
