//! `Readings`: the dumps that are merged, and what is printed and reported of the other files.
ghost use Rattle.std.specs.Prelude.{◌≡◌, Ok as read, Err as not_read, Some, None, ◌++◌, ◌∷◌, [], OnOk, length};
ghost use Rattle.d64_g64.specs.DumpOf.{dump_of};
ghost use Rattle.program_surveys.specs.FileContents.{contents_by};
ghost use Rattle.cmd_merge.specs.Reports.{no_readings, with_dump, with_fault, with_file_bytes, with_read_file, are_dumps};

use d64_image::Image;
use d64_survey::{Dump, DumpFault};
use out_json_csv::Scratch;
use program_arguments::DiffForm;
use program_console::Reason;
use program_surveys::{print_fault, push_fault_line, refill_from};
use std::alloc::{AllocError, Global};
use std::marker::Model;
use std::mem;

/// What was read of the files: the bytes of those that are dumps, with their dumps, and what is
/// printed and reported of the others.
#[derive(Drop)]
pub struct Readings {
    alloc: Global,
    pub(crate) printed: Vec<u8>,
    pub(crate) complaint: Vec<u8>,
    pub(crate) files: Vec<Vec<u8>>,
    pub(crate) dumps: Vec<Dump>,
    scratch: Scratch,
}

impl Model for Readings {
    ghost use Rattle.std.specs.Prelude.{map};
    ghost use Rattle.cmd_merge.specs.Reports.{ReadingsView};

    ghost Value = { ReadingsView };

    ghost view = { λ readings. record {
      printed = readings.printed.items;
      complaint = readings.complaint.items;
      files = map (λ file. file.items) readings.files.items;
      dumps = readings.dumps.items;
    } };
}

impl Readings {
    /// Returns the readings before any file was read.
    pub fn new(alloc: Global) -> Readings
        ensures { result ≡ no_readings }
    {
        Readings {
            alloc,
            printed: Vec::new(alloc),
            complaint: Vec::new(alloc),
            files: Vec::new(alloc),
            dumps: Vec::new(alloc),
            scratch: Scratch::new(alloc),
        }
    }

    /// Whether each file is a dump.
    pub(crate) fn are_dumps(&self) -> bool
        ensures { result ≡ are_dumps self.now }
    {
        self.complaint.is_empty()
    }

    /// Adds the dump of a file with these bytes.
    fn add_dump(&mut self, bytes: Vec<u8>, dump: Dump) -> Result<(), AllocError>
        ensures { OnOk result (self.new ≡ with_dump bytes.items dump self.old) }
    {
        self.files.push(bytes)?;
        self.dumps.push(dump)?;
        Ok(())
    }

    /// Adds what is printed and reported of a file that is no dump or cannot be read.
    fn add_fault(
        &mut self,
        form: DiffForm,
        name: &[u8],
        contents: Result<&[u8], Option<Reason>>,
    ) -> Result<(), AllocError>
        ensures { OnOk result (self.new ≡ with_fault form name.now (contents_by (λ bytes. bytes.now) contents.entry) self.old) }
    {
        let out = mem::replace(&mut self.printed, Vec::new(self.alloc));
        self.printed = print_fault(form, &mut self.scratch, name, contents, out)?;
        let mut line = Vec::new(self.alloc);
        push_fault_line(&mut line, name, contents)?;
        self.complaint.extend_from_slice(line.as_slice())
    }

    /// Adds a file with these bytes: its dump, or what is printed and reported if it is no dump.
    fn add_bytes(&mut self, form: DiffForm, name: &[u8], bytes: Vec<u8>) -> Result<(), AllocError>
        ensures { OnOk result (self.new ≡ with_file_bytes form name.now bytes.items (dump_of bytes.items) self.old) }
    {
        let mut dump = Dump::from_image(self.alloc, Image::zeroed(self.alloc)?);
        match refill_from(&mut dump, self.alloc, &bytes) {
            Ok(()) => self.add_dump(bytes, dump),
            Err(DumpFault::WrongLength(_)) => self.add_fault(form, name, Ok(&bytes)),
            Err(DumpFault::Memory(error)) => Err(error),
        }
    }

    /// Adds a file with this name and what was read of it: its bytes, or the reason (None if
    /// unknown) why it cannot be read.
    pub fn add(
        &mut self,
        form: DiffForm,
        name: &[u8],
        contents: Result<Vec<u8>, Option<Reason>>,
    ) -> Result<(), AllocError>
        ensures { OnOk result (self.new ≡ with_read_file form name.now (contents_by (λ bytes. bytes.items) contents) self.old) }
    {
        match contents {
            Ok(bytes) => self.add_bytes(form, name, bytes),
            Err(reason) => self.add_fault(form, name, Err(reason)),
        }
    }
}
