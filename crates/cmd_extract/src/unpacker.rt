//! `Unpacker`: it makes the folder of each image of a run.
ghost use Rattle.std.specs.Prelude.{◌≡◌, Some, option_map, string_bytes, IfOk};
ghost use Rattle.d64_g64.specs.DumpOf.{dump_of};
ghost use Rattle.cmd_extract.specs.Work.{EndsWork};
ghost use Rattle.cmd_extract.specs.Unpacking.{task_work, task_of, unpacking};

use crate::extract_printing::print_extract_heading;
use crate::files::Files;
use crate::setup::{ExtractSetup, Task};
use crate::verdicts::{report_unread, report_wrong_length};
use d64_image::Image;
use d64_survey::{Dump, DumpFault, Fault, Inspection, ReadError};
use host_names::{ImagePlace, done_path, partial_path};
use host_storage::Host;
use program_surveys::{FileTask, ReportBuffer, Verdict, refill_from};
use std::alloc::{AllocError, Global};
use std::mem;

/// Unpacks images, one after another, with buffers that are used for each.
#[derive(Drop)]
pub struct Unpacker {
    alloc: Global,
    setup: ExtractSetup,
    dump: Dump,
    faults: Vec<Fault>,
    errors: Vec<ReadError>,
    files: Files,
}

impl Unpacker {
    /// Returns an unpacker with these options.
    pub fn new(alloc: Global, setup: ExtractSetup) -> Result<Unpacker, AllocError>
        ensures { IfOk result (λ unpacker. unpacker.setup ≡ setup) }
    {
        Ok(Unpacker {
            alloc,
            setup,
            dump: Dump::from_image(alloc, Image::zeroed(alloc)?),
            faults: Vec::new(alloc),
            errors: Vec::new(alloc),
            files: Files::new(alloc),
        })
    }

    /// Unpacks the dump that was read of the file with this name.
    fn unpack_dump<H: Host>(
        &mut self,
        name: &str,
        host: &mut H,
        buffer: &mut ReportBuffer,
    ) -> Result<Verdict, AllocError>
        ensures setup { self.new.setup ≡ self.old.setup }
        ensures done { EndsWork result buffer.new (task_work (task_of self.old.setup name.now self.old.dump)) (H.state host.old) (H.state host.new) }
    {
        let all = Inspection::of(&self.dump, &mut self.faults, &mut self.errors)?;
        let place = ImagePlace::of(self.alloc, name)?;
        let done = done_path(self.alloc, &self.setup.into, &place)?;
        let partial = partial_path(self.alloc, &self.setup.into, &place)?;
        let task = Task {
            alloc: self.alloc,
            setup: &self.setup,
            name,
            all: &all,
            done,
            partial,
        };
        task.unpack(place.folders.as_slice(), &mut self.files, host, buffer)
    }

    /// Unpacks the file with this name and these bytes, or reports that it cannot be read if there
    /// are none.
    fn unpack<H: Host>(
        &mut self,
        name: &[u8],
        bytes: Option<&[u8]>,
        host: &mut H,
        buffer: &mut ReportBuffer,
    ) -> Result<Verdict, AllocError>
        ensures setup { self.new.setup ≡ self.old.setup }
        ensures done { EndsWork result buffer.new (unpacking self.old.setup name.now (option_map (λ bytes. bytes.now) bytes.entry)) (H.state host.old) (H.state host.new) }
    {
        let bytes = match bytes {
            Some(bytes) => bytes,
            None => return report_unread(
                &self.setup,
                &mut self.files.reported.scratch,
                name,
                buffer,
            ),
        };
        let path = match str::from_utf8(name) {
            Ok(path) => path,
            Err(_) => return report_unread(
                &self.setup,
                &mut self.files.reported.scratch,
                name,
                buffer,
            ),
        };
        match refill_from(&mut self.dump, self.alloc, bytes) {
            Ok(()) => self.unpack_dump(path, host, buffer),
            Err(DumpFault::WrongLength(_)) => {
                report_wrong_length(
                    &self.setup,
                    &mut self.files.reported.scratch,
                    name,
                    bytes,
                    buffer,
                )
            }
            Err(DumpFault::Memory(error)) => Err(error),
        }
    }
}

impl FileTask for Unpacker {
    ghost use Rattle.cmd_extract.specs.Setup.{ExtractSetupView};
    ghost use Rattle.cmd_extract.specs.Effects.{unpacks};
    ghost use Rattle.cmd_extract.specs.Extracts.{extract_heading};

    ghost Options = { ExtractSetupView };

    ghost options = { λ unpacker. unpacker.setup };

    ghost effects = { unpacks };

    ghost heading = { λ unpacker. extract_heading unpacker.setup.form };

    fn head(&mut self, buffer: &mut ReportBuffer) -> Result<(), AllocError> {
        buffer.clear();
        let out = mem::replace(&mut buffer.printed, Vec::new(self.alloc));
        let form = self.setup.form;
        buffer.printed = print_extract_heading(form, &mut self.files.reported.scratch, out)?;
        Ok(())
    }

    fn process_file<H: Host>(
        &mut self,
        name: &[u8],
        bytes: Option<&[u8]>,
        host: &mut H,
        buffer: &mut ReportBuffer,
    ) -> Result<Verdict, AllocError> {
        self.unpack(name, bytes, host, buffer)
    }
}
