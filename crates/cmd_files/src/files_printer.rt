//! `FilesPrinter`: what `files` prints of each file of a run.
ghost use Rattle.std.specs.Prelude.{◌≡◌};
ghost use Rattle.cmd_files.specs.Files.{files_printing};

use crate::printing::print_dump;
use d64_inventory::is_amiss;
use d64_survey::Inspection;
use out_files::{Form, files_header, no_dump_file_csv, unread_file_csv};
use out_json_csv::{Scratch, no_dump_json, unread_json};
use program_arguments::Format;
use program_surveys::Printer;
use std::alloc::{AllocError, Global};

/// The printer of `files`, with the buffers that it uses for one file after another.
#[derive(Drop)]
pub struct FilesPrinter {
    form: Form,
    scratch: Scratch,
}

impl FilesPrinter {
    /// Returns a printer in a form.
    pub fn new(alloc: Global, form: Form) -> FilesPrinter
        ensures { result.form ≡ form }
    {
        FilesPrinter {
            form,
            scratch: Scratch::new(alloc),
        }
    }
}

impl Printer for FilesPrinter {
    ghost printing = { λ printer. files_printing printer.form };

    fn print_heading(&mut self, out: Vec<u8>) -> Result<Vec<u8>, AllocError> {
        match self.form.format {
            Format::Text | Format::Json => Ok(out),
            Format::Csv => files_header(self.form.leftovers, &mut self.scratch, out),
        }
    }

    fn print_dump(
        &mut self,
        name: &[u8],
        _bytes: &[u8],
        all: &Inspection,
        out: Vec<u8>,
    ) -> Result<Vec<u8>, AllocError> {
        print_dump(self.form, &mut self.scratch, name, all, out)
    }

    fn print_unread(&mut self, name: &[u8], out: Vec<u8>) -> Result<Vec<u8>, AllocError> {
        match self.form.format {
            Format::Text => Ok(out),
            Format::Json => unread_json(&mut self.scratch, name, out),
            Format::Csv => unread_file_csv(self.form.leftovers, &mut self.scratch, name, out),
        }
    }

    fn print_no_dump(
        &mut self,
        name: &[u8],
        bytes: &[u8],
        out: Vec<u8>,
    ) -> Result<Vec<u8>, AllocError> {
        let leftovers = self.form.leftovers;
        match self.form.format {
            Format::Text => Ok(out),
            Format::Json => no_dump_json(&mut self.scratch, name, bytes, out),
            Format::Csv => no_dump_file_csv(leftovers, &mut self.scratch, name, bytes, out),
        }
    }

    fn is_amiss(&self, all: &Inspection) -> bool {
        is_amiss(all)
    }
}
