//! `CheckPrinter`: what `check` prints of each file of a run.
ghost use Rattle.std.specs.Prelude.{◌≡◌};
ghost use Rattle.cmd_check.specs.Check.{check_printing};

use crate::csv_line::check_csv;
use crate::image_text::check_text;
use crate::json_line::check_json;
use crate::row::{csv_header, no_dump_csv, unread_csv};
use d64_survey::Inspection;
use out_json_csv::{Scratch, no_dump_json, unread_json};
use program_arguments::Format;
use program_surveys::Printer;
use sha2::{Digest, Sha256};
use std::alloc::{AllocError, Global};

/// The buffers for lines of JSON and CSV, which are made for the first one: text needs none.
#[derive(Drop)]
struct Buffers {
    alloc: Global,
    scratch: Option<Scratch>,
}

impl Buffers {
    /// Returns the buffers.
    fn get(&mut self) -> &mut Scratch {
        let alloc = self.alloc;
        self.scratch.get_or_insert_with(|| Scratch::new(alloc))
    }
}

/// The printer of `check`, with the buffers that it uses for one file after another.
#[derive(Drop)]
pub struct CheckPrinter {
    form: Format,
    has_digest: bool,
    buffers: Buffers,
}

impl CheckPrinter {
    /// Returns a printer in a form, with the digest of each file if that is asked for.
    pub fn new(alloc: Global, form: Format, has_digest: bool) -> CheckPrinter
        ensures form { result.form ≡ form }
        ensures digest { result.has_digest ≡ has_digest }
    {
        CheckPrinter {
            form,
            has_digest,
            buffers: Buffers {
                alloc,
                scratch: None,
            },
        }
    }
}

impl Printer for CheckPrinter {
    ghost printing = { λ printer. check_printing printer.form printer.has_digest };

    fn print_heading(&mut self, out: Vec<u8>) -> Result<Vec<u8>, AllocError> {
        match self.form {
            Format::Text | Format::Json => Ok(out),
            Format::Csv => csv_header(self.buffers.get(), self.has_digest, out),
        }
    }

    fn print_dump(
        &mut self,
        name: &[u8],
        bytes: &[u8],
        all: &Inspection,
        out: Vec<u8>,
    ) -> Result<Vec<u8>, AllocError> {
        let digest = if self.has_digest {
            Some(Sha256::digest(bytes))
        } else {
            None
        };
        match self.form {
            Format::Text => {
                let mut text = out;
                check_text(name, all, &mut text)?;
                Ok(text)
            }
            Format::Json => check_json(self.buffers.get(), name, all, digest.as_ref(), out),
            Format::Csv => check_csv(self.buffers.get(), name, all, digest.as_ref(), out),
        }
    }

    fn print_unread(&mut self, name: &[u8], out: Vec<u8>) -> Result<Vec<u8>, AllocError> {
        match self.form {
            Format::Text => Ok(out),
            Format::Json => unread_json(self.buffers.get(), name, out),
            Format::Csv => unread_csv(self.buffers.get(), name, self.has_digest, out),
        }
    }

    fn print_no_dump(
        &mut self,
        name: &[u8],
        bytes: &[u8],
        out: Vec<u8>,
    ) -> Result<Vec<u8>, AllocError> {
        match self.form {
            Format::Text => Ok(out),
            Format::Json => no_dump_json(self.buffers.get(), name, bytes, out),
            Format::Csv => no_dump_csv(self.buffers.get(), name, self.has_digest, bytes, out),
        }
    }

    fn is_amiss(&self, all: &Inspection) -> bool {
        all.is_amiss()
    }
}
