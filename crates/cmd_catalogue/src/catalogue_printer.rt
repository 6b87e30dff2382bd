//! `CataloguePrinter`: the section that `catalogue` prints for each file of a run.
ghost use Rattle.std.specs.Prelude.{◌≡◌};
ghost use Rattle.cmd_catalogue.specs.Catalogue.{catalogue_printing};

use crate::head::push_head;
use crate::host_files::{HostFiles, folder_of};
use crate::section::{push_failed, push_section};
use d64_inventory::is_amiss;
use d64_survey::Inspection;
use out_messages::push_no_dump;
use program_arguments::Page;
use program_surveys::Printer;
use std::alloc::{AllocError, Global};

/// The printer of `catalogue`, with the buffers that it uses for one file after another.
#[derive(Drop)]
pub struct CataloguePrinter {
    alloc: Global,
    page: Page,
    files: HostFiles,
    text: Vec<u8>,
}

impl CataloguePrinter {
    /// Returns a printer of a page with these options.
    pub fn new(alloc: Global, page: Page) -> CataloguePrinter
        ensures { result.page ≡ page }
    {
        CataloguePrinter {
            alloc,
            page,
            files: HostFiles::new(alloc),
            text: Vec::new(alloc),
        }
    }
}

impl Printer for CataloguePrinter {
    ghost printing = { λ printer. catalogue_printing printer.page };

    fn print_heading(&mut self, out: Vec<u8>) -> Result<Vec<u8>, AllocError> {
        let mut page = out;
        push_head(&mut page, self.page.title.as_deref(), &mut self.text)?;
        Ok(page)
    }

    fn print_dump(
        &mut self,
        name: &[u8],
        _bytes: &[u8],
        all: &Inspection,
        out: Vec<u8>,
    ) -> Result<Vec<u8>, AllocError> {
        let folder = folder_of(self.alloc, self.page.links.as_deref(), name)?;
        let mut page = out;
        push_section(
            &mut page,
            self.page.maps,
            name,
            all,
            folder.as_deref(),
            &mut self.files,
            &mut self.text,
        )?;
        Ok(page)
    }

    fn print_unread(&mut self, name: &[u8], out: Vec<u8>) -> Result<Vec<u8>, AllocError> {
        let mut page = out;
        push_failed(&mut page, name, b"cannot be read")?;
        Ok(page)
    }

    fn print_no_dump(
        &mut self,
        name: &[u8],
        bytes: &[u8],
        out: Vec<u8>,
    ) -> Result<Vec<u8>, AllocError> {
        self.text.clear();
        push_no_dump(&mut self.text, bytes)?;
        let mut page = out;
        push_failed(&mut page, name, self.text.as_slice())?;
        Ok(page)
    }

    fn is_amiss(&self, all: &Inspection) -> bool {
        is_amiss(all)
    }
}
