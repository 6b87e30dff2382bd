//! The host files to which the names of files are links.
ghost use Rattle.std.specs.Prelude.{◌≡◌, if◌then◌else◌, Some, None, option_map, string_bytes, IfOk, OnOk};
ghost use Rattle.d64_inventory.specs.Rows.{known_kind};
ghost use Rattle.cmd_extract_contents.specs.HostFileNames.{ending_by};
ghost use Rattle.cmd_catalogue.specs.Links.{folder_of, first_naming, file_name, file_url, naming_after};
ghost use Rattle.cmd_catalogue.specs.Namings.{naming_of};

use crate::url::put_url;
use cmd_extract_contents::{ContentExtraction, ending_by};
use d64_files::Entry;
use d64_survey::Inspection;
use host_names::{Ending, ImagePlace, TakenNames, done_path, put_path};
use petscii::push_spelling;
use std::alloc::{AllocError, Global};

/// Returns the folder of the image with this name, below the links' folder; None if there is no
/// such folder, or the name is not UTF-8.
pub(crate) fn folder_of(
    alloc: Global,
    links: Option<&str>,
    name: &[u8],
) -> Result<Option<String>, AllocError>
    ensures { IfOk result (λ folder. option_map string_bytes folder ≡ folder_of (option_map (λ links. links.now) links.entry) name.now) }
{
    let Some(into) = links else {
        return Ok(None);
    };
    let Ok(path) = str::from_utf8(name) else {
        return Ok(None);
    };
    let place = ImagePlace::of(alloc, path)?;
    Ok(Some(done_path(alloc, into, &place)?))
}

/// Returns the ending of the host name of an entry's file.
fn ending_of(entry: &Entry) -> Ending
    ensures { result ≡ ending_by (known_kind entry.now.bytes) }
{
    if entry.has_kind() {
        ending_by(Some(entry.kind()))
    } else {
        ending_by(None)
    }
}

/// The host files that `extract` writes of the files of an image, one after another, in buffers
/// that are used for one image after another.
#[derive(Drop)]
pub(crate) struct HostFiles {
    pub(crate) extraction: ContentExtraction,
    pub(crate) taken: TakenNames,
    /// The bytes of a file.
    bytes: Vec<u8>,
    /// The name of a file in text form.
    text: Vec<u8>,
    /// The file's name on the host.
    pub(crate) name: Vec<u8>,
    /// The file's path on the host.
    path: Vec<u8>,
    /// The URL of that path.
    pub(crate) url: Vec<u8>,
}

impl HostFiles {
    /// Returns a list without files, whose buffers have no memory yet.
    pub(crate) fn new(alloc: Global) -> HostFiles {
        HostFiles {
            extraction: ContentExtraction::new(),
            taken: TakenNames::new(alloc),
            bytes: Vec::new(alloc),
            text: Vec::new(alloc),
            name: Vec::new(alloc),
            path: Vec::new(alloc),
            url: Vec::new(alloc),
        }
    }

    /// Begins with the files of an image, and forgets those before.
    pub(crate) fn begin(&mut self)
        ensures { naming_of self.new ≡ first_naming }
    {
        self.extraction = ContentExtraction::new();
        self.taken.clear();
    }

    /// Names the host file of the next entry's file, and returns whether there is one: it needs a
    /// content that fits after the files before. The name is taken from then on.
    #[tactic(auto, unfolding(crate::specs::Links::file_name, crate::specs::Links::naming_after, cmd_extract_contents::specs::HostFileNames::host_name_of_row, d64_inventory::specs::Rows::file_row_of))]
    fn name_next(&mut self, all: &Inspection, entry: &Entry) -> Result<bool, AllocError>
        ensures name { IfOk result (λ is_written. (if is_written then Some self.new.name.items else None) ≡ file_name all.now (naming_of self.old) entry.now) }
        ensures naming { OnOk result (naming_of self.new ≡ naming_after all.now (naming_of self.old) entry.now) }
    {
        let slot = entry.slot();
        match self
            .extraction
            .next(all.survey(), slot, false, &mut self.bytes)?
        {
            Some(_extent) => {}
            None => return Ok(false),
        }
        self.text.clear();
        push_spelling(&mut self.text, entry.name())?;
        self.taken
            .take(&self.text, ending_of(entry), false, &mut self.name)?;
        Ok(true)
    }

    /// Puts the URL of the host file of the next entry's file, in this folder, into `url`, and
    /// returns whether there is one.
    pub(crate) fn find_next(
        &mut self,
        all: &Inspection,
        entry: &Entry,
        folder: &str,
    ) -> Result<bool, AllocError>
        ensures url { IfOk result (λ is_written. (if is_written then Some self.new.url.items else None) ≡ file_url folder.now all.now (naming_of self.old) entry.now) }
        ensures naming { OnOk result (naming_of self.new ≡ naming_after all.now (naming_of self.old) entry.now) }
    {
        if !self.name_next(all, entry)? {
            return Ok(false);
        }
        put_path(&mut self.path, folder, &self.name)?;
        put_url(&mut self.url, &self.path)?;
        Ok(true)
    }
}
