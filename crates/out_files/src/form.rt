//! `Form`: what is printed of the files on dumps.
ghost use Rattle.std.specs.Prelude.{◌≡◌};
ghost use Rattle.out_files.specs.Forms.{files_and};
ghost use Rattle.out_files.specs.Forms.{as_json};

use d64_leftovers::Selection;
use program_arguments::{Format, Leftovers};

/// What is printed of the files on dumps.
#[derive(Clone, Copy, PartialEq, Eq)]
pub struct Form {
    pub format: Format,
    /// What is left over on the dumps and is printed too.
    pub leftovers: Leftovers,
}

impl Form {
    /// Returns the rows that are wanted: those of files, and of what is left over and is printed
    /// too.
    pub fn wanted(self) -> Selection
        ensures { result ≡ files_and self.leftovers }
    {
        Selection {
            files: true,
            deleted: self.leftovers.deleted,
            orphans: self.leftovers.orphans,
        }
    }

    /// Returns the same form with JSON as its format.
    pub fn as_json(self) -> Form
        ensures { result ≡ as_json self }
    {
        Form {
            format: Format::Json,
            leftovers: self.leftovers,
        }
    }
}
