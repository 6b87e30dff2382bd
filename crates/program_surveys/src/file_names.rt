//! The names of the files of a survey.
ghost use Rattle.std.specs.Prelude.{◌≡◌};
ghost use Rattle.program_surveys.specs.SurveyFiles.{files_in, survey_files_of, list_name, separator_byte};

use program_arguments::{Names, Separator};

/// The names of the files that a survey processes.
#[derive(Clone, Copy)]
pub enum FileNames<'n> {
    /// These names.
    Given(&'n [String]),
    /// The names that a list holds, with this byte between them. The list is a host file; `-` is
    /// the standard input.
    Listed { list: &'n str, separator: u8 },
}

impl<'n> FileNames<'n> {
    /// Returns the names that the arguments give or list.
    pub fn of(names: &'n Names) -> FileNames<'n>
        ensures { files_in result ≡ survey_files_of names.now }
    {
        match names {
            Names::Given(names) => FileNames::Given(names.as_slice()),
            Names::Listed { list, separator } => FileNames::Listed {
                list: list.as_str(),
                separator: separator_byte(*separator),
            },
        }
    }

    /// Returns the name of the list, empty if there is none.
    pub(crate) fn list_name(self) -> &'n str
        ensures { result.now ≡ list_name (files_in self.entry) }
    {
        match self {
            FileNames::Given(_) => "",
            FileNames::Listed { list, .. } => list,
        }
    }
}

/// Returns the byte between the names of a list.
fn separator_byte(separator: Separator) -> u8
    ensures { result ≡ separator_byte separator }
{
    match separator {
        Separator::LineFeed => b'\n',
        Separator::Nul => 0,
    }
}
