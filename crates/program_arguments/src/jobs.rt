//! `Job`: what arguments may ask for; and `JobFault`: why they ask for nothing.

ghost use Rattle.std.specs.Prelude.{◌≡◌, ◌≤◌, ◌↔◌, IfSome, IsTrue, length, option_map};
ghost use Rattle.program_arguments.specs.Requested.{IsReportedAs, IsHelpOrVersion};
ghost use Rattle.program_arguments.specs.FaultText.{fault_text_of};
ghost use Rattle.program_arguments.specs.declared.jobs.JobFault.TheVariants.{Memory};

use clap::Error as ClapError;
use clap::error::ErrorKind;
use std::alloc::AllocError;
use std::fmt;
use thiserror::Error;

/// What the arguments ask for. The names are names of host files, as they are given.
#[derive(Debug, Drop)]
pub enum Job {
    /// Run a script on an image, or on a blank one of 35 or 40 tracks if there is no name. If
    /// `resume` names a session file, the script runs on its session, and `image` is only the file
    /// that `save` stores to by default. The script is `lines`, each with a line feed after it, or
    /// the standard input if there are no lines; it ends after the first line that is refused if
    /// `stops_at_refusal` is set.
    Shell {
        image: Option<String>,
        tracks: u8,
        resume: Option<String>,
        lines: Vec<String>,
        stops_at_refusal: bool,
    },
    /// List the BASIC program in a file, or in the standard input if there is no name, to the file
    /// `output`, or to the standard output.
    Petcat {
        file: Option<String>,
        output: Option<String>,
    },
    /// Make a BASIC program, loaded at `start`, of the text in a file, or in the standard input,
    /// and write it in the same way.
    Crunch {
        start: u16,
        file: Option<String>,
        output: Option<String>,
    },
    /// Survey dumps and print what is wrong, with the digest of each if `digest` is set.
    Check {
        digest: bool,
        format: Format,
        names: Names,
    },
    /// Print each file on dumps, and whether it is whole.
    Files {
        leftovers: Leftovers,
        format: Format,
        names: Names,
    },
    /// Write the files on dumps to the host, and print each.
    Extract {
        extraction: Extraction,
        leftovers: Leftovers,
        format: Format,
        names: Names,
    },
    /// Draw the blocks of one dump.
    Map {
        format: PictureForm,
        file: String,
    },
    /// Make one page of what is on dumps.
    Catalogue {
        page: Page,
        names: Names,
    },
    /// Print what changed from one dump to another.
    Diff {
        format: DiffForm,
        old: String,
        new: String,
    },
    /// Make one dump of dumps of one disk.
    Merge {
        merging: Merging,
        format: DiffForm,
        files: Vec<String>,
    },
}

/// How one dump is made of several.
#[derive(Debug, Drop)]
pub struct Merging {
    /// The file that is made.
    pub output: String,
    /// Whether it has no read codes.
    pub plain: bool,
    /// Whether what more than half of the good copies have is taken if they differ.
    pub majority: bool,
    /// Whether the first good copy is taken if they differ otherwise.
    pub first: bool,
}

/// How files are taken out of images.
#[derive(Debug, Drop)]
pub struct Extraction {
    /// The folder below which each image gets a folder of its own. The name is not empty.
    pub into: String,
    /// Whether what is left of files without content is written too.
    pub part: bool,
    /// Whether an image whose folder exists is skipped.
    pub skip_existing: bool,
}

/// What is left over on dumps and is wanted beside their files.
#[derive(Clone, Copy, Debug, Default, PartialEq, Eq)]
pub struct Leftovers {
    /// Whether deleted files are wanted.
    pub deleted: bool,
    /// Whether chains of blocks are wanted that no entry leads to.
    pub orphans: bool,
}

/// How one page of dumps is made.
#[derive(Debug, Drop)]
pub struct Page {
    /// Whether it has the picture of each dump's blocks.
    pub maps: bool,
    /// Its title and heading, or None for the usual one. The text is not empty.
    pub title: Option<String>,
    /// The folder of the extracted files to which their names on the page are links, or None
    /// without links. The name is not empty.
    pub links: Option<String>,
}

/// The form of a survey's output.
#[derive(Clone, Copy, Debug, PartialEq, Eq)]
pub enum Format {
    /// Lines for people.
    Text,
    /// One JSON object on each line.
    Json,
    /// CSV with one header row.
    Csv,
}

/// The form of a picture of blocks.
#[derive(Clone, Copy, Debug, PartialEq, Eq)]
pub enum PictureForm {
    /// A line for each track, for people.
    Text,
    /// One SVG document.
    Svg,
}

/// The form in which changes are printed.
#[derive(Clone, Copy, Debug, PartialEq, Eq)]
pub enum DiffForm {
    /// Lines for people.
    Text,
    /// One JSON object on each line.
    Json,
}

/// The names of the files to survey.
#[derive(Debug, Drop)]
pub enum Names {
    /// One name or more, as they are given.
    Given(Vec<String>),
    /// The names that a list holds, each up to the next separator. The list is a host file; `-` is
    /// the standard input.
    Listed { list: String, separator: Separator },
}

/// The byte that ends a name in a list.
#[derive(Clone, Copy, Debug, PartialEq, Eq)]
pub enum Separator {
    LineFeed,
    Nul,
}

/// Why the arguments ask for no job.
#[derive(Debug, Drop, Error)]
pub enum JobFault {
    /// The arguments are not the program's, or ask for help or the version, which is then the
    /// error's text.
    Arguments(ClapError),
    /// The value of `--start` is not one to four hexadecimal digits.
    Start,
    Memory,
    /// The value of `--tracks` is neither 35 nor 40, or there is an image too.
    Tracks,
    /// There are both `--resume` and `--tracks`.
    Both,
    /// The value of a survey's `--format` is neither `text`, `json` nor `csv`.
    Format,
    /// There are both FILE and `--files-from`, or neither.
    Names,
    /// There is `--null` without `--files-from`.
    Null,
    /// The value of `--format` of `map` is neither `text` nor `svg`.
    Picture,
    /// What follows `--format` of `diff` or `merge` is neither `text` nor `json`.
    Difference,
    /// The value of `--into` is empty.
    Folder,
    /// The value of `--title` is empty.
    Title,
    /// The value of `--links` is empty.
    Links,
    /// There is `merge` without `--output`.
    Output,
    /// There is `merge` without FILE.
    Dumps,
}

impl JobFault {
    /// Whether the fault is the help or the version that the arguments asked for.
    pub fn is_help_or_version(&self) -> bool
        ensures { IsTrue result ↔ IsHelpOrVersion self.now }
    {
        match self {
            JobFault::Arguments(error) => !error.use_stderr(),
            _ => false,
        }
    }

    /// Returns the text of the fault, or None for an error of `clap`'s, which has its own.
    pub fn text(&self) -> Option<&'static str>
        ensures text { option_map (λ text. text.now) result ≡ fault_text_of self.now }
        ensures fits { IfSome result (λ text. length text.now ≤ 56) }
    {
        match self {
            JobFault::Arguments(_) => None,
            JobFault::Start => Some("usage: --start takes one to four hexadecimal digits"),
            JobFault::Memory => Some("out of memory"),
            JobFault::Tracks => Some("usage: --tracks takes 35 or 40 and no IMAGE"),
            JobFault::Both => Some("usage: --resume and --tracks exclude each other"),
            JobFault::Format => Some("usage: --format takes text, json or csv"),
            JobFault::Names => Some("usage: give either FILE.. or --files-from LIST"),
            JobFault::Null => Some("usage: --null needs --files-from"),
            JobFault::Picture => Some("usage: --format takes text or svg"),
            JobFault::Difference => Some("usage: --format takes text or json"),
            JobFault::Folder => Some("usage: --into takes the name of a folder"),
            JobFault::Title => Some("usage: --title takes a text"),
            JobFault::Links => Some("usage: --links takes the name of a folder"),
            JobFault::Output => Some("usage: merge needs --output OUT"),
            JobFault::Dumps => Some("usage: give one FILE or more"),
        }
    }
}

impl fmt::Display for JobFault {
    fn fmt<W: fmt::Write>(&self, f: &mut fmt::Formatter<W>) -> fmt::Result {
        match self {
            JobFault::Arguments(error) => error.fmt(f),
            fault => f.write_str(fault.text().unwrap_or_default()),
        }
    }
}

impl From<ClapError> for JobFault {
    ghost from_gives = { λ error fault. IsReportedAs error fault };

    fn from(error: ClapError) -> JobFault {
        match error.kind() {
            ErrorKind::OutOfMemory => JobFault::Memory,
            _ => JobFault::Arguments(error),
        }
    }
}

impl From<AllocError> for JobFault {
    ghost from_gives = { λ _ fault. fault ≡ Memory };

    fn from(_error: AllocError) -> JobFault {
        JobFault::Memory
    }
}
