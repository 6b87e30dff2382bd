//! The arguments of each subcommand, as rows in the order of its help.

ghost use Rattle.std.specs.Prelude.{◌≡◌};
ghost use Rattle.clap.specs.Words.{new_app};
ghost use Rattle.program_arguments.specs.Making.{with_rules};
ghost use Rattle.program_arguments.specs.Subcommands.{app_for, name_for};

use crate::arguments::Argument;
use crate::subcommand::Subcommand;

/// The form of the output of a survey.
const SURVEY_FORMAT: Argument = Argument::Valued(
    "format",
    "FORMAT",
    "Form of the output: text, json or csv; without it, text",
);

/// The form in which changes are printed.
const CHANGE_FORMAT: Argument = Argument::Valued(
    "format",
    "FORMAT",
    "Form of the output: text or json; without it, text",
);

/// Deleted files, too.
const DELETED: Argument = Argument::Flag(
    "deleted",
    "Also deleted files, and which of them can be brought back",
);

/// Chains without an entry, too.
const ORPHANS: Argument = Argument::Flag("orphans", "Also chains of blocks that no entry leads to");

/// A list in place of names of files.
const FILES_FROM: Argument = Argument::Valued(
    "files-from",
    "LIST",
    "Take the names from the lines of a file; `-` is the standard input",
);

/// What ends the names in such a list.
const NULL: Argument = Argument::Flag(
    "null",
    "Names in LIST end with NUL bytes, and not with line feeds",
);

/// The names of files.
const FILES: Argument = Argument::Files("The images to survey, in this order");

/// Returns the arguments of a subcommand.
pub(crate) fn arguments_of(subcommand: Subcommand) -> &'static [Argument]
    ensures { with_rules (new_app (name_for subcommand)) result.now ≡ app_for subcommand }
{
    match subcommand {
        Subcommand::Shell => &[
            Argument::Valued(
                "tracks",
                "N",
                "Tracks of the blank image: 35 or 40; without it, 35. Not with IMAGE",
            ),
            Argument::Valued(
                "resume",
                "FILE",
                "The session to go on with, as `keep` stored it. Not with --tracks",
            ),
            Argument::Optional(
                "image",
                "IMAGE",
                "The D64 image to work on; without it, a blank image",
            ),
            Argument::Line,
            Argument::StopFlag,
        ],
        Subcommand::Petcat => &[
            Argument::Output("FILE", "The text's file; without it, the standard output"),
            Argument::Optional(
                "file",
                "FILE",
                "The program file; without it, the standard input",
            ),
        ],
        Subcommand::Crunch => &[
            Argument::Valued(
                "start",
                "HEX",
                "Load address: one to four hexadecimal digits; without it, 0801",
            ),
            Argument::Output("FILE", "The program file; without it, the standard output"),
            Argument::Optional("file", "FILE", "The text; without it, the standard input"),
        ],
        Subcommand::Check => &[
            Argument::Flag("digest", "Add the SHA-256 digest of each file's bytes"),
            SURVEY_FORMAT,
            FILES_FROM,
            NULL,
            FILES,
        ],
        Subcommand::Files => &[DELETED, ORPHANS, SURVEY_FORMAT, FILES_FROM, NULL, FILES],
        Subcommand::Extract => &[
            Argument::Valued(
                "into",
                "FOLDER",
                "Put the images' folders into this one, which is there; without it, `.`",
            ),
            Argument::Flag(
                "part",
                "Also write what is left of files that have no content, as NAME.part",
            ),
            Argument::Flag(
                "skip-existing",
                "Pass over images whose folders are there and complete",
            ),
            DELETED,
            ORPHANS,
            SURVEY_FORMAT,
            FILES_FROM,
            NULL,
            FILES,
        ],
        Subcommand::Map => &[
            Argument::Valued(
                "format",
                "FORMAT",
                "Form of the map: text or svg; without it, text",
            ),
            Argument::Required("file", "FILE", "The image to draw"),
        ],
        Subcommand::Diff => &[
            CHANGE_FORMAT,
            Argument::Required("old", "OLD", "The image as it was"),
            Argument::Required("new", "NEW", "The image as it is now"),
        ],
        Subcommand::Merge => &[
            Argument::Output("OUT", "The file to make, which must not be there"),
            Argument::Flag("plain", "Leave out the read codes of the blocks"),
            Argument::Flag(
                "majority",
                "Where good copies differ, take what more than half of them have",
            ),
            Argument::Flag(
                "first",
                "Where good copies differ otherwise, take the first one",
            ),
            CHANGE_FORMAT,
            Argument::Files("The dumps of the disk, in this order"),
        ],
        Subcommand::Catalogue => &[
            Argument::Flag("maps", "Add a picture of the blocks of each image"),
            Argument::Valued(
                "title",
                "TEXT",
                "Title and heading of the page; without it, Disks",
            ),
            Argument::Valued(
                "links",
                "FOLDER",
                "Make names links to the files that `extract --into FOLDER` wrote",
            ),
            FILES_FROM,
            NULL,
            FILES,
        ],
    }
}
