//! The texts of the help, beside those of single arguments.

ghost use Rattle.std.specs.Prelude.{◌≡◌};
ghost use Rattle.program_arguments.specs.Subcommands.{name_for};
ghost use Rattle.program_arguments.specs.Usages.{usage_for};

use crate::subcommand::Subcommand;

/// The help of a subcommand as a whole.
pub(crate) struct Help {
    /// The subcommand's name.
    pub(crate) name: &'static str,
    /// What it does, in a line.
    pub(crate) about: &'static str,
    pub(crate) usage: &'static str,
    /// The text after the arguments: what goes in and what comes out, the exit statuses and an
    /// example.
    pub(crate) details: &'static str,
}

impl Subcommand {
    /// Returns the help of the subcommand: its row.
    #[tactic(auto, unfolding(crate::specs::Usages::usage_for))]
    pub(crate) fn help(self) -> &'static Help
        ensures name { result.now.name.now ≡ name_for self }
        ensures usage { result.now.usage.now ≡ usage_for self }
    {
        match self {
            Subcommand::Shell => &SHELL,
            Subcommand::Petcat => &PETCAT,
            Subcommand::Crunch => &CRUNCH,
            Subcommand::Check => &CHECK,
            Subcommand::Files => &FILES,
            Subcommand::Extract => &EXTRACT,
            Subcommand::Map => &MAP,
            Subcommand::Diff => &DIFF,
            Subcommand::Merge => &MERGE,
            Subcommand::Catalogue => &CATALOGUE,
        }
    }
}

const SHELL: Help = Help {
    name: "shell",
    about: "Runs a script of commands on a disk image",
    usage: SHELL_USAGE,
    details: SHELL_DETAILS,
};

const PETCAT: Help = Help {
    name: "petcat",
    about: "Lists a BASIC program as text",
    usage: PETCAT_USAGE,
    details: PETCAT_DETAILS,
};

const CRUNCH: Help = Help {
    name: "crunch",
    about: "Makes a BASIC program from a text",
    usage: CRUNCH_USAGE,
    details: CRUNCH_DETAILS,
};

const CHECK: Help = Help {
    name: "check",
    about: "Says what is wrong on disk images, and where",
    usage: CHECK_USAGE,
    details: CHECK_DETAILS,
};

const FILES: Help = Help {
    name: "files",
    about: "Lists the files on disk images, and which are whole",
    usage: FILES_USAGE,
    details: FILES_DETAILS,
};

const EXTRACT: Help = Help {
    name: "extract",
    about: "Writes the files on disk images to folders",
    usage: EXTRACT_USAGE,
    details: EXTRACT_DETAILS,
};

const MAP: Help = Help {
    name: "map",
    about: "Draws a map of the blocks of a disk image",
    usage: MAP_USAGE,
    details: MAP_DETAILS,
};

const DIFF: Help = Help {
    name: "diff",
    about: "Says what changed from one disk image to another",
    usage: DIFF_USAGE,
    details: DIFF_DETAILS,
};

const MERGE: Help = Help {
    name: "merge",
    about: "Makes one dump of several dumps of one disk",
    usage: MERGE_USAGE,
    details: MERGE_DETAILS,
};

const CATALOGUE: Help = Help {
    name: "catalogue",
    about: "Makes one page of what is on disk images, to browse and search",
    usage: CATALOGUE_USAGE,
    details: CATALOGUE_DETAILS,
};

/// What the program does.
pub(crate) const ABOUT: &str =
    "Looks at and changes D64 images of Commodore 1541 disks, with undo, and turns
BASIC V2 programs into text and back.";

/// The usage of the program.
pub(crate) const USAGE: &str = "d64sh <COMMAND>";

/// The text of the program's help after the list of subcommands.
pub(crate) const DETAILS: &str = "Examples:
  d64sh shell -c list disk.d64       prints what is on a disk
  d64sh crunch game.bas -o game.prg  makes a program of a text

`d64sh shell --help` and the like say what goes in and what comes out. The
manual has the commands of the shell, and what the exit status means:
`man d64sh`, or docs/MANUAL.md beside the source.";

const SHELL_USAGE: &str = "d64sh shell [-e] [-c LINE].. [--tracks N] [IMAGE]
       d64sh shell [-e] [-c LINE].. --resume FILE [IMAGE]";

const SHELL_DETAILS: &str = "In:      the script on the standard input, one line per command
Out:     what each command shows, and a status line for each, `00, OK,00,00`
         if it was accepted
Example: d64sh shell -c list disk.d64

Lines:   format NAME,ID         make the disk empty
         write HOST [NAME[,T]]  write a host file to the disk; T is p, s or u
         crunch HOST [NAME]     write the BASIC program of a host file's text
         read NAME [HOST]       store a file of the disk as a host file
         petcat NAME            print the text of a BASIC program
         type NAME              print a text of the disk
         delete PATTERN ..      delete the files whose names match
         undelete NAME[,T]      bring a deleted file back; T is p, s or u
         rename OLD NEW         give a file another name
         name TEXT[,ID]         give the disk another name
         list                   print the directory
         validate               free the blocks that no closed file has
         block T S              print the block of track T and sector S
         bread HOST T S         store a block as a host file
         bwrite HOST T S        write a block from a host file of 256 bytes
         undo, redo             take a change back, and make it again
         history                print the changes
         save [HOST]            store the image, as IMAGE without a name
         keep HOST              store the session, with its changes
         quit                   end the script

IMAGE changes by `save`, or if another command stores a file under its name.
With --resume, it isn't read, and `save` without a name stores there. The manual
says more: `man d64sh`, or docs/MANUAL.md beside the source.";

const PETCAT_USAGE: &str = "d64sh petcat [-o FILE] [FILE]";

const PETCAT_DETAILS: &str =
    "In:      a program as the machine saves it, from FILE or the standard input
Out:     its lines as text on the standard output, with codes that no key
         types in braces, such as {clr}
Example: d64sh petcat hello.prg -o hello.bas

With --output, FILE is written whole or not at all.

The manual says more: `man d64sh`, or docs/MANUAL.md beside the source.";

const CRUNCH_USAGE: &str = "d64sh crunch [--start HEX] [-o FILE] [FILE]";

const CRUNCH_DETAILS: &str =
    "In:      text as `petcat` writes it, each line with its number first, from FILE
         or the standard input
Out:     the program as the machine loads it, on the standard output
Example: d64sh crunch hello.bas -o hello.prg

With --output, FILE is written whole or not at all, and what is wrong with the
text is reported as NAME:LINE: and the reason.

The manual says more: `man d64sh`, or docs/MANUAL.md beside the source.";

const CHECK_USAGE: &str = "d64sh check [--digest] [--format FORMAT] FILE..
       d64sh check [--digest] [--format FORMAT] --files-from LIST [--null]";

const CHECK_DETAILS: &str =
    "In:      images of 35 or 40 tracks, each with or without the read codes of its
         blocks: files of 174,848, 175,531, 196,608 or 197,376 bytes; or G64
Out:     a line per image, then a line for each fault, each block with a read
         error and each file that isn't whole; with --format json an object a
         line, with --format csv a row an image
Exit:    0 nothing is amiss; 1 an image has a fault, a doubt, a read error or a
         file that isn't whole; 2 an argument is wrong, a file is no image, or
         reading or writing failed
Example: d64sh check *.d64

No image is ever written. The manual says more: `man d64sh`, or docs/MANUAL.md
beside the source.";

const FILES_USAGE: &str = "d64sh files [--deleted] [--orphans] [--format FORMAT] FILE..
       d64sh files [..] --files-from LIST [--null]";

const FILES_DETAILS: &str =
    "In:      images of 35 or 40 tracks, each with or without the read codes of its
         blocks: files of 174,848, 175,531, 196,608 or 197,376 bytes; or G64
Out:     a line per file: its image, size, kind and name, and that it is whole
         or what is amiss; with --format json an object per line, with --format
         csv a row per file, both with the SHA-256 digest of what it holds
Exit:    0 nothing is amiss; 1 a file isn't whole, or a directory is broken or
         has a read error; 2 an argument is wrong, a file is no image, or
         reading or writing failed
Example: d64sh files --format csv *.d64 >files.csv

No image is ever written. The manual says more: `man d64sh`, or docs/MANUAL.md
beside the source.";

const EXTRACT_USAGE: &str = "d64sh extract [--into FOLDER] [--part] [--deleted] [--orphans]
                     [--skip-existing] [--format FORMAT] FILE..
       d64sh extract [..] --files-from LIST [--null]";

const EXTRACT_DETAILS: &str =
    "In:      images of 35 or 40 tracks, each with or without the read codes of its
         blocks: files of 174,848, 175,531, 196,608 or 197,376 bytes; or G64
Out:     a folder for each image, with its files and a list, `files.jsonl`; and
         what `files` prints, with the path of each file that was written
Exit:    0 nothing is amiss; 1 a file isn't whole, or a directory is broken or
         has a read error; 2 an argument is wrong, a file is no image, or
         reading or writing failed
Example: d64sh extract --into files *.d64

The folder of disk.d64 is disk.d64.files, and has `.partial` at its end until all
is in it. A folder that is there already is left as it is, and no image is ever
written. The manual says more: `man d64sh`, or docs/MANUAL.md beside the source.";

const MAP_USAGE: &str = "d64sh map [--format FORMAT] FILE";

const MAP_DETAILS: &str =
    "In:      an image of 35 or 40 tracks, with or without the read codes of its
         blocks: a file of 174,848, 175,531, 196,608 or 197,376 bytes; or G64
Out:     a line per track with a character per sector, and what each character
         means; with --format svg a picture, with a colour for each file
Exit:    0 nothing is amiss; 1 the image has a fault, a doubt, a read error or a
         file that isn't whole; 2 an argument is wrong, the file is no image, or
         reading or writing failed
Example: d64sh map --format svg disk.d64 >disk.svg

The image is never written. The manual says more: `man d64sh`, or docs/MANUAL.md
beside the source.";

const DIFF_USAGE: &str = "d64sh diff [--format FORMAT] OLD NEW";

const DIFF_DETAILS: &str =
    "In:      two images of 35 or 40 tracks, each with or without the read codes of
         its blocks: files of 174,848, 175,531, 196,608 or 197,376 bytes; or G64
Out:     what changed from OLD to NEW, files first: lines with `-` for OLD and
         `+` for NEW, then the blocks that differ; with --format json an object
         a line
Exit:    0 both files are the same dump; 1 they differ; 2 an argument is wrong,
         a file is no image, or reading or writing failed
Example: d64sh diff before.d64 after.d64

No image is ever written. The manual says more: `man d64sh`, or docs/MANUAL.md
beside the source.";

const MERGE_USAGE: &str =
    "d64sh merge -o OUT [--plain] [--majority] [--first] [--format FORMAT] FILE..";

const MERGE_DETAILS: &str =
    "In:      dumps of one disk: images of 35 or 40 tracks, each with or without the
         read codes of its blocks, and G64 files
Out:     the file OUT, new, with the good copy of each block; a line for OUT and
         one for each block that isn't the same in all; with --format json an
         object a block, and one for OUT
Exit:    0 each block has a good copy; 1 a block is lost, good copies of one
         differ and nothing says which to take, so that nothing is written, or
         the first is taken; 2 an argument is wrong, a file is no dump, OUT is
         there already, or reading or writing failed
Example: d64sh merge -o best.d64 first.d64 second.d64 third.g64

No FILE is ever written, and OUT is whole or not there. The manual says more:
`man d64sh`, or docs/MANUAL.md beside the source.";

const CATALOGUE_USAGE: &str = "d64sh catalogue [--maps] [--title TEXT] [--links FOLDER] FILE..
       d64sh catalogue [..] --files-from LIST [--null]";

const CATALOGUE_DETAILS: &str =
    "In:      images of 35 or 40 tracks, each with or without the read codes of its
         blocks: files of 174,848, 175,531, 196,608 or 197,376 bytes; or G64
Out:     one HTML page with a section for each image: its name, what is wrong
         on it and its files, with a field to search them
Exit:    0 nothing is amiss; 1 a file isn't whole, or a directory is broken or
         has a read error; 2 an argument is wrong, a file is no image, or
         reading or writing failed
Example: d64sh catalogue --maps *.d64 >disks.html

No image is ever written. The manual says more: `man d64sh`, or docs/MANUAL.md
beside the source.";
