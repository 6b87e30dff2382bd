//! The hints for the commands of `c1541`, and for other names that people try.
ghost use Rattle.std.specs.Prelude.{◌≡◌, map, option_copied};
ghost use Rattle.script_advice.specs.Hint.{hint_for, hint_text, hints};

use crate::near::is_same_name;

const NAME_THE_IMAGE: &[u8] = b"; name the image at the start: d64sh shell IMAGE";

const CHECK: &[u8] = b"; d64sh check inspects a disk";

const FOLDERS: &[u8] = b"; names count from the folder in which d64sh was started";

const LIST: &[u8] = b"; list shows the directory";

const DELETE: &[u8] = b"; delete deletes files";

const TYPE: &[u8] = b"; a text on the disk is shown by type";

const UNDELETE: &[u8] = b"; undelete brings a deleted file back";

const QUIT: &[u8] = b"; quit ends the session";

const COMMANDS: &[u8] = b"; at a prompt help lists the commands, and elsewhere d64sh help shell";

const ABSENT: &[u8] = b"; d64sh has no command for this";

/// The names that are no commands, each with its hint.
fn hints() -> &'static [(&'static str, &'static [u8])]
    ensures { map (λ row. (row.0.now, row.1.now)) result.now ≡ hints }
{
    &[
        ("@", b"; delete, rename, format and validate do what it did"),
        ("attach", NAME_THE_IMAGE),
        ("unit", NAME_THE_IMAGE),
        ("bam", b"; block 18 0 shows the map, and d64sh map draws it"),
        ("bcopy", b"; bread and bwrite copy a block"),
        ("bfill", b"; bwrite fills a block from a file of 256 bytes"),
        ("bpeek", b"; block shows a block"),
        ("bpoke", b"; bread and bwrite change a block"),
        ("chain", b"; d64sh map draws the blocks of each file"),
        ("entry", b"; block 18 1 shows the first entries"),
        ("info", CHECK),
        ("verify", CHECK),
        ("cd", FOLDERS),
        ("pwd", FOLDERS),
        ("copy", b"; read and then write copy a file"),
        ("dir", LIST),
        ("ls", LIST),
        ("$", LIST),
        ("extract", b"; read takes a file off the disk"),
        ("scratch", DELETE),
        ("rm", DELETE),
        ("show", TYPE),
        ("cat", TYPE),
        ("more", TYPE),
        ("unscratch", UNDELETE),
        ("unerase", UNDELETE),
        ("recover", UNDELETE),
        ("exit", QUIT),
        ("x", QUIT),
        ("help", COMMANDS),
        ("?", COMMANDS),
        ("version", b"; d64sh --version prints it"),
        ("geosextract", ABSENT),
        ("geosread", ABSENT),
        ("geoswrite", ABSENT),
        ("p00save", ABSENT),
        ("lock", ABSENT),
        ("parse", ABSENT),
        ("silent", ABSENT),
        ("tape", ABSENT),
        ("unlock", ABSENT),
        ("unlynx", ABSENT),
        ("unzip", ABSENT),
        ("verbose", ABSENT),
        ("zcreate", ABSENT),
    ]
}

/// The hint for a name that is no command, in whatever letters, if there is one.
pub(crate) fn hint_for(name: &str) -> Option<&'static [u8]>
    ensures { option_copied result ≡ hint_for name.now }
{
    for (other, hint) in hints() {
        if is_same_name(name, other) {
            return Some(hint);
        }
    }
    None
}

/// What is said of a name that is no command: its hint, or where the commands are listed.
pub(crate) fn hint_text(name: &str) -> &'static [u8]
    ensures { result.now ≡ hint_text name.now }
{
    match hint_for(name) {
        Some(hint) => hint,
        None => COMMANDS,
    }
}
