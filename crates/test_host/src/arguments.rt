//! The program's arguments: the jobs that they ask for, and the texts of those that are refused and
//! of help.
//!
//! The rows are text, since that is proved and compiled once for all of them: the arguments after
//! the program's name, with `|` between them, then ` => ` and the expected result.

use program_arguments::{Job, JobFault, job};
use std::alloc::{AllocError, Global};
use std::process::Abort;

/// Arguments, and their job as `Debug` prints it.
const JOBS: &str = "\
shell => Shell { image: None, tracks: 35, resume: None, lines: [], stops_at_refusal: false }
shell|my disk => Shell { image: Some(\"my disk\"), tracks: 35, resume: None, lines: [], stops_at_refusal: false }
shell|--tracks|40 => Shell { image: None, tracks: 40, resume: None, lines: [], stops_at_refusal: false }
shell|--resume=s => Shell { image: None, tracks: 35, resume: Some(\"s\"), lines: [], stops_at_refusal: false }
shell|disk|--resume|s => Shell { image: Some(\"disk\"), tracks: 35, resume: Some(\"s\"), lines: [], stops_at_refusal: false }
shell|-c|list|disk => Shell { image: Some(\"disk\"), tracks: 35, resume: None, lines: [\"list\"], stops_at_refusal: false }
shell|disk|--command=list => Shell { image: Some(\"disk\"), tracks: 35, resume: None, lines: [\"list\"], stops_at_refusal: false }
shell|-ec|format d,01|-c||--tracks=40|--command|list => Shell { image: None, tracks: 40, resume: None, lines: [\"format d,01\", \"\", \"list\"], stops_at_refusal: true }
shell|--stop-at-refusal => Shell { image: None, tracks: 35, resume: None, lines: [], stops_at_refusal: true }
petcat|h => Petcat { file: Some(\"h\"), output: None }
petcat|--|--help => Petcat { file: Some(\"--help\"), output: None }
petcat|-o|t|h => Petcat { file: Some(\"h\"), output: Some(\"t\") }
petcat|h|--output=t => Petcat { file: Some(\"h\"), output: Some(\"t\") }
crunch => Crunch { start: 2049, file: None, output: None }
crunch|h|--start=1C01 => Crunch { start: 7169, file: Some(\"h\"), output: None }
crunch|--start|1001|-o- => Crunch { start: 4097, file: None, output: Some(\"-\") }
check|a|my disk|- => Check { digest: false, format: Text, names: Given([\"a\", \"my disk\", \"-\"]) }
check|--|-a|--null => Check { digest: false, format: Text, names: Given([\"-a\", \"--null\"]) }
check|--files-from|- => Check { digest: false, format: Text, names: Listed { list: \"-\", separator: LineFeed } }
check|--files-from=- => Check { digest: false, format: Text, names: Listed { list: \"-\", separator: LineFeed } }
check|--null|--files-from|l => Check { digest: false, format: Text, names: Listed { list: \"l\", separator: Nul } }
check|a|--format|text => Check { digest: false, format: Text, names: Given([\"a\"]) }
check|a|--digest|--format=json|b => Check { digest: true, format: Json, names: Given([\"a\", \"b\"]) }
check|--format|csv|--files-from|l|--digest => Check { digest: true, format: Csv, names: Listed { list: \"l\", separator: LineFeed } }
files|a|check => Files { leftovers: Leftovers { deleted: false, orphans: false }, format: Text, names: Given([\"a\", \"check\"]) }
files|--deleted|a => Files { leftovers: Leftovers { deleted: true, orphans: false }, format: Text, names: Given([\"a\"]) }
files|--orphans|a => Files { leftovers: Leftovers { deleted: false, orphans: true }, format: Text, names: Given([\"a\"]) }
files|--format=json|--files-from=l => Files { leftovers: Leftovers { deleted: false, orphans: false }, format: Json, names: Listed { list: \"l\", separator: LineFeed } }
files|--files-from|-|--null|--format|csv => Files { leftovers: Leftovers { deleted: false, orphans: false }, format: Csv, names: Listed { list: \"-\", separator: Nul } }
extract|a|b => Extract { extraction: Extraction { into: \".\", part: false, skip_existing: false }, leftovers: Leftovers { deleted: false, orphans: false }, format: Text, names: Given([\"a\", \"b\"]) }
extract|--into|out|--part|--format=json|a => Extract { extraction: Extraction { into: \"out\", part: true, skip_existing: false }, leftovers: Leftovers { deleted: false, orphans: false }, format: Json, names: Given([\"a\"]) }
extract|--skip-existing|--into=--part|--files-from|-|--null|--format|csv => Extract { extraction: Extraction { into: \"--part\", part: false, skip_existing: true }, leftovers: Leftovers { deleted: false, orphans: false }, format: Csv, names: Listed { list: \"-\", separator: Nul } }
extract|--part|--deleted|a => Extract { extraction: Extraction { into: \".\", part: true, skip_existing: false }, leftovers: Leftovers { deleted: true, orphans: false }, format: Text, names: Given([\"a\"]) }
map|my disk => Map { format: Text, file: \"my disk\" }
map|--format|text|my disk => Map { format: Text, file: \"my disk\" }
map|--format=svg|--|--format => Map { format: Svg, file: \"--format\" }
map| => Map { format: Text, file: \"\" }
diff|a|my disk => Diff { format: Text, old: \"a\", new: \"my disk\" }
diff|a|--format|text|my disk => Diff { format: Text, old: \"a\", new: \"my disk\" }
diff|--format=json|--|-|--format => Diff { format: Json, old: \"-\", new: \"--format\" }
merge|-o|out|a => Merge { merging: Merging { output: \"out\", plain: false, majority: false, first: false }, format: Text, files: [\"a\"] }
merge|a|--first|--output=my out|--plain|b|--majority|--format|json => Merge { merging: Merging { output: \"my out\", plain: true, majority: true, first: true }, format: Json, files: [\"a\", \"b\"] }
catalogue|a|b => Catalogue { page: Page { maps: false, title: None, links: None }, names: Given([\"a\", \"b\"]) }
catalogue|--files-from=-|--maps => Catalogue { page: Page { maps: true, title: None, links: None }, names: Listed { list: \"-\", separator: LineFeed } }
catalogue|--null|--files-from|l => Catalogue { page: Page { maps: false, title: None, links: None }, names: Listed { list: \"l\", separator: Nul } }
catalogue|--title|My disks|a => Catalogue { page: Page { maps: false, title: Some(\"My disks\"), links: None }, names: Given([\"a\"]) }
catalogue|--links=out|a|--title=--maps => Catalogue { page: Page { maps: false, title: Some(\"--maps\"), links: Some(\"out\") }, names: Given([\"a\"]) }
catalogue|a|--maps|--links|//x: => Catalogue { page: Page { maps: true, title: None, links: Some(\"//x:\") }, names: Given([\"a\"]) }";

/// Arguments that are refused, and a line of the text that says why.
const REFUSED: &str = "\
shell|--tracks|36 => usage: --tracks takes 35 or 40 and no IMAGE
shell|--tracks|035 => usage: --tracks takes 35 or 40 and no IMAGE
shell|--tracks|+35 => usage: --tracks takes 35 or 40 and no IMAGE
shell|--tracks| => usage: --tracks takes 35 or 40 and no IMAGE
shell|--tracks|3 5 => usage: --tracks takes 35 or 40 and no IMAGE
shell|--resume|s|--tracks|36 => usage: --tracks takes 35 or 40 and no IMAGE
shell|--resume|s|--tracks|035 => usage: --tracks takes 35 or 40 and no IMAGE
shell|--resume|s|--tracks|+35 => usage: --tracks takes 35 or 40 and no IMAGE
shell|--resume|s|--tracks| => usage: --tracks takes 35 or 40 and no IMAGE
shell|--resume|s|--tracks|3 5 => usage: --tracks takes 35 or 40 and no IMAGE
shell|--tracks|40|disk => usage: --tracks takes 35 or 40 and no IMAGE
shell|--tracks|40|--resume|s => usage: --resume and --tracks exclude each other
crunch|--start|10000 => usage: --start takes one to four hexadecimal digits
crunch|--start|00801 => usage: --start takes one to four hexadecimal digits
crunch|--start| => usage: --start takes one to four hexadecimal digits
crunch|--start|+801 => usage: --start takes one to four hexadecimal digits
crunch|--start|0x8 => usage: --start takes one to four hexadecimal digits
crunch|--start|8 1 => usage: --start takes one to four hexadecimal digits
diff|a|b|--format|csv => usage: --format takes text or json
diff|a|b|--format|JSON => usage: --format takes text or json
diff|a|b|--format| => usage: --format takes text or json
diff|a|b|--format|json  => usage: --format takes text or json
merge|a|-o|b|--format|csv => usage: --format takes text or json
merge|a => usage: merge needs --output OUT
merge|-o|b => usage: give one FILE or more
merge|--first|-o|b|--plain => usage: give one FILE or more
map|a|--format|json => usage: --format takes text or svg
map|a|--format|SVG => usage: --format takes text or svg
map|a|--format| => usage: --format takes text or svg
map|a|--format|svg  => usage: --format takes text or svg
check|a|--format|svg => usage: --format takes text, json or csv
check|--null|--format|svg => usage: --format takes text, json or csv
files|a|--format|svg => usage: --format takes text, json or csv
files|--null|--format|svg => usage: --format takes text, json or csv
check|a|--format|JSON => usage: --format takes text, json or csv
check|--null|--format|JSON => usage: --format takes text, json or csv
files|a|--format|JSON => usage: --format takes text, json or csv
files|--null|--format|JSON => usage: --format takes text, json or csv
check|a|--format| => usage: --format takes text, json or csv
check|--null|--format| => usage: --format takes text, json or csv
files|a|--format| => usage: --format takes text, json or csv
files|--null|--format| => usage: --format takes text, json or csv
check|a|--format|json  => usage: --format takes text, json or csv
check|--null|--format|json  => usage: --format takes text, json or csv
files|a|--format|json  => usage: --format takes text, json or csv
files|--null|--format|json  => usage: --format takes text, json or csv
extract|a|--format|svg => usage: --format takes text, json or csv
extract|--null|--format|svg => usage: --format takes text, json or csv
extract|a|--format|JSON => usage: --format takes text, json or csv
extract|--null|--format|JSON => usage: --format takes text, json or csv
extract|a|--format| => usage: --format takes text, json or csv
extract|--null|--format| => usage: --format takes text, json or csv
extract|a|--format|json  => usage: --format takes text, json or csv
extract|--null|--format|json  => usage: --format takes text, json or csv
extract|--into||a => usage: --into takes the name of a folder
extract|--into| => usage: --into takes the name of a folder
extract|--into||--format|svg|a => usage: --format takes text, json or csv
extract|--into=|--part|a => usage: --into takes the name of a folder
extract|--into=|--part => usage: --into takes the name of a folder
extract|--into=|--part|--format|svg|a => usage: --format takes text, json or csv
check => usage: give either FILE.. or --files-from LIST
check|-- => usage: give either FILE.. or --files-from LIST
check|--null => usage: give either FILE.. or --files-from LIST
check|a|--files-from|l => usage: give either FILE.. or --files-from LIST
check|--null|--files-from|l|a => usage: give either FILE.. or --files-from LIST
check|a|--null => usage: --null needs --files-from
files => usage: give either FILE.. or --files-from LIST
files|-- => usage: give either FILE.. or --files-from LIST
files|--null => usage: give either FILE.. or --files-from LIST
files|a|--files-from|l => usage: give either FILE.. or --files-from LIST
files|--null|--files-from|l|a => usage: give either FILE.. or --files-from LIST
files|a|--null => usage: --null needs --files-from
extract => usage: give either FILE.. or --files-from LIST
extract|-- => usage: give either FILE.. or --files-from LIST
extract|--null => usage: give either FILE.. or --files-from LIST
extract|a|--files-from|l => usage: give either FILE.. or --files-from LIST
extract|--null|--files-from|l|a => usage: give either FILE.. or --files-from LIST
extract|a|--null => usage: --null needs --files-from
catalogue|--title||a => usage: --title takes a text
catalogue|--links=|--title= => usage: --title takes a text
catalogue|--links||a => usage: --links takes the name of a folder
catalogue|--links=|a|--files-from|l => usage: --links takes the name of a folder
catalogue|--title|t|--links|l => usage: give either FILE.. or --files-from LIST
catalogue => usage: give either FILE.. or --files-from LIST
catalogue|-- => usage: give either FILE.. or --files-from LIST
catalogue|--null => usage: give either FILE.. or --files-from LIST
catalogue|a|--files-from|l => usage: give either FILE.. or --files-from LIST
catalogue|--null|--files-from|l|a => usage: give either FILE.. or --files-from LIST
catalogue|a|--null => usage: --null needs --files-from
chek =>   tip: a similar subcommand exists: 'check'
help|frob => error: unrecognized subcommand 'frob'
frob => error: unrecognized subcommand 'frob'
disk.d64 =>   tip: to run a line on an image: d64sh shell disk.d64 -c list
disk.d64 => Usage: d64sh <COMMAND>
my disk.d64 =>   tip: to run a line on an image: d64sh shell 'my disk.d64' -c list
games/disk|validate|-e => error: unrecognized subcommand 'games/disk'
games/disk|validate|-e =>   tip: to run a line on an image: d64sh shell games/disk -c validate
shell|disk.d64|list => error: unexpected argument 'list' found
shell|disk.d64|list =>   tip: to run a line on an image: d64sh shell disk.d64 -c list
shell|disk|rename|a|b|-e =>   tip: to run a line on an image: d64sh shell disk -c 'rename a b'
shell|disk|rename|b c||it's =>   tip: to run a line on an image: d64sh shell disk -c 'rename \"b c\" \"\" it'\\''s'
shell|disk|rename \"b c\" a|d =>   tip: to run a line on an image: d64sh shell disk -c 'rename \"b c\" a d'
shell|it's.d64|type|\"b c\" =>   tip: to run a line on an image: d64sh shell 'it'\\''s.d64' -c 'type \"b c\"'
shell|0123456789012345678901234567890123456789012345678901234567890123|list =>   tip: to run a line on an image: d64sh shell 0123456789012345678901234567890123456789012345678901234567890123 -c list
shell|01234567890123456789012345678901234567890123456789012345678901234|list =>   tip: to run a line on an image: d64sh shell 0123456789012345678901234567890123456789012345678901234567890123.. -c list
shell|a|b => Usage: d64sh shell [-e] [-c LINE].. [--tracks N] [IMAGE]
petcat|--start|c000 => Usage: d64sh petcat [-o FILE] [FILE]
crunch|a|b => Usage: d64sh crunch [--start HEX] [-o FILE] [FILE]
crunch|--start=1|--start=2 => Usage: d64sh crunch [--start HEX] [-o FILE] [FILE]
check|-a => Usage: d64sh check [--digest] [--format FORMAT] FILE..
check|a|--format=csv|--format=csv => Usage: d64sh check [--digest] [--format FORMAT] FILE..
files|a|--digest => Usage: d64sh files [--deleted] [--orphans] [--format FORMAT] FILE..
extract|a|--digest => Usage: d64sh extract [--into FOLDER] [--part] [--deleted] [--orphans]
catalogue|a|--format|text => Usage: d64sh catalogue [--maps] [--title TEXT] [--links FOLDER] FILE..
catalogue|--title|a|--title|b => Usage: d64sh catalogue [--maps] [--title TEXT] [--links FOLDER] FILE..
extract|--links|l|a => Usage: d64sh extract [--into FOLDER] [--part] [--deleted] [--orphans]
map|--format|json => Usage: d64sh map [--format FORMAT] FILE
map|a|b => Usage: d64sh map [--format FORMAT] FILE
map =>   <FILE>
map|disk|--format => Usage: d64sh map [--format FORMAT] FILE
merge|a|-o => Usage: d64sh merge -o OUT [--plain] [--majority] [--first] [--format FORMAT] FILE..
merge|-o|a|-o|b|c => Usage: d64sh merge -o OUT [--plain] [--majority] [--first] [--format FORMAT] FILE..
diff|a|b|c => Usage: d64sh diff [--format FORMAT] OLD NEW
diff|a =>   <NEW>
diff =>   <OLD>
shell|--tracks =>        d64sh shell [-e] [-c LINE].. --resume FILE [IMAGE]
shell|disk|--resume =>        d64sh shell [-e] [-c LINE].. --resume FILE [IMAGE]
shell|--tracks => error: a value is required for '--tracks <N>' but none was supplied";

/// Arguments that ask for a text, and a line of it.
const SHOWN: &str = "\
help =>   shell      Runs a script of commands on a disk image
help|shell =>          keep HOST              store the session, with its changes
--help =>   petcat     Lists a BASIC program as text
petcat|--help => Example: d64sh petcat hello.prg -o hello.bas
check|--help => Example: d64sh check *.d64
check|-h =>       --files-from <LIST>  Take the names from the lines of a file; `-` is the standard input
files|--help => Example: d64sh files --format csv *.d64 >files.csv
extract|--help => Example: d64sh extract --into files *.d64
map|--help => Example: d64sh map --format svg disk.d64 >disk.svg
diff|--help => Example: d64sh diff before.d64 after.d64
merge|--help => Example: d64sh merge -o best.d64 first.d64 second.d64 third.g64
catalogue|--help => Example: d64sh catalogue --maps *.d64 >disks.html
-V => d64sh 0.3.0";

/// Returns the program's name and the arguments of a row.
fn arguments_of<'a>(alloc: Global, given: &'a str) -> Result<Vec<&'a str>, AllocError> {
    let mut arguments = Vec::new(alloc);
    arguments.push("d64sh")?;
    for argument in given.split('|') {
        arguments.push(argument)?;
    }
    Ok(arguments)
}

/// Whether `Debug` prints a job so.
fn is_printed(alloc: Global, job: &Job, wanted: &str) -> bool {
    match format!(in alloc; "{job:?}") {
        Ok(shown) => shown.as_str() == wanted,
        Err(AllocError) => false,
    }
}

/// Whether the text of a fault has this line.
fn has_line(alloc: Global, fault: &JobFault, line: &str) -> bool {
    match fault.to_string(alloc) {
        Ok(text) => text.as_str().lines().any(|known| known == line),
        Err(AllocError) => false,
    }
}

/// Whether these arguments ask for the job that is printed so, or a text with this line is shown:
/// for they asked for it, or because they are refused. No job is printed as a line of such a text.
fn is_met(alloc: Global, arguments: &[&str], text: &str, is_asked_for: bool) -> bool {
    match job(alloc, arguments) {
        Ok(job) => is_printed(alloc, &job, text),
        Err(fault) => {
            fault.is_help_or_version() == is_asked_for && has_line(alloc, &fault, text)
        }
    }
}

/// Whether a row holds.
fn holds(alloc: Global, row: &str, is_asked_for: bool) -> Result<bool, AllocError> {
    match row.split_once(" => ") {
        Some((given, text)) => {
            let arguments = arguments_of(alloc, given)?;
            Ok(is_met(alloc, &arguments, text, is_asked_for))
        }
        None => Ok(false),
    }
}

/// Checks each row of a text.
fn hold(rt: &(impl Abort + AllocGlobal), rows: &str, is_asked_for: bool) {
    for row in rows.lines() {
        assert!(rt;
            matches!(holds(rt.alloc(), row, is_asked_for), Ok(true)),
            "{row}"
        );
    }
}

#[test]
fn takes_arguments_for_jobs(rt: HostRuntime) {
    hold(&rt, JOBS, false);
}

#[test]
fn says_what_is_wrong(rt: HostRuntime) {
    hold(&rt, REFUSED, false);
}

#[test]
fn shows_help_and_version(rt: HostRuntime) {
    hold(&rt, SHOWN, true);
}

#[test]
fn wants_a_subcommand(rt: HostRuntime) {
    for arguments in [&[][..], &["d64sh"]] {
        assert!(rt; is_met(rt.alloc(), arguments, "Usage: d64sh <COMMAND>", false));
    }
}
