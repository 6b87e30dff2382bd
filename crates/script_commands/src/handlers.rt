//! The effect of each command: a handler for each.
#![tactic(auto, unfolding(script_lines::specs::Act::Does))]

ghost use Rattle.std.specs.Prelude.{◌≡◌, ◌<◌, ◌≤◌, Some, None, [], map, option_copied, option_map, length};
ghost use Rattle.d64_dos.specs.Change.{change_of};
ghost use Rattle.d64_dos.specs.Command.{IsWithin};
ghost use Rattle.script_lines.specs.Response.{Responds, RespondsAlone};
ghost use Rattle.script_lines.specs.FoundFile.{can_name_file};
ghost use Rattle.d64_history.specs.History.{History, present_image};
ghost use Rattle.script_lines.specs.declared.status.Status.TheVariants as statuses;
ghost use Rattle.script_lines.specs.Line.{put, block_act, block_read_act, block_write_act, crunch_act, write_program, delete_act, format_act, history_act, keep_act, list_act, name_act, name_parts, petcat_act, show_program, quit_act, read_act, read_to, redo_act, rename_act, save_act, show_file, type_act, undelete_act, undo_act, validate_act, write_act, run, write_one_block};

use crate::history_text::history_text;
use cbm_text::PROGRAM_START;
use d64_dos::Command;
use d64_files::{Kind, Name, Pattern};
use d64_image::BlockNo;
use d64_undo::{NothingToRedo, NothingToUndo, Session};
use host_storage::Host;
use petscii::{spelling_is_ascii, to_text};
use script_lines::arguments::{
    at_comma, block_in, host_in, id_in, name_and_kind_in, name_and_kind_of, name_in, new_name,
    pattern_in, patterns_in,
};
use script_lines::file_text::file_text;
use script_lines::host_file::{HOST_FILE_BYTES, fetch};
use script_lines::listing_text::listing_text;
use script_lines::{Output, Response, Status};
use std::alloc::Global;
use std::str;

/// `block`: shows a block in sixteen lines.
pub(crate) fn block(session: &Session, track: &str, sector: &str) -> Result<Response, Status>
    ensures { RespondsAlone (block_act session.now (track.now, sector.now)) session.now result session.now }
{
    let block = block_in(session.image(), track, sector)?;
    Ok(Response {
        output: Output::Block(block),
        status: Status::Done,
        closes: false,
    })
}

/// `bread`: stores a block in a host file.
pub(crate) fn block_read<H: Host>(
    alloc: Global,
    host: &mut H,
    session: &Session,
    name: &str,
    track: &str,
    sector: &str,
) -> Result<Response, Status>
    ensures { Responds (block_read_act session.now (name.now, (track.now, sector.now))) (H.state host.old) session.now result (H.state host.new) session.now }
{
    let name = host_in(name)?;
    let image = session.image();
    let block = block_in(image, track, sector)?;
    store(alloc, host, name, image.sector(block))
}

/// `bwrite`: replaces a block by a host file of one block.
pub(crate) fn block_write<H: Host>(
    alloc: Global,
    host: &mut H,
    session: &mut Session,
    name: &str,
    track: &str,
    sector: &str,
) -> Result<Response, Status>
    ensures { Responds (block_write_act session.old (name.now, (track.now, sector.now))) (H.state host.old) session.old result (H.state host.new) session.new }
{
    let name = host_in(name)?;
    let at = block_in(session.image(), track, sector)?;
    let bytes = fetch(alloc, host, name, HOST_FILE_BYTES)?;
    write_one_block(session, at, bytes.as_slice())
}

/// Replaces a block of the image by the bytes of a host file.
fn write_one_block(session: &mut Session, at: BlockNo, bytes: &[u8]) -> Result<Response, Status>
    requires { at < length (present_image session.old) }
    ensures { RespondsAlone (write_one_block session.old at bytes.now) session.old result session.new }
{
    match bytes.as_array() {
        Some(block) => run_command(session, &Command::BlockWrite { at, block: *block }),
        None => Err(Status::NotOneBlock),
    }
}

/// Runs a command of the session. The image must have the block that a block write names.
fn run_command(session: &mut Session, command: &Command) -> Result<Response, Status>
    requires { IsWithin (present_image session.old) (change_of command.now) }
    ensures { RespondsAlone (run session.old (change_of command.now)) session.old result session.new }
{
    let reply = session.run(command)?;
    Ok(Response::plain(Status::from(reply)))
}

/// `crunch`: writes a BASIC text of the host to the disk as a program, by default under its own
/// name.
pub(crate) fn crunch<H: Host>(
    alloc: Global,
    host: &mut H,
    session: &mut Session,
    source: &str,
    name: Option<&str>,
) -> Result<Response, Status>
    ensures { Responds (crunch_act session.old (source.now, option_map (λ argument. argument.now) name.entry)) (H.state host.old) session.old result (H.state host.new) session.new }
{
    let file = host_in(source)?;
    let name = name_in(alloc, new_name(source, name))?;
    let text = fetch(alloc, host, file, HOST_FILE_BYTES)?;
    write_program(alloc, session, name, text.as_slice())
}

/// Writes the program of a BASIC text to the disk as PRG.
fn write_program(
    alloc: Global,
    session: &mut Session,
    name: Name,
    text: &[u8],
) -> Result<Response, Status>
    ensures { RespondsAlone (write_program session.old name text.now) session.old result session.new }
{
    let bytes = cbm_text::crunch(alloc, PROGRAM_START, text)?;
    run_command(
        session,
        &Command::Write {
            name,
            kind: Kind::Prg,
            bytes,
        },
    )
}

/// `delete`: deletes the files that at least one of the patterns matches. Each argument is a
/// pattern.
pub(crate) fn delete(
    alloc: Global,
    session: &mut Session,
    patterns: &[&str],
) -> Result<Response, Status>
    ensures { RespondsAlone (delete_act session.old (map (λ argument. argument.now) patterns.now)) session.old result session.new }
{
    let patterns = patterns_in(alloc, patterns)?;
    run_command(session, &Command::Delete { patterns })
}

/// `format`: makes the disk an empty one. The argument is split at its first comma, into the name
/// and the id.
pub(crate) fn format(
    alloc: Global,
    session: &mut Session,
    argument: &str,
) -> Result<Response, Status>
    ensures { RespondsAlone (format_act session.old argument.now) session.old result session.new }
{
    let Some((name, id)) = at_comma(argument.as_bytes()) else {
        return Err(Status::SyntaxError);
    };
    let name = name_in(alloc, name)?;
    let id = id_in(alloc, id)?;
    run_command(session, &Command::Format { name, id })
}

/// `history`: lists the records.
pub(crate) fn history(alloc: Global, session: &Session) -> Result<Response, Status>
    ensures { RespondsAlone (history_act session.now) session.now result session.now }
{
    let text = history_text(alloc, session)?;
    Ok(Response::text(text))
}

/// `keep`: stores the session in a host file.
pub(crate) fn keep<H: Host>(
    alloc: Global,
    host: &mut H,
    session: &Session,
    name: &str,
) -> Result<Response, Status>
    ensures { Responds (keep_act session.now name.now) (H.state host.old) session.now result (H.state host.new) session.now }
{
    let name = host_in(name)?;
    let file = session.keep(alloc)?;
    store(alloc, host, name, file.as_slice())
}

/// `list`: lists the directory.
pub(crate) fn list(alloc: Global, session: &Session) -> Result<Response, Status>
    ensures { RespondsAlone (list_act session.now) session.now result session.now }
{
    let listing = d64_dos::listing(alloc, session.image())?;
    let text = listing_text(alloc, &listing)?;
    Ok(Response::text(text))
}

/// `name`: gives the disk another name. The argument may be split at its first comma, into the name
/// and an id.
pub(crate) fn name(alloc: Global, session: &mut Session, argument: &str) -> Result<Response, Status>
    ensures { RespondsAlone (name_act session.old argument.now) session.old result session.new }
{
    let bytes = argument.as_bytes();
    match at_comma(bytes) {
        Some((name, id)) => name_with_id(alloc, session, name, id),
        None => name_alone(alloc, session, bytes),
    }
}

/// Gives the disk another name and another id.
fn name_with_id(
    alloc: Global,
    session: &mut Session,
    name: &[u8],
    id: &[u8],
) -> Result<Response, Status>
    ensures { RespondsAlone (name_parts session.old [] (Some (name.now, id.now))) session.old result session.new }
{
    let name = name_in(alloc, name)?;
    let id = id_in(alloc, id)?;
    run_command(session, &Command::Name { name, id: Some(id) })
}

/// Gives the disk another name.
fn name_alone(alloc: Global, session: &mut Session, name: &[u8]) -> Result<Response, Status>
    ensures { RespondsAlone (name_parts session.old name.now None) session.old result session.new }
{
    let name = name_in(alloc, name)?;
    run_command(session, &Command::Name { name, id: None })
}

/// `petcat`: shows the text of a BASIC program of the disk.
pub(crate) fn petcat(alloc: Global, session: &Session, name: &str) -> Result<Response, Status>
    ensures { RespondsAlone (petcat_act session.now name.now) session.now result session.now }
{
    let pattern = pattern_in(alloc, name)?;
    show_program(alloc, session, &pattern)
}

/// Shows the text of the BASIC program that a pattern finds.
fn show_program(alloc: Global, session: &Session, pattern: &Pattern) -> Result<Response, Status>
    ensures { RespondsAlone (show_program session.now pattern.now) session.now result session.now }
{
    let file = d64_dos::read(alloc, session.image(), pattern)?;
    let text = cbm_text::list(alloc, file.bytes.as_slice())?;
    Ok(Response::text(text))
}

/// `quit`: ends the run.
pub(crate) fn quit() -> Result<Response, Status>
    ensures { (history : History) → RespondsAlone (quit_act history) history result history }
{
    Ok(Response {
        output: Output::Nothing,
        status: Status::Done,
        closes: true,
    })
}

/// `read`: stores a file of the disk in a host file, by default in the one of the file's own name.
pub(crate) fn read<H: Host>(
    alloc: Global,
    host: &mut H,
    session: &Session,
    name: &str,
    target: Option<&str>,
) -> Result<Response, Status>
    ensures { Responds (read_act session.now (name.now, option_map (λ argument. argument.now) target.entry)) (H.state host.old) session.now result (H.state host.new) session.now }
{
    let pattern = pattern_in(alloc, name)?;
    match target {
        Some(argument) => read_to(alloc, host, session, &pattern, argument),
        None => read_as_found(alloc, host, session, &pattern),
    }
}

/// Stores the file that a pattern finds in the host file of an argument.
fn read_to<H: Host>(
    alloc: Global,
    host: &mut H,
    session: &Session,
    pattern: &Pattern,
    argument: &str,
) -> Result<Response, Status>
    ensures { Responds (read_to session.now pattern.now (Some argument.now)) (H.state host.old) session.now result (H.state host.new) session.now }
{
    let name = host_in(argument)?;
    let found = d64_dos::read(alloc, session.image(), pattern)?;
    store(alloc, host, name, found.bytes.as_slice())
}

/// Stores the file that a pattern finds in the host file of its own name in text form.
fn read_as_found<H: Host>(
    alloc: Global,
    host: &mut H,
    session: &Session,
    pattern: &Pattern,
) -> Result<Response, Status>
    ensures { Responds (read_to session.now pattern.now None) (H.state host.old) session.now result (H.state host.new) session.now }
{
    let file = d64_dos::read(alloc, session.image(), pattern)?;
    let name = to_text(alloc, file.name.as_slice())?;
    spelling_is_ascii(file.name.as_slice());
    if !is_file_name(name.as_slice()) {
        return Err(Status::BadName);
    }
    let name = str::from_utf8(name.as_slice()).unwrap();
    store(alloc, host, name, file.bytes.as_slice())
}

/// `redo`: goes to the next image of the history.
pub(crate) fn redo(session: &mut Session) -> Result<Response, Status>
    ensures { RespondsAlone (redo_act session.old) session.old result session.new }
{
    session.redo().map_err(of_nothing_to_redo)?;
    Ok(Response::plain(Status::Done))
}

/// `rename`: gives the first file with one name another.
pub(crate) fn rename(
    alloc: Global,
    session: &mut Session,
    old: &str,
    new: &str,
) -> Result<Response, Status>
    ensures { RespondsAlone (rename_act session.old (old.now, new.now)) session.old result session.new }
{
    let old = name_in(alloc, old.as_bytes())?;
    let new = name_in(alloc, new.as_bytes())?;
    run_command(session, &Command::Rename { old, new })
}

/// `save`: stores the image in a host file, by default in `home`. If there is none, an argument is
/// missing.
pub(crate) fn save<H: Host>(
    alloc: Global,
    host: &mut H,
    home: Option<&str>,
    session: &Session,
    name: Option<&str>,
) -> Result<Response, Status>
    ensures { Responds (save_act (option_copied home.entry) session.now (option_map (λ argument. argument.now) name.entry)) (H.state host.old) session.now result (H.state host.new) session.now }
{
    let name = match name {
        Some(argument) => host_in(argument)?,
        None => home.ok_or(Status::MissingArgument)?,
    };
    store(alloc, host, name, session.image().bytes())
}

/// `type`: shows the lines of a text of the disk.
pub(crate) fn type_text(alloc: Global, session: &Session, name: &str) -> Result<Response, Status>
    ensures { RespondsAlone (type_act session.now name.now) session.now result session.now }
{
    let pattern = pattern_in(alloc, name)?;
    show_file(alloc, session, &pattern)
}

/// Shows the lines of the text that a pattern finds.
fn show_file(alloc: Global, session: &Session, pattern: &Pattern) -> Result<Response, Status>
    ensures { RespondsAlone (show_file session.now pattern.now) session.now result session.now }
{
    let file = d64_dos::read(alloc, session.image(), pattern)?;
    let text = file_text(alloc, file.bytes.as_slice())?;
    Ok(Response::text(text))
}

/// `undelete`: brings back a deleted file. The argument may be split at its first comma, into the
/// name and the letter of a kind.
pub(crate) fn undelete(
    alloc: Global,
    session: &mut Session,
    argument: &str,
) -> Result<Response, Status>
    ensures { RespondsAlone (undelete_act session.old argument.now) session.old result session.new }
{
    let (name, kind) = name_and_kind_in(argument.as_bytes())?;
    let name = name_in(alloc, name)?;
    run_command(session, &Command::Undelete { name, kind })
}

/// `undo`: goes to the image before.
pub(crate) fn undo(session: &mut Session) -> Result<Response, Status>
    ensures { RespondsAlone (undo_act session.old) session.old result session.new }
{
    session.undo().map_err(of_nothing_to_undo)?;
    Ok(Response::plain(Status::Done))
}

/// `validate`: drops the files that were never closed, and writes the map anew.
pub(crate) fn validate(session: &mut Session) -> Result<Response, Status>
    ensures { RespondsAlone (validate_act session.old) session.old result session.new }
{
    run_command(session, &Command::Validate)
}

/// `write`: writes a host file to the disk, by default under its own name and as PRG.
pub(crate) fn write<H: Host>(
    alloc: Global,
    host: &mut H,
    session: &mut Session,
    source: &str,
    name: Option<&str>,
) -> Result<Response, Status>
    ensures { Responds (write_act session.old (source.now, option_map (λ argument. argument.now) name.entry)) (H.state host.old) session.old result (H.state host.new) session.new }
{
    let file = host_in(source)?;
    let (name, kind) = name_and_kind_of(source, name)?;
    let name = name_in(alloc, name)?;
    let bytes = fetch(alloc, host, file, HOST_FILE_BYTES)?;
    run_command(session, &Command::Write { name, kind, bytes })
}

/// Stores bytes in a host file.
fn store<H: Host>(alloc: Global, host: &mut H, name: &str, bytes: &[u8]) -> Result<Response, Status>
    ensures { (history : History) → Responds (put history name.now bytes.now) (H.state host.old) history result (H.state host.new) history }
{
    host.store(alloc, name, bytes)?;
    Ok(Response::plain(Status::Done))
}

/// Whether a text can name a host file: it isn't empty, `.` or `..`, and has no `/`.
#[tactic(auto, unfolding(script_lines::specs::FoundFile::can_name_file))]
fn is_file_name(text: &[u8]) -> bool
    ensures { result ≡ can_name_file text.now }
{
    !matches!(text, b"" | b"." | b"..") && !text.contains(&b'/')
}

/// The status of an undo that was refused.
fn of_nothing_to_undo(_refusal: NothingToUndo) -> Status
    ensures { result ≡ statuses.NothingToUndo }
{
    Status::NothingToUndo
}

/// The status of a redo that was refused.
fn of_nothing_to_redo(_refusal: NothingToRedo) -> Status
    ensures { result ≡ statuses.NothingToRedo }
{
    Status::NothingToRedo
}
