//! What a line of a script does and prints, and the handler of its command.
#![tactic(auto, unfolding(script_lines::specs::Act::Does, script_lines::specs::Line::act_of_line))]

ghost use Rattle.std.specs.Prelude.{◌≡◌, ◌≤◌, ℕ, List, All, map, length, MatchOption, option_copied};
ghost use Rattle.script_text.specs.HeldLine.{HoldsText};
ghost use Rattle.script_text.specs.Words.{IsPrintable};
ghost use Rattle.d64_history.specs.History.{present_image};
ghost use Rattle.script_lines.specs.Act.{world_of};
ghost use Rattle.script_lines.specs.Response.{shown_response, Responds};
ghost use Rattle.script_lines.specs.Line.{act_of_words, act_of_text, act_of_line, IsSkipped, IsExecuted};
ghost use Rattle.script_lines.specs.LineValue.{act_of};

use crate::handlers;
use arrayvec::ArrayVec;
use d64_undo::Session;
use host_storage::Host;
use script_lines::{Line, Response, Status};
use script_text::held_line::HeldLine;
use script_text::raw_lines;
use script_text::words::{MAX_WORDS, Words, as_text};
use std::alloc::Global;

/// How many parts a line has at most, its command and its arguments, unless the command is `delete`.
/// A list for these takes less time to make than one for all that a line may have.
const FEW_WORDS: usize = 4;

/// Runs a line that was read to its end. Returns the response, or None if the line is skipped: an
/// empty line, or a comment.
///
/// `home` is the name of the host file in which `save` stores by default, if there is one.
pub fn execute_line<H: Host>(
    alloc: Global,
    host: &mut H,
    home: Option<&str>,
    session: &mut Session,
    line: &HeldLine,
) -> Option<Response>
    ensures { (raw : List ℕ) → HoldsText line.now raw → MatchOption result
        (IsSkipped (option_copied home.entry) session.old raw
        (world_of (H.state host.old) session.old)
        (world_of (H.state host.new) session.new))
        (λ response. IsExecuted (option_copied home.entry) session.old raw
        (world_of (H.state host.old) session.old)
        (shown_response (present_image session.new) response)
        (world_of (H.state host.new) session.new)) }
{
    let Some(text) = line.text() else {
        return Some(Response::plain(Status::LongLine));
    };
    if raw_lines::is_skipped(text) {
        return None;
    }
    let response = execute_text(alloc, host, home, session, text);
    Some(Response::of(response))
}

/// Runs the text of a line that is not skipped.
fn execute_text<H: Host>(
    alloc: Global,
    host: &mut H,
    home: Option<&str>,
    session: &mut Session,
    text: &[u8],
) -> Result<Response, Status>
    requires { length text.now ≤ 1024 }
    ensures { Responds (act_of_text (option_copied home.entry) session.old text.now) (H.state host.old) session.old result (H.state host.new) session.new }
{
    let Ok(words) = Words::of(text) else {
        return Err(Status::SyntaxError);
    };
    if words.len() <= FEW_WORDS {
        let few = held::<FEW_WORDS>(words);
        execute_arguments(alloc, host, home, session, few.as_slice())
    } else {
        execute_many(alloc, host, home, session, words)
    }
}

/// Runs a line of any number of arguments.
///
/// It is a function of its own, since the long list of arguments would else be cleared for each
/// line.
#[inline(never)]
fn execute_many<H: Host>(
    alloc: Global,
    host: &mut H,
    home: Option<&str>,
    session: &mut Session,
    words: Words,
) -> Result<Response, Status>
    requires len { length words ≤ 512 }
    requires printable { All (All IsPrintable) words }
    ensures { Responds (act_of_words (option_copied home.entry) session.old words.entry) (H.state host.old) session.old result (H.state host.new) session.new }
{
    let many = held::<MAX_WORDS>(words);
    execute_arguments(alloc, host, home, session, many.as_slice())
}

/// The command and the arguments of a line in a list that has room for them.
fn held<'a, const ROOM: usize>(words: Words<'a>) -> ArrayVec<&'a str, ROOM>
    requires room { length words ≤ ROOM }
    requires printable { All (All IsPrintable) words }
    ensures { map (λ word. word.now) result.items ≡ words.entry }
{
    let mut found = ArrayVec::new();
    for word in words {
        found.push(as_text(word));
    }
    found
}

/// Runs a line by its command and arguments.
fn execute_arguments<H: Host>(
    alloc: Global,
    host: &mut H,
    home: Option<&str>,
    session: &mut Session,
    words: &[&str],
) -> Result<Response, Status>
    ensures { Responds (act_of_words (option_copied home.entry) session.old (map (λ word. word.now) words.now)) (H.state host.old) session.old result (H.state host.new) session.new }
{
    match Line::of(words) {
        Ok(line) => execute(alloc, host, home, session, line),
        Err(status) => Err(status),
    }
}

/// Runs the command of a line.
fn execute<H: Host>(
    alloc: Global,
    host: &mut H,
    home: Option<&str>,
    session: &mut Session,
    line: Line,
) -> Result<Response, Status>
    ensures { Responds (act_of (option_copied home.entry) session.old line.entry) (H.state host.old) session.old result (H.state host.new) session.new }
{
    match line {
        Line::Block { track, sector } => handlers::block(session, track, sector),
        Line::BlockRead {
            host: name,
            track,
            sector,
        } => handlers::block_read(alloc, host, session, name, track, sector),
        Line::BlockWrite {
            host: name,
            track,
            sector,
        } => handlers::block_write(alloc, host, session, name, track, sector),
        Line::Crunch { host: source, name } => {
            handlers::crunch(alloc, host, session, source, name)
        }
        Line::Delete { patterns } => handlers::delete(alloc, session, patterns),
        Line::Format { name_and_id } => handlers::format(alloc, session, name_and_id),
        Line::ListHistory => handlers::history(alloc, session),
        Line::Keep { host: name } => handlers::keep(alloc, host, session, name),
        Line::ListDirectory => handlers::list(alloc, session),
        Line::Name { name_and_id } => handlers::name(alloc, session, name_and_id),
        Line::Petcat { name } => handlers::petcat(alloc, session, name),
        Line::Quit => handlers::quit(),
        Line::Read { name, host: target } => handlers::read(alloc, host, session, name, target),
        Line::Redo => handlers::redo(session),
        Line::Rename { old, new } => handlers::rename(alloc, session, old, new),
        Line::Save { host: name } => handlers::save(alloc, host, home, session, name),
        Line::ShowText { name } => handlers::type_text(alloc, session, name),
        Line::Undelete { name_and_kind } => handlers::undelete(alloc, session, name_and_kind),
        Line::Undo => handlers::undo(session),
        Line::Validate => handlers::validate(session),
        Line::Write { host: source, name } => handlers::write(alloc, host, session, source, name),
    }
}
