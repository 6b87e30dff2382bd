//! `Line`: a line of a script as a value, made of its command and arguments.
ghost use Rattle.std.specs.Prelude.{◌≡◌, Option, map, option_map};
ghost use Rattle.d64_image.specs.Disk.{Bytes};
ghost use Rattle.d64_history.specs.History.{History};
ghost use Rattle.script_lines.specs.Line.{act_for, alone};
ghost use Rattle.script_lines.specs.LineValue.{act_of, act_of_result, arguments_or_refusal};
ghost use Rattle.script_lines.specs.ArgumentCounts.{one_argument, at_most_one, argument_and, some_arguments};

use crate::line_command::LineCommand;
use crate::status::Status;
use script_text::words::MAX_WORDS;

/// What a line asks for: its command, and the arguments as they were written.
#[derive(Clone, Copy)]
pub enum Line<'a> {
    /// `block t s`: shows a block.
    Block {
        track: &'a str,
        sector: &'a str,
    },
    /// `bread host t s`: stores a block in a host file.
    BlockRead {
        host: &'a str,
        track: &'a str,
        sector: &'a str,
    },
    /// `bwrite host t s`: replaces a block by a host file.
    BlockWrite {
        host: &'a str,
        track: &'a str,
        sector: &'a str,
    },
    /// `crunch host [name]`: writes the program of a BASIC text of the host.
    Crunch {
        host: &'a str,
        name: Option<&'a str>,
    },
    /// `delete pattern ..`: deletes the files that the patterns match.
    Delete {
        patterns: &'a [&'a str],
    },
    /// `format name,id`: makes an empty disk.
    Format {
        name_and_id: &'a str,
    },
    /// `history`: shows the records of what was done and undone.
    ListHistory,
    /// `keep host`: stores the session.
    Keep {
        host: &'a str,
    },
    /// `list`: shows the directory.
    ListDirectory,
    /// `name text[,id]`: gives the disk another name.
    Name {
        name_and_id: &'a str,
    },
    /// `petcat name`: shows a BASIC program of the disk as text.
    Petcat {
        name: &'a str,
    },
    /// `quit`: ends the run.
    Quit,
    /// `read name [host]`: stores a file in a host file.
    Read {
        name: &'a str,
        host: Option<&'a str>,
    },
    /// `redo`: reverses an undo.
    Redo,
    /// `rename old new`: gives a file another name.
    Rename {
        old: &'a str,
        new: &'a str,
    },
    /// `save [host]`: stores the image.
    Save {
        host: Option<&'a str>,
    },
    /// `type name`: shows a text of the disk.
    ShowText {
        name: &'a str,
    },
    /// `undelete name[,t]`: brings a deleted file back.
    Undelete {
        name_and_kind: &'a str,
    },
    /// `undo`: reverses the last command.
    Undo,
    /// `validate`: drops the files that were never closed, and writes the map anew.
    Validate,
    /// `write host [name[,t]]`: writes a host file to the disk.
    Write {
        host: &'a str,
        name: Option<&'a str>,
    },
}

impl<'a> Line<'a> {
    ghost use Rattle.script_lines.specs.Line.{act_of_words};

    /// Reads a command and its arguments. The command is in small letters, and must have as many
    /// arguments as it takes.
    pub fn of(words: &'a [&'a str]) -> Result<Line<'a>, Status>
        ensures { (home : Option Bytes) (history : History) → act_of_result home history result ≡ act_of_words home history (map (λ argument. argument.now) words.now) }
    {
        let Some((name, arguments)) = words.split_first() else {
            return Err(Status::UnknownCommand);
        };
        match LineCommand::named(name) {
            Some(command) => with_arguments(command, arguments),
            None => Err(Status::UnknownCommand),
        }
    }
}

/// Reads the arguments of a command.
fn with_arguments<'a>(command: LineCommand, given: &'a [&'a str]) -> Result<Line<'a>, Status>
    ensures { (home : Option Bytes) (history : History) → act_of_result home history result ≡ act_for home history command (map (λ argument. argument.now) given.now) }
{
    match command {
        LineCommand::Block => two(given).map(|(track, sector)| Line::Block { track, sector }),
        LineCommand::BlockRead => three(given).map(|(host, track, sector)| Line::BlockRead {
            host,
            track,
            sector,
        }),
        LineCommand::BlockWrite => three(given).map(|(host, track, sector)| Line::BlockWrite {
            host,
            track,
            sector,
        }),
        LineCommand::Crunch => one_or_two(given).map(|(host, name)| Line::Crunch { host, name }),
        LineCommand::Delete => some(given).map(|patterns| Line::Delete { patterns }),
        LineCommand::Format => one(given).map(|name_and_id| Line::Format { name_and_id }),
        LineCommand::ListHistory => alone(Line::ListHistory, given),
        LineCommand::Keep => one(given).map(|host| Line::Keep { host }),
        LineCommand::ListDirectory => alone(Line::ListDirectory, given),
        LineCommand::Name => one(given).map(|name_and_id| Line::Name { name_and_id }),
        LineCommand::Petcat => one(given).map(|name| Line::Petcat { name }),
        LineCommand::Quit => alone(Line::Quit, given),
        LineCommand::Read => one_or_two(given).map(|(name, host)| Line::Read { name, host }),
        LineCommand::Redo => alone(Line::Redo, given),
        LineCommand::Rename => two(given).map(|(old, new)| Line::Rename { old, new }),
        LineCommand::Save => at_most_one(given).map(|host| Line::Save { host }),
        LineCommand::ShowText => one(given).map(|name| Line::ShowText { name }),
        LineCommand::Undelete => one(given).map(|name_and_kind| Line::Undelete { name_and_kind }),
        LineCommand::Undo => alone(Line::Undo, given),
        LineCommand::Validate => alone(Line::Validate, given),
        LineCommand::Write => one_or_two(given).map(|(host, name)| Line::Write { host, name }),
    }
}

/// A line whose command takes no arguments, if it has none.
fn alone<'a>(line: Line<'a>, given: &[&str]) -> Result<Line<'a>, Status>
    ensures { (home : Option Bytes) (history : History) → act_of_result home history result ≡ alone (map (λ argument. argument.now) given.now) (act_of home history line.entry) }
{
    match given {
        [] => Ok(line),
        _ => Err(Status::SyntaxError),
    }
}

/// Exactly one argument.
fn one<'a>(given: &[&'a str]) -> Result<&'a str, Status>
    ensures { arguments_or_refusal (λ argument. argument.now) result ≡ one_argument (map (λ argument. argument.now) given.now) }
{
    match given {
        [] => Err(Status::MissingArgument),
        [argument] => Ok(argument),
        _ => Err(Status::SyntaxError),
    }
}

/// Exactly two arguments.
fn two<'a>(given: &[&'a str]) -> Result<(&'a str, &'a str), Status>
    ensures { arguments_or_refusal (λ pair. (pair.0.now, pair.1.now)) result ≡ argument_and one_argument (map (λ argument. argument.now) given.now) }
{
    match given {
        [] | [_] => Err(Status::MissingArgument),
        [first, second] => Ok((first, second)),
        _ => Err(Status::SyntaxError),
    }
}

/// Exactly three arguments.
fn three<'a>(given: &[&'a str]) -> Result<(&'a str, &'a str, &'a str), Status>
    ensures { arguments_or_refusal (λ three. (three.0.now, (three.1.now, three.2.now))) result ≡ argument_and (argument_and one_argument) (map (λ argument. argument.now) given.now) }
{
    match given {
        [] | [_] | [_, _] => Err(Status::MissingArgument),
        [first, second, third] => Ok((first, second, third)),
        _ => Err(Status::SyntaxError),
    }
}

/// No argument, or one.
fn at_most_one<'a>(given: &[&'a str]) -> Result<Option<&'a str>, Status>
    ensures { arguments_or_refusal (option_map (λ argument. argument.now)) result ≡ at_most_one (map (λ argument. argument.now) given.now) }
{
    match given {
        [] => Ok(None),
        [argument] => Ok(Some(argument)),
        _ => Err(Status::SyntaxError),
    }
}

/// One argument, and perhaps another.
fn one_or_two<'a>(given: &[&'a str]) -> Result<(&'a str, Option<&'a str>), Status>
    ensures { arguments_or_refusal (λ pair. (pair.0.now, option_map (λ argument. argument.now) pair.1)) result ≡ argument_and at_most_one (map (λ argument. argument.now) given.now) }
{
    match given {
        [] => Err(Status::MissingArgument),
        [first] => Ok((first, None)),
        [first, second] => Ok((first, Some(second))),
        _ => Err(Status::SyntaxError),
    }
}

/// One argument or more, up to as many as a line has.
fn some<'a>(given: &'a [&'a str]) -> Result<&'a [&'a str], Status>
    ensures { arguments_or_refusal (λ some. map (λ argument. argument.now) some.now) result ≡ some_arguments (map (λ argument. argument.now) given.now) }
{
    match given.len() {
        0 => Err(Status::MissingArgument),
        1..=MAX_WORDS => Ok(given),
        _ => Err(Status::SyntaxError),
    }
}
