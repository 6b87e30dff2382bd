//! What is wrong with a refused line, in plain words.
ghost use Rattle.std.specs.Prelude.{◌≡◌};
ghost use Rattle.script_advice.specs.Advice.{advice, file_piece, host_piece, missing_argument, missing_file, most_of, name_of_piece, name_part, not_number, one_piece, piece_of, pieces, plain_pieces, piece_bytes, reads_host_file, surplus_piece, two_pieces, unusable, unusable_file, unusable_for, usage_of, wrong_block, wrong_host_file, wrong_line, wrong_name, wrong_type, wrong_arguments};

use crate::faults::{basic_fault, directory_fault};
use crate::hint::hint_text;
use crate::line_parts::LineParts;
use host_storage::HostFault;
use program_console::Reason;
use script_lines::arguments::at_comma;
use script_lines::{LineCommand, Status};
use script_text::number::number;

/// A piece of the advice: a text, or an argument of the line.
#[derive(Clone, Copy)]
pub(crate) enum Piece {
    Text(&'static [u8]),
    Command,
    First,
    /// The name in the first argument, if that names a file and its type.
    FirstName,
    Second,
    /// The name in the second argument.
    SecondName,
    Third,
    Fourth,
}

impl Piece {
    /// The piece's bytes, by the arguments of the line.
    pub(crate) fn of<'a>(self, parts: &LineParts<'a>) -> &'a [u8]
        ensures { result.now ≡ piece_bytes parts.now (piece_of self) }
    {
        match self {
            Piece::Text(text) => text,
            Piece::Command => parts.command.as_bytes(),
            Piece::First => parts.first.as_bytes(),
            Piece::FirstName => name_part(parts.first),
            Piece::Second => parts.second.as_bytes(),
            Piece::SecondName => name_part(parts.second),
            Piece::Third => parts.third.as_bytes(),
            Piece::Fourth => parts.fourth.as_bytes(),
        }
    }

    /// The name in an argument that names a file.
    fn name(self) -> Piece
        ensures { piece_of result ≡ name_of_piece (piece_of self) }
    {
        match self {
            Piece::First => Piece::FirstName,
            Piece::Second => Piece::SecondName,
            piece => piece,
        }
    }
}

/// What comes before the first comma of an argument, or all of it.
pub(crate) fn name_part(argument: &str) -> &[u8]
    ensures { result.now ≡ name_part argument.now }
{
    match at_comma(argument.as_bytes()) {
        Some((name, _)) => name,
        None => argument.as_bytes(),
    }
}

/// The advice about a refused line.
#[derive(Clone, Copy)]
pub(crate) struct Advice {
    pub(crate) pieces: [Piece; 5],
}

impl Advice {
    /// Only a text.
    fn plain(text: &'static [u8]) -> Advice
        ensures { pieces result ≡ plain_pieces text.now }
    {
        Advice::two(text, Piece::Text(b""), b"", Piece::Text(b""), b"")
    }

    /// A piece between two texts.
    fn one(before: &'static [u8], piece: Piece, after: &'static [u8]) -> Advice
        ensures { pieces result ≡ one_piece before.now (piece_of piece) after.now }
    {
        Advice::two(before, piece, after, Piece::Text(b""), b"")
    }

    /// Two pieces among three texts.
    fn two(
        before: &'static [u8],
        piece: Piece,
        between: &'static [u8],
        other: Piece,
        after: &'static [u8],
    ) -> Advice
        ensures { pieces result ≡ two_pieces before.now (piece_of piece) between.now (piece_of other) after.now }
    {
        Advice {
            pieces: [
                Piece::Text(before),
                piece,
                Piece::Text(between),
                other,
                Piece::Text(after),
            ],
        }
    }

    /// The advice about a line with these arguments that was refused with this status, for this
    /// reason, if one is known.
    pub(crate) fn of(parts: &LineParts<'_>, status: &Status, reason: Option<Reason>) -> Advice
        ensures { pieces result ≡ advice parts.now status.now reason }
    {
        let command = LineCommand::named(parts.command);
        match *status {
            Status::SyntaxError => wrong_arguments(parts, command),
            Status::UnknownCommand => Advice::two(
                b"there is no command \"",
                Piece::Command,
                b"\"",
                Piece::Text(hint_text(parts.command)),
                b"",
            ),
            Status::LongLine => Advice::plain(b"a line has at most 1024 characters"),
            Status::BadName => wrong_name(parts, command),
            Status::MissingArgument => missing_argument(parts, command),
            Status::WriteFileOpen => Advice::one(
                b"the file \"",
                Piece::First,
                b"\" was never closed, so it cannot be read; d64sh extract --part writes what is there",
            ),
            Status::FileNotFound => missing_file(command),
            Status::FileExists => Advice::one(
                b"the disk already has a file named \"",
                file_piece(parts, command).name(),
                b"\"",
            ),
            Status::FileTypeMismatch => wrong_type(parts, command),
            Status::IllegalBlock { .. } => wrong_block(parts, command),
            Status::DirectoryError(fault) => Advice::one(
                b"the disk is damaged: ",
                Piece::Text(directory_fault(fault)),
                b"; d64sh check shows where",
            ),
            Status::DiskFull => Advice::plain(
                b"there is not enough space on the disk or in its directory; a blank disk needs format first",
            ),
            Status::HostFile(fault) => wrong_host_file(parts, command, fault, reason),
            Status::NothingToUndo => Advice::plain(b"there is nothing to undo"),
            Status::NothingToRedo => Advice::plain(b"there is nothing to redo"),
            Status::NotOneBlock => Advice::one(
                b"the file \"",
                Piece::First,
                b"\" is not 256 bytes long",
            ),
            Status::BasicText(fault) => Advice::two(
                b"the text \"",
                Piece::First,
                b"\" is not a program: ",
                Piece::Text(basic_fault(fault)),
                b"",
            ),
            Status::NotBasic(fault) => Advice::two(
                b"the file \"",
                Piece::First,
                b"\" is not a BASIC program: ",
                Piece::Text(fault.text().as_bytes()),
                b"",
            ),
            Status::FileLost => Advice::one(
                b"what was deleted as \"",
                Piece::FirstName,
                b"\" is lost, and cannot be brought back",
            ),
            Status::OutOfMemory => Advice::plain(b"out of memory"),
            Status::Done | Status::FilesScratched { .. } => Advice::plain(b""),
        }
    }
}

/// How the line of a command is typed; without one, where the commands are listed.
fn usage_of(command: Option<LineCommand>) -> &'static [u8]
    ensures { result.now ≡ usage_of command }
{
    match command {
        Some(command) => command.usage().as_bytes(),
        None => b"d64sh help shell lists the commands",
    }
}

/// The most arguments that a command takes, if there is one.
fn most_of(command: Option<LineCommand>) -> usize
    ensures { result ≡ most_of command }
{
    match command {
        Some(command) => command.most_arguments(),
        None => 0,
    }
}

/// A line whose file isn't there.
fn missing_file(command: Option<LineCommand>) -> Advice
    ensures { pieces result ≡ missing_file command }
{
    match command {
        Some(LineCommand::Undelete) => Advice::one(
            b"the disk has no deleted file \"",
            Piece::FirstName,
            b"\"",
        ),
        _ => Advice::one(b"the disk has no file \"", Piece::First, b"\""),
    }
}

/// The argument of a line that is the name of a file on the disk.
fn file_piece(parts: &LineParts<'_>, command: Option<LineCommand>) -> Piece
    ensures { piece_of result ≡ file_piece parts.now command }
{
    match command {
        Some(LineCommand::Rename) => Piece::Second,
        Some(LineCommand::Crunch | LineCommand::Write) => {
            if parts.count > 2 {
                Piece::Second
            } else {
                Piece::First
            }
        }
        _ => Piece::First,
    }
}

/// The argument of a line that is the name of a file of the host.
pub(crate) fn host_piece(parts: &LineParts<'_>, command: Option<LineCommand>) -> Piece
    ensures { piece_of result ≡ host_piece parts.now command }
{
    match command {
        Some(LineCommand::Read) => {
            if parts.count > 2 {
                Piece::Second
            } else {
                Piece::First
            }
        }
        _ => Piece::First,
    }
}

/// The first argument of a line that is one too many, for a command that takes at most this many.
fn surplus_piece(most: usize) -> Piece
    ensures { piece_of result ≡ surplus_piece most }
{
    match most {
        0 => Piece::First,
        1 => Piece::Second,
        2 => Piece::Third,
        _ => Piece::Fourth,
    }
}

/// The first of a track and a sector that is no number. `first` is the argument of the track.
fn not_number(track: &str, first: Piece, second: Piece) -> Piece
    ensures { piece_of result ≡ not_number track.now (piece_of first) (piece_of second) }
{
    match number(track.as_bytes()) {
        Some(_) => second,
        None => first,
    }
}

/// A line whose arguments are not what its command takes.
fn wrong_arguments(parts: &LineParts<'_>, command: Option<LineCommand>) -> Advice
    ensures { pieces result ≡ wrong_arguments parts.now command }
{
    let most = most_of(command);
    if parts.count == 0 {
        Advice::plain(
            b"quotes may only enclose a whole argument, and only printable ASCII is allowed",
        )
    } else if parts.count - 1 > most {
        Advice::two(
            b"\"",
            surplus_piece(most),
            b"\" is one argument too many: ",
            Piece::Text(usage_of(command)),
            b"",
        )
    } else {
        wrong_line(parts, command)
    }
}

/// A line whose host file has this fault, for this reason, if one is known.
fn wrong_host_file(
    parts: &LineParts<'_>,
    command: Option<LineCommand>,
    fault: HostFault,
    reason: Option<Reason>,
) -> Advice
    ensures { pieces result ≡ wrong_host_file parts.now command fault reason }
{
    if parts.count == 1 {
        return Advice::plain(
            b"the image file cannot be written; save HOST stores the image elsewhere",
        );
    }
    let piece = host_piece(parts, command);
    match fault {
        HostFault::Missing => Advice::one(b"the host has no file \"", piece, b"\""),
        HostFault::TooLong => {
            Advice::one(b"the file \"", piece, b"\" has more than 1048576 bytes")
        }
        HostFault::Device | HostFault::Memory(_) => unusable_file(command, piece, reason),
    }
}

/// A line whose command cannot read or write its host file, for this reason, if one is known.
fn unusable_file(command: Option<LineCommand>, file: Piece, reason: Option<Reason>) -> Advice
    ensures { pieces result ≡ unusable_file command (piece_of file) reason }
{
    match reason {
        None => Advice::one(b"the file \"", file, unusable(command)),
        Some(reason) => Advice::two(
            b"the file \"",
            file,
            unusable_for(command),
            Piece::Text(reason.text()),
            b")",
        ),
    }
}

/// What a command cannot do with its host file.
fn unusable(command: Option<LineCommand>) -> &'static [u8]
    ensures { result.now ≡ unusable command }
{
    if reads_host_file(command) {
        b"\" cannot be read"
    } else {
        b"\" cannot be written"
    }
}

/// The same, before the reason in brackets.
fn unusable_for(command: Option<LineCommand>) -> &'static [u8]
    ensures { result.now ≡ unusable_for command }
{
    if reads_host_file(command) {
        b"\" cannot be read ("
    } else {
        b"\" cannot be written ("
    }
}

/// Whether a command reads its host file.
pub(crate) fn reads_host_file(command: Option<LineCommand>) -> bool
    ensures { result ≡ reads_host_file command }
{
    matches!(
        command,
        Some(LineCommand::BlockWrite | LineCommand::Crunch | LineCommand::Write)
    )
}

/// A line that names a file of a type that its command does not take.
fn wrong_type(parts: &LineParts<'_>, command: Option<LineCommand>) -> Advice
    ensures { pieces result ≡ wrong_type parts.now command }
{
    match command {
        Some(LineCommand::Write) => Advice::one(
            b"the type in \"",
            Piece::Second,
            b"\" cannot be written; p, s and u can be",
        ),
        Some(LineCommand::Undelete) => Advice::one(
            b"the type in \"",
            Piece::First,
            b"\" cannot be brought back; p, s and u can be",
        ),
        _ => Advice::one(
            b"the file \"",
            file_piece(parts, command).name(),
            b"\" has the wrong type for this command",
        ),
    }
}

/// A line with the right number of arguments, one of which its command does not take.
fn wrong_line(parts: &LineParts<'_>, command: Option<LineCommand>) -> Advice
    ensures { pieces result ≡ wrong_line parts.now command }
{
    match command {
        Some(LineCommand::Block) => Advice::one(
            b"\"",
            not_number(parts.first, Piece::First, Piece::Second),
            b"\" is not a number from 0 to 255: block T S",
        ),
        Some(LineCommand::BlockRead | LineCommand::BlockWrite) => Advice::one(
            b"\"",
            not_number(parts.second, Piece::Second, Piece::Third),
            b"\" is not a number from 0 to 255",
        ),
        Some(LineCommand::Format) => Advice::one(
            b"\"",
            Piece::First,
            b"\" has no comma between name and id: format NAME,ID",
        ),
        Some(LineCommand::Write) => Advice::one(
            b"\"",
            Piece::Second,
            b"\" has no file type (p, s or u) after its first comma: write HOST NAME,T",
        ),
        Some(LineCommand::Undelete) => Advice::one(
            b"\"",
            Piece::First,
            b"\" has no file type (p, s or u) after its first comma: undelete NAME,T",
        ),
        _ => Advice::one(
            b"type the line like this: ",
            Piece::Text(usage_of(command)),
            b"",
        ),
    }
}

/// A line in which an argument cannot be a name.
fn wrong_name(parts: &LineParts<'_>, command: Option<LineCommand>) -> Advice
    ensures { pieces result ≡ wrong_name parts.now command }
{
    match command {
        Some(
            LineCommand::BlockRead
            | LineCommand::BlockWrite
            | LineCommand::Keep
            | LineCommand::Save,
        ) => Advice::one(
            b"\"",
            Piece::First,
            b"\" is not a valid name of a host file, which has 1 to 255 characters",
        ),
        Some(LineCommand::Format) => Advice::one(
            b"\"",
            Piece::First,
            b"\" is not a valid name of 1 to 16 characters and an id of 2, without * ? = : and quotes",
        ),
        Some(LineCommand::Name) => Advice::one(
            b"\"",
            Piece::First,
            b"\" is not a valid name of 1 to 16 characters, alone or with an id of 2 after a comma, without * ? = : and quotes",
        ),
        Some(LineCommand::Petcat | LineCommand::ShowText) => Advice::one(
            b"\"",
            Piece::First,
            b"\" is not a valid name, which has 1 to 16 characters without = : , and quotes",
        ),
        Some(LineCommand::Delete) => Advice::one(
            b"one of the names from \"",
            Piece::First,
            b"\" on is not valid: a name has 1 to 16 characters without = : , and quotes",
        ),
        Some(LineCommand::Read) => Advice::two(
            b"\"",
            Piece::First,
            b"\" is not a valid name on a disk, which has 1 to 16 characters without = : , and quotes, or the host cannot have a file \"",
            host_piece(parts, command),
            b"\": read NAME HOST",
        ),
        Some(LineCommand::Rename) => Advice::two(
            b"\"",
            Piece::First,
            b"\" or \"",
            Piece::Second,
            b"\" is not a valid name on a disk, which has 1 to 16 characters without * ? = : , and quotes",
        ),
        Some(LineCommand::Undelete) => Advice::one(
            b"\"",
            Piece::First,
            b"\" does not give a valid name on a disk, which has 1 to 16 characters without * ? = : , and quotes",
        ),
        _ => Advice::two(
            b"\"",
            file_piece(parts, command),
            b"\" does not give a valid name on a disk, which has 1 to 16 characters without * ? = : , and quotes, or the host cannot have a file \"",
            Piece::First,
            b"\"",
        ),
    }
}

/// A line in which an argument is missing.
fn missing_argument(parts: &LineParts<'_>, command: Option<LineCommand>) -> Advice
    ensures { pieces result ≡ missing_argument parts.now command }
{
    match command {
        Some(LineCommand::Save) => Advice::plain(
            b"the session began without an image file, so save takes a name: save HOST",
        ),
        _ => Advice::one(
            b"an argument is missing: ",
            Piece::Text(usage_of(command)),
            b"",
        ),
    }
}

/// A line that names a block that the disk doesn't have.
fn wrong_block(parts: &LineParts<'_>, command: Option<LineCommand>) -> Advice
    ensures { pieces result ≡ wrong_block parts.now command }
{
    let (track, sector) = match command {
        Some(LineCommand::Block) => (Piece::First, Piece::Second),
        _ => (Piece::Second, Piece::Third),
    };
    Advice::two(
        b"the disk has no track ",
        track,
        b" with a sector ",
        sector,
        b": sectors are numbered from 0, and there are 21 on tracks 1 to 17, 19 on 18 to 24, 18 on 25 to 30, then 17",
    )
}
