//! The commands of a script's lines: one table of their names, how many arguments each takes at
//! most, and how its line is typed.
ghost use Rattle.std.specs.Prelude.{◌≡◌};
ghost use Rattle.script_lines.specs.LineCommand.{command_named, command_row, most_arguments, command_name, usage};

/// A command of a line.
#[derive(Clone, Copy)]
pub enum LineCommand {
    Block,
    BlockRead,
    BlockWrite,
    Crunch,
    Delete,
    Format,
    ListHistory,
    Keep,
    ListDirectory,
    Name,
    Petcat,
    Quit,
    Read,
    Redo,
    Rename,
    Save,
    ShowText,
    Undelete,
    Undo,
    Validate,
    Write,
}

impl LineCommand {
    /// All commands, in the order of their names.
    pub const ALL: [LineCommand; 21] = [
        LineCommand::Block,
        LineCommand::BlockRead,
        LineCommand::BlockWrite,
        LineCommand::Crunch,
        LineCommand::Delete,
        LineCommand::Format,
        LineCommand::ListHistory,
        LineCommand::Keep,
        LineCommand::ListDirectory,
        LineCommand::Name,
        LineCommand::Petcat,
        LineCommand::Quit,
        LineCommand::Read,
        LineCommand::Redo,
        LineCommand::Rename,
        LineCommand::Save,
        LineCommand::ShowText,
        LineCommand::Undelete,
        LineCommand::Undo,
        LineCommand::Validate,
        LineCommand::Write,
    ];

    /// Returns the command with this name, which is in small letters, if there is one.
    pub fn named(name: &str) -> Option<LineCommand>
        ensures { result ≡ command_named name.now }
    {
        for command in LineCommand::ALL {
            if name == command.name() {
                return Some(command);
            }
        }
        None
    }

    /// Returns its name.
    pub fn name(self) -> &'static str
        ensures { result.now ≡ command_name self }
    {
        self.row().0
    }

    /// Returns the most arguments that it takes.
    pub fn most_arguments(self) -> usize
        ensures { result ≡ most_arguments self }
    {
        self.row().1
    }

    /// Returns how its line is typed: the name, and then a word for each argument, in brackets if
    /// it may be left out.
    pub fn usage(self) -> &'static str
        ensures { result.now ≡ usage self }
    {
        self.row().2
    }

    /// The name, the most arguments, and how the line is typed.
    fn row(self) -> (&'static str, usize, &'static str)
        ensures { (result.0.now, (result.1, result.2.now)) ≡ command_row self }
    {
        match self {
            LineCommand::Block => ("block", 2, "block T S"),
            LineCommand::BlockRead => ("bread", 3, "bread HOST T S"),
            LineCommand::BlockWrite => ("bwrite", 3, "bwrite HOST T S"),
            LineCommand::Crunch => ("crunch", 2, "crunch HOST [NAME]"),
            LineCommand::Delete => ("delete", 511, "delete PATTERN .."),
            LineCommand::Format => ("format", 1, "format NAME,ID"),
            LineCommand::ListHistory => ("history", 0, "history"),
            LineCommand::Keep => ("keep", 1, "keep HOST"),
            LineCommand::ListDirectory => ("list", 0, "list"),
            LineCommand::Name => ("name", 1, "name TEXT[,ID]"),
            LineCommand::Petcat => ("petcat", 1, "petcat NAME"),
            LineCommand::Quit => ("quit", 0, "quit"),
            LineCommand::Read => ("read", 2, "read NAME [HOST]"),
            LineCommand::Redo => ("redo", 0, "redo"),
            LineCommand::Rename => ("rename", 2, "rename OLD NEW"),
            LineCommand::Save => ("save", 1, "save [HOST]"),
            LineCommand::ShowText => ("type", 1, "type NAME"),
            LineCommand::Undelete => ("undelete", 1, "undelete NAME[,T]"),
            LineCommand::Undo => ("undo", 0, "undo"),
            LineCommand::Validate => ("validate", 0, "validate"),
            LineCommand::Write => ("write", 2, "write HOST [NAME[,T]]"),
        }
    }
}
