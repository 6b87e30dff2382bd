//! Cases: what is done, step by step, and the expected results.

use crate::script::Script;
use std::alloc::Global;

/// The place in a stream at which it fails.
#[derive(Clone, Copy, Debug, PartialEq, Eq)]
pub enum Place {
    Nowhere,
    /// After this many bytes.
    After(usize),
    /// After each number of bytes below the number that there are, one after another.
    Anywhere,
}

/// What a writer does once it is full.
#[derive(Clone, Copy, Debug, PartialEq, Eq)]
pub enum WhenFull {
    Fails,
    TakesNothing,
}

/// How a script is run, and how the run must end.
#[derive(Drop)]
pub struct RunOptions {
    /// The arguments after the program's name; None if the script is run without the program.
    pub arguments: Option<Vec<String>>,
    /// The most bytes that a read gives; None means 1, 7 and 4,096 in turn.
    pub at_most: Option<usize>,
    pub reader_fails: Place,
    pub writer_stops: Place,
    pub when_full: WhenFull,
    pub fails_at_flush: bool,
    /// How many bytes the standard error takes.
    pub faults_limit: Option<usize>,
    /// Whether the script must end with a read fault although its reader does not fail.
    pub is_past_limits: bool,
    /// The exit status of the program.
    pub status: u8,
    /// What the program writes to the standard error.
    pub faults: String,
}

impl RunOptions {
    /// Returns a run to the end, on streams that do not fail.
    pub fn plain(alloc: Global) -> RunOptions {
        RunOptions {
            arguments: None,
            at_most: None,
            reader_fails: Place::Nowhere,
            writer_stops: Place::Nowhere,
            when_full: WhenFull::Fails,
            fails_at_flush: false,
            faults_limit: None,
            is_past_limits: false,
            status: 0,
            faults: String::new(alloc),
        }
    }
}

/// A run of a script.
#[derive(Drop)]
pub struct Run {
    pub options: RunOptions,
    pub script: Script,
}

/// What a step of a case does or checks.
#[derive(Drop)]
pub enum Action {
    /// From here on, files are those of the current folder.
    OnTheFolder,
    /// A session on this image begins.
    Image {
        bytes: Vec<u8>,
    },
    /// A host file has these bytes.
    Put {
        name: String,
        bytes: Vec<u8>,
    },
    /// A host file has these bytes from a place on.
    Change {
        name: String,
        place: usize,
        bytes: Vec<u8>,
    },
    /// The call of the host with this number, counted from here, fails.
    FailAt {
        call: usize,
    },
    Run {
        run: Run,
    },
    /// Checks whether a host file has these bytes.
    File {
        name: String,
        bytes: Vec<u8>,
    },
    /// Checks whether a host file has the bytes of the session's image.
    FileIsImage {
        name: String,
    },
    /// Checks whether there is no host file with this name.
    NoFile {
        name: String,
    },
    /// Checks whether a block has these bytes from a place on.
    Block {
        track: u8,
        sector: u8,
        place: usize,
        bytes: Vec<u8>,
    },
    /// Checks how many records are before and after the cursor.
    Records {
        done: usize,
        undone: usize,
    },
}

/// A step of a case, and the number of its first line.
#[derive(Drop)]
pub struct Step {
    pub line: usize,
    pub action: Action,
}
