//! How much is written of a file.
ghost use Rattle.std.specs.Prelude.{◌≡◌};

/// How much is written of a file.
#[derive(Clone, Copy, PartialEq, Eq)]
pub enum Extent {
    /// Its content.
    Content,
    /// What is there of a file that has no content: it was not closed, its chain of blocks is
    /// broken, it is a DEL entry, or it was deleted and is lost.
    Part,
}

impl Extent {
    ghost use Rattle.cmd_extract_contents.specs.HostFileNames.{is_part};

    /// Whether only a part of a file is written.
    pub fn is_part(self) -> bool
        ensures { result ≡ is_part self }
    {
        match self {
            Extent::Content => false,
            Extent::Part => true,
        }
    }
}
