//! The kinds of files.
ghost use Rattle.std.specs.Prelude.{◌≡◌};
ghost use Rattle.d64_files.specs.Writing.{number_of_kind};

/// The kind of a file, the low four bits of its entry's type byte (the VICE manual, "The D64 disk
/// image format").
#[derive(Clone, Copy, Debug, PartialEq, Eq, Hash)]
pub enum Kind {
    /// DEL, number 0: an entry without content.
    Del,
    /// SEQ, number 1: a sequential file.
    Seq,
    /// PRG, number 2: a program.
    Prg,
    /// USR, number 3: a user file.
    Usr,
    /// REL, number 4: a file of records.
    Rel,
}

impl Kind {
    /// The number of the kind, from 0 to 4.
    pub(crate) fn number(self) -> u8
        ensures { result ≡ number_of_kind self }
    {
        match self {
            Kind::Del => 0,
            Kind::Seq => 1,
            Kind::Prg => 2,
            Kind::Usr => 3,
            Kind::Rel => 4,
        }
    }
}
