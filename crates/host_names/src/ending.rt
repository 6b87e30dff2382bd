//! The endings of host names.
ghost use Rattle.std.specs.Prelude.{◌≡◌, ◌++◌, OnOk};
ghost use Rattle.host_names.specs.HostName.{ending_text, tail};

use std::alloc::AllocError;

/// The ending of a file's host name: by its kind, or by why it has none.
#[derive(Clone, Copy, PartialEq, Eq)]
pub enum Ending {
    Del,
    Seq,
    Prg,
    Usr,
    Rel,
    /// That of a deleted file.
    Deleted,
    /// That of a chain of blocks that no slot leads to.
    Orphan,
}

impl Ending {
    /// The ending's text, with its full stop.
    #[tactic(auto, unfolding(crate::specs::HostName::ending_text))]
    fn text(self) -> &'static [u8]
        ensures { result.now ≡ ending_text self }
    {
        match self {
            Ending::Del => b".del",
            Ending::Seq => b".seq",
            Ending::Prg => b".prg",
            Ending::Usr => b".usr",
            Ending::Rel => b".rel",
            Ending::Deleted => b".deleted",
            Ending::Orphan => b".orphan",
        }
    }
}

/// Appends the ending, and `.part` if the file is written in part.
#[tactic(auto, unfolding(crate::specs::HostName::tail, crate::specs::HostName::part_ending))]
pub(crate) fn push_tail(name: &mut Vec<u8>, ending: Ending, is_part: bool) -> Result<(), AllocError>
    ensures { OnOk result (name.new.items ≡ name.old.items ++ tail ending is_part) }
{
    name.extend_from_slice(ending.text())?;
    if is_part {
        name.extend_from_slice(b".part")?;
    }
    Ok(())
}
