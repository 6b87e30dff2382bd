//! Who owns a block.
ghost use Rattle.std.specs.Prelude.{◌≡◌};
ghost use Rattle.std.specs.List.{slice_get};
ghost use Rattle.d64_files.specs.Ownership.{roots};
ghost use Rattle.d64_survey.specs.Owners.{pair_of};

use d64_files::{Entry, Kind, SlotNo};

/// The two parts that a file can have.
#[derive(Clone, Copy, Debug, PartialEq, Eq)]
pub enum Part {
    /// The blocks from the file's first one.
    Data,
    /// The side blocks of a REL file.
    Side,
}

/// Who owns a block. The default is the map.
#[derive(Clone, Copy, Debug, Default, PartialEq, Eq)]
pub enum Owner {
    /// The block allocation map.
    #[default]
    Map,
    /// The directory.
    Directory,
    /// A part of the file of a slot.
    File(SlotNo, Part),
}

/// The track and the sector from which the data of a slot's file leads, or None if it has no data:
/// only closed SEQ, PRG, USR and REL files have data.
pub fn data_pair(entry: &Entry) -> Option<(u8, u8)>
    ensures { result ≡ slice_get (roots entry.now.bytes) 0 }
{
    if !entry.closed() {
        return None;
    }
    match entry.kind() {
        Kind::Del => None,
        Kind::Seq | Kind::Prg | Kind::Usr | Kind::Rel => Some(entry.first_pair()),
    }
}

/// The track and the sector from which the side blocks of a slot's file lead, or None if it has no
/// side blocks: only a closed REL file has some, unless their track is 0.
pub fn side_pair(entry: &Entry) -> Option<(u8, u8)>
    ensures { result ≡ slice_get (roots entry.now.bytes) 1 }
{
    if !entry.closed() {
        return None;
    }
    match entry.kind() {
        Kind::Rel => entry.side_pair(),
        Kind::Del | Kind::Seq | Kind::Prg | Kind::Usr => None,
    }
}

/// The track and the sector from which a part of a slot's file leads, or None if the slot has no
/// such part.
pub fn pair_of(part: Part, entry: &Entry) -> Option<(u8, u8)>
    ensures { result ≡ pair_of part entry.now.bytes }
{
    match part {
        Part::Data => data_pair(entry),
        Part::Side => side_pair(entry),
    }
}
